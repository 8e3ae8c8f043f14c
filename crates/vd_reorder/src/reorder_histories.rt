//! Hastened hosts, each by itself, over links that are first in, first out. Nothing is computed here: each function's clauses are laws.

ghost use Rattle.vd_reorder.specs.Hastened.{HastenedHistoriesAreOnTheWay, EndedHastenedHostsAreWhole};
ghost use Rattle.vd_reorder.specs.Ahead.{FaultsKeepTheirCauses, NeverLater, NoFaultIsNew};
ghost use Rattle.vd_reorder.specs.Short.{NoItemIsNew};

/// Hosts of which some have hastened codes, and which went on by themselves, each on packets that its peers sent to it, in order, do
/// what holds under every schedule of the joint code. One that has ended did all that the joint run has it do, wherever the others stand.
pub fn hastened_histories_are_schedules()
    ensures on_the_way { HastenedHistoriesAreOnTheWay }
    ensures ended { EndedHastenedHostsAreWhole }
{}

/// On whatever packets, a hastened host comes at least as far as it would have come before, has sent and printed at least as much, and
/// ends in the same state. What would have held it up holds it up, and nothing else does: the same packet that does not come or has
/// another length, or the same two words that differ. It asks for no item that it would not have asked for, unless held up before.
pub fn hastened_hosts_are_never_later()
    ensures never_later { NeverLater }
    ensures faults { FaultsKeepTheirCauses }
    ensures no_new_fault { NoFaultIsNew }
    ensures no_new_item { NoItemIsNew }
{}
