//! What hosts did, each by itself, over links that are first in, first out. Nothing is computed here.

ghost use Rattle.vd_execution.specs.Histories.{EndedHostsAreWhole, HistoriesAreOnTheWay, HistoriesAreReached};

/// Hosts that went on by themselves, each on packets that its peers sent to it, in order, stand where a schedule leads them, and all
/// holds of them that holds under every schedule. One that has ended did all that the joint run has it do, wherever the others stand.
pub fn histories_are_schedules()
    ensures reached { HistoriesAreReached }
    ensures on_the_way { HistoriesAreOnTheWay }
    ensures whole { EndedHostsAreWhole }
{}
