//! What a check tells of a host's runs. Nothing is computed here: the functions' clauses are laws.

ghost use Rattle.vd_cmd_host.specs.CheckLaws.{CheckedHostsHaveEnough, ChecksTakeNoMark, HostsWithEnoughAreNotShort};

/// Where a check finds no list short, each has as many items as the code takes at most. Such a host never ends for want of an input or
/// of an item, whatever its peers send.
pub fn checked_hosts_are_not_short()
    ensures enough { CheckedHostsHaveEnough }
    ensures never_short { HostsWithEnoughAreNotShort }
{}

/// A check takes no mark, frees none and draws nothing.
pub fn checks_take_no_mark()
    ensures { ChecksTakeNoMark }
{}
