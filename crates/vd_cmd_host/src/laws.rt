//! What holds of each run of the command, and the first three of those with a deal of version 1. Nothing is computed here: the functions' clauses are laws.

ghost use Rattle.vd_cmd_host.specs.Laws.{HostsAskInOrder, LinksComeBack, StatusesHaveCauses, WaitsAreLimited};
ghost use Rattle.vd_cmd_host.specs.Once.{DealsAreUsedOnce, MarksStandByDeals, MarksTell, NamesAreApart, NoDealServesTwice, UsedDealsStayMarked};
ghost use Rattle.vd_cmd_host.specs.Sealing.{LinksAreSealed};

/// A net is asked for a prefix of the host's calls and for no other: for all with status 0, and for none where the files were
/// not loaded.
pub fn hosts_ask_in_order()
    ensures { HostsAskInOrder }
{}

/// A fault of a fetch, of a peer or of the output is answered only where the count of the files, of the net or of the sink
/// rose.
pub fn statuses_have_causes()
    ensures { StatusesHaveCauses }
{}

/// Whatever the status is, each link that was given comes back to a net that tells them.
pub fn links_come_back()
    ensures { LinksComeBack }
{}

/// A host that is run over a net, with sealed links or without, waits for no other host for longer than its words allow.
pub fn waits_are_limited()
    ensures { WaitsAreLimited }
{}

/// Where something may have gone out over a sealed link behind its greeting, the deal is of version 2, and its mark was not there before and is
/// there now: no second run passes.
pub fn deals_are_used_once()
    ensures { DealsAreUsedOnce }
{}

/// With a deal of version 2 nothing goes out over a link but one hello and records with the keys that the deal, and both hellos, make for
/// that link, by a nonce of the bytes that were drawn for this run.
pub fn links_are_sealed()
    ensures { LinksAreSealed }
{}

/// Every program of a host finds the mark of a deal: it stands in the folder of the deal's file, by the host's number and the name of the
/// dealing. The marks of two hosts have two names, and so have those of two dealings whose names differ in their first half. What stands in
/// a mark tells the dealing, the host and the plan.
pub fn marks_are_apart()
    ensures place { MarksStandByDeals }
    ensures names { NamesAreApart }
    ensures texts { MarksTell }
{}

/// Of two runs of a host with deals of one dealing in one folder, only one sends anything behind its greetings, as long as the mark of the
/// first stands. And a run whose deal is refused as used leaves all marks as they were, and asks nothing of the net.
pub fn no_deal_serves_twice()
    ensures once { NoDealServesTwice }
    ensures refused { UsedDealsStayMarked }
{}
