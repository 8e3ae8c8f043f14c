//! What holds of each run. Nothing is computed here: the functions' clauses are laws.

ghost use Rattle.vd_cmd_run.specs.Asking.{EndedRunsReport, RunsAskInOrder};
ghost use Rattle.vd_cmd_run.specs.Completing.{RunsAreComplete, StatusesHaveCauses};
ghost use Rattle.vd_cmd_run.specs.HostLines.{EachHostHasItsLine};
ghost use Rattle.vd_cmd_run.specs.Statuses.{FaultsOfChildrenAreNamed};

/// A good source, children that are hosts, and no fault of the outside give status 0, or memory runs out.
pub fn runs_are_complete()
    ensures { RunsAreComplete }
{}

/// A fault of a fetch, of a write or of a call for a child is answered only where the count of the files, of the sink or of
/// the spawner rose.
pub fn statuses_have_causes()
    ensures { StatusesHaveCauses }
{}

/// A spawner is asked for the calls of a run of the source's hosts, for a prefix of them, or for nothing.
pub fn runs_ask_in_order()
    ensures { RunsAskInOrder }
{}

/// With status 0 each host of the source was a child with its command line, ended well, and is reported with the words that
/// it printed.
pub fn ended_runs_report()
    ensures { EndedRunsReport }
{}

/// The command lines of a run, read as commands, play each host from its own program and its own deal on the inputs of all. Both
/// ends of a pair have one address, the addresses of two pairs are two, and no two hosts have one file.
pub fn each_host_has_its_line()
    ensures { EachHostHasItsLine }
{}

/// A run that ends by what a child did, or by a line that no host prints, says which child it was: it never ends as out of memory.
pub fn faults_of_children_are_named()
    ensures { FaultsOfChildrenAreNamed }
{}
