ghost use Rattle.vd_projection.specs.Programs.{CodesCanBeLoaded, CodesRunAsTold, CodesRunWell};

/// What holds of the code of the hosts, for all inputs and valid deals. Nothing is computed here: the clauses are laws.
///
/// Each host's code is well nested and within the ranges of host code. The joint code of which it is each host's part prints at
/// each host the program's outputs to it; no comparison fails, guards agree and it is tidy. On lists that are followed by zeros all
/// that holds of every schedule holds of it.
pub fn host_codes_can_run()
    ensures loads { CodesCanBeLoaded }
    ensures runs { CodesRunAsTold }
    ensures well { CodesRunWell }
{}
