//! From valid assignments of protocols to programs that hosts can run. Nothing is computed here: each function's clauses are laws.

ghost use Rattle.vd_projection.specs.Assignments.{AssignmentsCanRun, AssignmentsTellTheSame};

/// A well-made program at a valid assignment of protocols can run: with every valid deal and all inputs its joint code
/// prints at each host the program's outputs to it, runs smoothly and is tidy.
pub fn assignments_can_run()
    ensures can_run { AssignmentsCanRun }
    ensures tells { AssignmentsTellTheSame }
{}
