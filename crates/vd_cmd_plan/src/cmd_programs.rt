//! The program of a host, as a command reads it from the bytes of a file.

ghost use Rattle.vd_cmd_plan.specs.Programs.{ProgramOutcomes};

mod program;

pub use program::program_in;

/// Each file has one outcome as the program of a host, so there is a function for the clauses to speak of.
pub fn program_outcomes_exist()
    ensures { ProgramOutcomes }
{}
