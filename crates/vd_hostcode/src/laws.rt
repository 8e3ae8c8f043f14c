//! What the files of host programs within the ranges are, as laws.

ghost use Rattle.std.specs.Prelude.{◌≡◌, ℕ, List, Ok, Result};
ghost use Rattle.vd_hostcode.specs.declared.host_text.program.HostProgram.{HostProgram};
ghost use Rattle.vd_hostcode.specs.Text.{program_text};
ghost use Rattle.vd_hostcode.specs.File.{IsFile};
ghost use Rattle.vd_hostcode.specs.HostTextOutcome.{file_of};
ghost use Rattle.vd_hostcode.specs.Outcome.{IsWithin, IsOutcome};

/// What is written of a program within the ranges is read as that program.
pub fn written_programs_are_read()
    ensures { (program : HostProgram) → IsFile (file_of program) → IsWithin program → IsOutcome (program_text program) (Ok program) }
{}
