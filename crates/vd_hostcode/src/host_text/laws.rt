//! What the files of host programs are, as laws.

ghost use Rattle.std.specs.Prelude.{ℕ, List};
ghost use Rattle.vd_hostcode.specs.declared.host_text.program.HostProgram.{HostProgram};
ghost use Rattle.vd_hostcode.specs.Text.{program_text};
ghost use Rattle.vd_hostcode.specs.HostTextOutcome.{IsFileOf, FilesFollowGrammar, HasText};

/// All bytes either are the text of one file, or have one first offset at which they go on as no file of a host's program does.
pub fn files_follow_the_grammar()
    ensures { (bytes : List ℕ) → FilesFollowGrammar bytes }
{}

/// What is written of a program is a file of that program.
pub fn texts_are_files()
    ensures { (program : HostProgram) → HasText program → IsFileOf (program_text program) program }
{}
