//! The choice of protocols for a source, which the commands over it begin with: the program that is run for it, and then its least
//! labels, the cheapest assignment, and a certificate of that. This second step is `choice_of` for all of them. Before it, some read
//! more files.
#![tactic(auto)]

ghost use Rattle.vd_cmd_choice.specs.Outcomes.{CertificateOutcomes};

mod choice;
mod programs;

pub use choice::{Choice, ChosenSource, assignment_text, choice_of, no_assignment};
pub use programs::{SourceProgram, load_program, load_source_program, program_of};

/// Each certificate file has an outcome, so there is a function for the clauses to speak of.
pub fn certificate_outcomes_exist()
    ensures { CertificateOutcomes }
{}
