//! The commands of the front end: a source is fetched, read and resolved, and then run in clear or labelled.
#![tactic(auto)]

ghost use Rattle.vd_cmd_labels.specs.Outcomes.{TextOutcomes, LabelOutcomes};

mod clear_command;
mod clear_wraps;
mod inputs;
mod labels_command;
mod labels_systems;
mod sources;

pub use clear_command::clear;
pub use clear_wraps::what_wraps;
pub use inputs::load_inputs;
pub use labels_command::{labels, least_labels};
pub use sources::{load_source, normal_program, read_source, resolve_source};

/// Each text and each system of flow rules has an outcome, so there are functions for the clauses to speak of.
pub fn outcomes_exist()
    ensures texts { TextOutcomes }
    ensures labels { LabelOutcomes }
{}

pub use labels_systems::{programs_have_systems, resolved_sources_have_systems};
