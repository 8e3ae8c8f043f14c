//! The commands `depends` and `influences`: the hosts whose inputs can bear on a host's outputs.
#![tactic(auto)]

ghost use Rattle.vd_cmd_depends.specs.Influencing.{InfluenceOutcomes};
ghost use Rattle.vd_cmd_depends.specs.Outcomes.{DependenceOutcomes};

mod depends_command;
mod influences_command;
mod laws;
mod line;

pub use depends_command::{depends, host_named};
pub use influences_command::influences;
pub use laws::lines_name_hosts;

/// Each host of a labelled program depends on one set of hosts, so there is a function for the clauses to speak of.
pub fn dependence_outcomes_exist()
    ensures { DependenceOutcomes }
{}

/// Of each host of a program the hosts whose inputs bear on its outputs are one set, so there is a function for the clauses to speak of.
pub fn influence_outcomes_exist()
    ensures { InfluenceOutcomes }
{}
