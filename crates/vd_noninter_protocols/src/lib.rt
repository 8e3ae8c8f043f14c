//! Which words come to a host in clear where each slot stands at a protocol, and on whose inputs they depend. Nothing is
//! computed here.
//! What labels mean for where words stand: at a valid assignment no principals can change what they may not, nor read it. Nothing is
//! computed here.
//! What a host knows of inputs at a list of protocols: its own, and the clear words that come to it; and the first place at
//! which it differs between two inputs.
//! The clear words that come to each host in the joint run of a program: they are those of the clear run, and depend on the
//! same inputs. Nothing is computed here: each function's clauses are laws.
#![tactic(auto)]

mod integrity_assigned;
mod noninter_assigned;
mod noninter_difference;
mod noninter_registers;

pub use integrity_assigned::{
    authorities_are_exact, guards_are_told_where_they_are_kept, words_stand_where_they_are_kept,
};
pub use noninter_assigned::{
    inputs_that_agree_bring_the_same, new_words_tell_all, reached_hosts_are_enough_assigned,
    worked_words,
};
pub use noninter_difference::{Listener, differences_are_exact, view_difference};
pub use noninter_registers::{
    example_registers, inputs_that_agree_are_told_the_same, joint_runs_tell_what_is_heard,
};
