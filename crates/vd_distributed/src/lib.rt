//! All hosts of a joint code, each driven by itself over its links: packets, and the bytes of which they are made. Nothing is
//! computed here: the clauses are laws.
//! Hosts in an order that waits less, each driven by itself over its links. Nothing is computed here: the clauses are laws.
//! Programs that run over links print what the source prints. Nothing is computed here: the clauses are laws.
//! Two hosts that run over links, as data: what is asked of programs that run over links is met. Nothing is computed here.
//! What hosts ask of their peers, and that these give it. Nothing is computed here: the clauses are laws.
//! All hosts of a source as children of one machine: the source's outputs are what is reported. Nothing is computed here.
#![tactic(auto)]

mod cmd_run_laws;
mod distributed_example;
mod distributed_hosts;
mod distributed_programs;
mod distributed_progress;
mod distributed_reordered;

pub use cmd_run_laws::children_tell_the_source;
pub use distributed_example::two_hosts_run;
pub use distributed_hosts::{
    driven_hosts_are_told, linked_hosts_tell_the_same, waiting_hosts_have_ended,
};
pub use distributed_programs::{running_hosts_end, running_hosts_tell_the_source};
pub use distributed_progress::{others_send_enough, stored_hosts_are_served};
pub use distributed_reordered::{early_hosts_have_ended, early_hosts_tell_the_same};
