//! What hosts execute: instructions, what they do, one step of one host, the world of all hosts, and their joint run.
#![tactic(auto)]

mod execution_buffers;
mod execution_confluence;
mod execution_histories;
mod instructions;

pub use execution_buffers::{narrow_links_commute, room_for_one_is_enough};
pub use execution_confluence::{
    acts_come_first, code_is_text, every_schedule, first_in_first_out, order_is_free,
    parts_are_those_that_act, program_order, ready_hosts_step, rounds_end, small_example,
    tidy_gadgets_keep_states_sound, tidy_plans_are_tidy,
};
pub use execution_histories::histories_are_schedules;
pub use instructions::{Act, Action, Binary, Instr, Line, Reg};
