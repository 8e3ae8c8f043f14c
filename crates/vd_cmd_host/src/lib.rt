//! The commands `host` and `check`: one host of a program runs over a net, from its files, which can be checked before.
#![tactic(auto)]

mod amounts;
mod check_command;
mod check_laws;
mod check_lines;
mod cmd_host_laws;
mod host_command;
mod laws;
mod loading;
mod marking;
mod playing;
mod statuses;

pub use check_command::check;
pub use check_laws::{checked_hosts_are_not_short, checks_take_no_mark};
pub use cmd_host_laws::{equal_words_are_enough, served_hosts_end_well};
pub use host_command::host;
pub use laws::{
    deals_are_used_once, hosts_ask_in_order, links_are_sealed, links_come_back, marks_are_apart,
    no_deal_serves_twice, statuses_have_causes, waits_are_limited,
};
