//! The commands `column` and `report`: the section of an inputs file, from the rows of a table; and the words that a host printed,
//! with the names of its outputs.
#![tactic(auto)]

mod asked;
mod cell;
mod column_command;
mod lines;
mod names;
mod outputs;
mod printed;
mod readings;
mod report_command;
mod report_text;
mod section;
mod spans;
mod table;

pub use column_command::{column, columns_tell};
pub use report_command::{report, reports_tell, runs_are_read, ways_are_named};
