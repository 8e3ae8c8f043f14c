//! The commands `draw` and `reveals`: the choice of protocols for a source as a drawing, and the words that come to each host in
//! clear at it as lines.
#![tactic(auto)]

mod draw_command;
mod draw_laws;
mod laws;
mod reveals_command;
mod reveals_lines;

pub use draw_command::draw;
pub use draw_laws::{
    arrows_are_told_apart, arrows_show_what_is_told, drawn_costs_add_up, heading_tells_the_cost,
    told_words_come,
};
pub use laws::{drawings_tell, reveals_tell};
pub use reveals_command::reveals;
