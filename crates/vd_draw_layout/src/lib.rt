//! Where everything stands in a drawing, by whole numbers: the columns, the lanes of hosts and of what they share, what rows cost,
//! and the words that are written.
#![tactic(auto)]

mod dearest;
mod draw_svg;
mod lanes;
mod layout;
mod numbers;
mod runs;
mod titles;
mod words;

pub use dearest::dear_place;
pub use draw_svg::{Area, Mark, Place, Shape, Stroke, Style, document, escaped_texts_have_no_tags};
pub use lanes::{Lane, lane_x, push_x, set_x};
pub use layout::{Layout, indent, label_texts, layout_of, name_length};
pub use numbers::cost_of;
pub use runs::{Drawn, arrows_of, drawn_text, goes_on};
pub use titles::{label_at, push_row_title};
pub use words::{cut, printable, protocol_kind, protocol_name, push_number};
