//! A list and a box that contracts see as what they hold: a tree made of them is plain data, and a clause can say
//! that it equals what a definition computes.

mod boxed;
mod exact;
mod items;

pub use boxed::Boxed;
pub use items::Items;
