//! The dealer's command for a key of 32 bytes: it makes a deal whose items and links have keys of their own, and stores each host's part.

mod key_command;
mod laws;
mod sources;

pub use laws::{drawn_deals_are_of_the_draw, key_deals_are_read, keys_are_whole};
pub use sources::deal_by_source;
