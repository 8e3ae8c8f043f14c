//! The dealer's command: it makes a deal and stores each host's part.
#![tactic(auto)]

mod cmd_deal_keyed;
mod deal_command;

pub use cmd_deal_keyed::{
    deal_by_source, drawn_deals_are_of_the_draw, key_deals_are_read, keys_are_whole,
};
pub use deal_command::deal;
