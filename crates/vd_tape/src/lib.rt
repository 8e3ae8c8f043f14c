//! Deals: the dealer's files, their validity, and the deals that a key makes.
#![tactic(auto)]

mod consistency;
mod deal_items;
mod deal_keystream;
mod files;
mod item;
mod laws;
mod making;
mod reading;
mod writing;

pub use consistency::consistent;
pub use deal_items::{
    BadItem, Counts, Deal, DealKind, Deals, PairItem, Triple, and_sides, mul_sides, pair_sides,
    zero_items_meet,
};
pub use deal_keystream::what_is_dealt_is_drawn_once;
pub use files::read_deal;
pub use item::Item;
pub use laws::{
    deals_follow_the_grammar, deals_of_each_host_are_deals, streams_are_apart,
    written_deals_are_read,
};
pub use making::{make, make_by_key};
pub use reading::{Share, Shares, peer, read_heading, read_list, read_plain, read_share};
pub use writing::{push_heading, push_list, push_share, write_deal};
