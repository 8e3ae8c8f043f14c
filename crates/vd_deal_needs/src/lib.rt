//! What hosts' codes take from their lists: how many inputs and dealt items each code takes at most, and how much to deal for all.
#![tactic(auto)]

mod amounts;
mod blocks;
mod counting;
mod deal_needs_laws;
mod deal_needs_limits;
mod deal_needs_programs;
mod lists;
mod taking;

pub use amounts::{greater, sizes};
pub use counting::count;
pub use deal_needs_laws::{
    needs_are_enough, needs_are_enough_alone, needs_are_least, needs_are_read_off,
};
pub use deal_needs_limits::items_are_few;
pub use deal_needs_programs::{
    deals_have_their_sizes, needs_of_program, sizes_are_enough, sizes_are_least,
};
pub use lists::ItemList;
pub use taking::{HostNeeds, Shared, host_needs, needs};
