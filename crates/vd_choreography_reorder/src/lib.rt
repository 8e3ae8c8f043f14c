//! Joint code in an order that waits less: what hosts do together is exchanged with its neighbours before it is split, so that what does
//! not depend on each other goes side by side. It is sorted by depth, the longest chain of rounds that a line waits for. What a host
//! compares, prints and opens keeps its order.
#![tactic(auto)]

mod choreography_coalescing;
mod choreography_following;
mod choreography_laid_out;
mod choreography_packets;
mod laws;
mod passing;
mod ranks;

pub use choreography_coalescing::{join_packets, joined_code_tells_the_same};
pub use choreography_following::{followed_code_tells_the_same, words_are_followed};
pub use choreography_laid_out::laid_out_code_does_the_same;
pub use choreography_packets::{nothing_is_told_earlier, packets_are_kept};
pub use laws::{
    answers_come_first, order_is_kept, order_is_sorted, passes_bring_forward, ranks_are_apart,
    rounds_are_apart, test_is_sound, worked_lines,
};
pub use passing::{bring_forward, early_code};
