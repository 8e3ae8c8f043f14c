//! A host's code, changed so that packets that tell nothing go out as soon as they can (fewer rounds), and all else but draws of own words
//! keeps its order.
#![tactic(auto)]

mod acts;
mod choreography_commuting;
mod packets;
mod passing;
mod registers;
mod reorder_buffers;
mod reorder_histories;
mod reorder_laws;
mod reorder_secrecy;
mod testing;

pub use acts::{both_may, is_simple};
pub use choreography_commuting::{neighbours_may_turn, turned_code_tells_the_same};
pub use packets::opened_in;
pub use passing::{hasten_code, packets_go_ahead, texts_are_passed};
pub use registers::{Row, Rows, any_among, have_common, read_by, written_by};
pub use reorder_buffers::room_for_the_window_is_enough;
pub use reorder_histories::{hastened_histories_are_schedules, hastened_hosts_are_never_later};
pub use reorder_laws::{
    careful_passes_keep_the_order, each_code_is_hastened, hastened_hosts_are_on_the_way,
    hastened_starts_come_to_their_end, neighbours_may_be_exchanged, passes_exchange,
};
pub use reorder_secrecy::{blind_words_hide, only_blind_packets_go_ahead};
