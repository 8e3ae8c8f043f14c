//! What a host knows once its comparisons have passed, whatever the other hosts sent it. Nothing is computed here.

mod laws;

pub use laws::{
    copies_are_compared, hosts_get_what_they_may, openings_bind, shown_copies_are_equal, steps_hear,
};
