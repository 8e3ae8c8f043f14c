//! Which words come to a host in clear where each slot stands at a protocol, and on whose inputs they depend. Nothing is
//! computed here.

mod laws;

pub use laws::{
    inputs_that_agree_bring_the_same, new_words_tell_all, reached_hosts_are_enough_assigned,
    worked_words,
};
