//! What one host can learn of the secrets of the others. Nothing is computed here.

mod laws;

pub use laws::{
    inputs_that_agree_tell_the_same, reached_hosts_are_enough, reached_hosts_are_single,
    what_is_named_is_visible,
};
