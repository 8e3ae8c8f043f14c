//! What stays right at the hosts that keep to their programs where others send any words. Nothing is computed here.

mod laws;

pub use laws::{
    commitments_bind, copies_stay_right, digests_tell_their_words, keepers_run_together,
    one_word_to_all_is_right, shares_are_kept, two_words_for_one,
};
