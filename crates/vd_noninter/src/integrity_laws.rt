//! What hosts that are not trusted can change. Nothing is computed here.

mod laws;

pub use laws::{
    declassifications_are_robust, endorsements_are_transparent, influences_are_trusted,
    influences_tell, trusted_words_are_kept, who_trusts,
};
