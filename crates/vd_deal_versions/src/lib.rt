//! Deal files of both versions: those of version 2 name their dealing, have a key for each link, and end with the digest of all before it.
#![tactic(auto)]

mod dealt;
mod files;
mod laws;
mod plain;
mod reading;
mod sums;
mod writing;

pub use dealt::{Dealt, SecretDeal};
pub use files::read_dealt;
pub use laws::{
    changed_deals_are_refused, dealt_files_follow_the_grammar, dealt_texts_begin,
    written_secrets_are_read,
};
pub use plain::read_plain_deal;
pub use writing::write_secret;
