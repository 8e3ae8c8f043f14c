//! What seals the bytes of a link: HMAC-SHA256, HKDF and the stream of ChaCha20; records, whose bytes are covered and whose codes
//! only those can make who have the key; and the keys of the two directions of a link.
#![tactic(auto)]

mod codes;
mod deal_keys;
mod frames;
mod hellos;
mod laws;
mod records;
mod streams;

pub use codes::{derive, hmac};
pub use deal_keys::{
    LinkKey, Secrets, dealing_id, items_key, link_key, links_have_one_key, purposes_are_apart,
    secrets_of,
};
pub use frames::Frame;
pub use hellos::{Hello, nonce};
pub use laws::{
    codes_cover_all, codes_cover_their_keys, digests_cover_both_hellos, keys_have_one_purpose,
    nonces_are_apart, records_give_back_their_bytes, streams_are_apart,
};
pub use records::{Keys, RECORD_BYTES, open};
pub use streams::key_stream;
