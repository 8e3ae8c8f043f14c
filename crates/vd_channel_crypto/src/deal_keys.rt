//! What one key of 32 bytes makes for a dealing besides its items: its public name, the key of the items, and a key for each link.

mod keys;
mod laws;
mod secrets;

pub use keys::{dealing_id, items_key, link_key};
pub use laws::{links_have_one_key, purposes_are_apart};
pub use secrets::{LinkKey, Secrets, secrets_of};
