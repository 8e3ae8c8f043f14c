//! Packets that share: of neighbours in joint code that go from one host to another one packet is made, of up to 16 words.

mod joining;
mod laws;

pub use joining::join_packets;
pub use laws::joined_code_tells_the_same;
