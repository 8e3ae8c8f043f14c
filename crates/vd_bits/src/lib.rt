//! Words that are the exclusive or of the parts of two hosts, and circuits on them, gate by gate.
#![tactic(auto)]

mod circuits;
mod gates;
mod laws;
mod steps;
mod xor_pair;

pub use circuits::{adding, bit_gates, carrying, subtracting};
pub use gates::Gate;
pub use laws::{shared_bits_are_a_back_end, worked_bits};
pub use xor_pair::XorPair;
