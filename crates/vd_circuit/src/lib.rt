//! Every operation that can stand at words which two hosts share by exclusive or, as a circuit.
#![tactic(auto)]

mod circuit_pair;
mod circuits;
mod laws;

pub use circuit_pair::CircuitPair;
pub use laws::{circuits_are_a_back_end, worked_circuits};
