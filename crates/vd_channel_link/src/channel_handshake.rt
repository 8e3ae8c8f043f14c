//! How both ends of a sealed link begin: each says a hello, and then proves that it has the key of the link.

mod honest;
mod laws;
mod meeting;

pub use honest::honest_ends_meet;
pub use laws::{ends_have_the_same_keys, hello_faults_tell};
pub(crate) use meeting::{
    HELLO_BYTES, HELLO_FRONT, PROOF_BYTES, ask, say_hello, say_proof, take_hello, take_proof,
};
