//! All protocols, as the splitter asks for them: words in clear, at one host or a copy at each of several, words that two hosts
//! share, by parts of which the word is the sum, or the exclusive or, and words to which a host has committed. Words are made at
//! each protocol, and move between protocols, by the calls of the back ends, of conversions and of commitments.
#![tactic(auto)]

mod acting;
mod all_protocols;
mod arrays;
mod back_ends;
mod commitments;
mod laws;
mod loops;
mod moves;
mod operands;
mod placement;

pub use all_protocols::AllProtocols;
pub use laws::programs_can_be_split;
pub use placement::Placement;
