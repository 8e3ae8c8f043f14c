//! What passes between the server and an editor, as bytes: the places of a text as the editor counts them, and messages in their frames.
#![tactic(auto)]

mod framing;
mod mark;
mod place;

pub use framing::{Framed, MOST_BODY, frame, next_frame};
pub use mark::mark_end;
pub use place::{Place, place_of};
