//! Sentences on the choice of protocols for a program: the first slot that has no candidate, the first use, index or guard for which no
//! places are left, and how far a search came.

mod bare;
mod branches;
mod laws;
mod left;
mod remarks;
mod sites;
mod spaces;
mod spent;
mod stuck;
mod stuck_remarks;
mod texts;

pub use laws::valid_lists_stand_at_candidates;
pub use remarks::no_assignment_remark;
pub use spaces::space_for;
pub use spent::search_sentence;
pub(crate) use texts::{later, later_slot, slot_name, slot_offset};
