//! Sentences on branches that no host may read and that cannot be hidden: what stands in the way, and how else to write it.

mod barriers;
mod hidden;
mod law;
mod phrases;
mod remarks;

pub use law::barriers_are_what_is_not_pure;
pub use remarks::branch_remark;
