//! Why a call of the system failed: whether memory ran out or the outside failed, the count of its faults, and the reason
//! that a person is told.

mod faults;
mod reasons;

pub use faults::{count_fault, fault_of};
pub use reasons::reason_of;
