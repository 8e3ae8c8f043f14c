//! The usual shifts: from the last use to the first, what a slot must cost is handed on to the slots that its values come
//! from. Under these shifts a bound is nearly the cost.

mod laws;
mod ledger;
mod rows;
mod terms;

pub use laws::usual_shifts_are_few;
pub use ledger::usual;
pub use rows::{lesser_number, price};
pub use terms::weighed_cost;
