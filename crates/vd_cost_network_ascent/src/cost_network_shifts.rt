//! The shifts that come to given amounts, as far as a certificate can have them. Nothing is promised of the amounts.

mod fewer;
mod laws;
mod made;

pub(crate) use fewer::put_back;
pub use laws::shifts_take_the_amounts;
pub use made::shifts_of;
