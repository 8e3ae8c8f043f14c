//! The let-normal form of a source: its definition, and what is true of it.

mod here;
mod law;
mod spot;

pub use here::Here;
pub use law::outputs_are_kept;
pub use spot::Spot;
