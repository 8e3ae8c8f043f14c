//! The bound by arcs along a path from the empty prefix down. A further choice costs about as much as there are arcs of its slot
//! and of the switches that it turns.
#![tactic(auto)]

mod deciding;
mod made;
mod path;
mod reach;
mod states;
mod sums;
mod units;

pub use made::{ArcTable, NetworkTables, PointTable, SwitchTable};
pub use path::NetworkPath;
pub use states::{decide, undecided};
pub use sums::number_of;
pub use units::whole_units;
