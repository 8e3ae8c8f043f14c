//! The deal that explains other inputs to hosts that look together, along the steps of both runs.

ghost use Rattle.vd_excuse_walk.specs.EquivocationLawsClaims.{WalksExcuse};

mod step;

pub use step::{Hidden, Operands, Part, Step};

/// Who goes along the steps of a plan in both runs at once, and before each item that a host that looks shares with one that does not
/// changes that of the other, as what it hides asks, has at the end the deal that explains the second run, and both runs at their ends.
pub fn walks_excuse()
    ensures { WalksExcuse }
{}
