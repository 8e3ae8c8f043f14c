//! What a walk finds.

use vd_base::Items;
use vd_search_tree::Shift;

/// A prefix, and shifts of arcs under which each list that it begins seems to cost more than the walk's aim. Nothing of that is
/// promised: the bound of the prefix under these shifts says what is so.
#[derive(Drop)]
pub struct Refutation {
    pub prefix: Items<u32>,
    pub shifts: Items<Shift>,
}
