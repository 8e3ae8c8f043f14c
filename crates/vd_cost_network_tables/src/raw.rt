//! Arcs without shifts.

ghost use Rattle.vd_cost_network_tables.specs.Sums.{side_of};

use vd_base::Items;
use vd_space_tables::HasEnds;

/// What an arc costs without shifts, by the settings of its two points, where these join. In parts of a unit.
#[derive(Drop)]
pub struct RawArc {
    pub first: u32,
    pub second: u32,
    pub cells: Items<Items<Option<i64>>>,
}

impl HasEnds for RawArc {
    ghost ends = { side_of };

    fn end_on(&self, side: u8) -> usize {
        if side == 0 {
            self.first as usize
        } else {
            self.second as usize
        }
    }
}
