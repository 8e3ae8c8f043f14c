//! The dearest rows of the drawing: the first three by their cost, of those that cost at least a twentieth of all.

ghost use Rattle.std.specs.Prelude.{◌≡◌};
ghost use Rattle.vd_draw_layout.specs.Dearest as dearest;

use crate::layout::Layout;
use crate::runs::Drawn;

/// Whether a cost is at least a twentieth of all.
fn is_dear(total: u64, cost: u64) -> bool
    ensures { result ≡ dearest.is_dear total cost }
{
    0 < cost && total <= cost.saturating_mul(20)
}

/// Whether a row of the drawing is dearer than one of this number and cost, or as dear and above it.
fn comes_first(number: u64, cost: u64, other: &Drawn) -> bool
    ensures { result ≡ dearest.comes_first number cost other.now }
{
    cost < other.cost || (cost == other.cost && other.number < number)
}

/// How many rows of the drawing are dearer than one of this number and cost, or as dear and above it.
fn rank(drawn: &[Drawn], number: u64, cost: u64) -> u64
    ensures { result ≡ dearest.rank drawn.now number cost }
{
    let mut count: u64 = 0;
    for other in drawn {
        if comes_first(number, cost, other) {
            count += 1;
        }
    }
    count
}

/// The place of a row among the dearest, from 1 to 3; 0 where it is none of them.
pub fn dear_place(layout: &Layout, number: u64, cost: u64) -> u64
    ensures { result ≡ dearest.dear_place layout.now number cost }
{
    if !is_dear(layout.total, cost) {
        return 0;
    }
    let before = rank(layout.drawn.as_slice(), number, cost);
    if before < 3 { before + 1 } else { 0 }
}
