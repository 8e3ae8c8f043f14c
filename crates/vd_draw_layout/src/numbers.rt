//! What rows cost. Points and costs are numbers of 64 bits: a greater one is the greatest of these.

ghost use Rattle.std.specs.Prelude.{◌≡◌};
ghost use Rattle.vd_draw_layout.specs.Numbers as numbers;

use vd_draw_rows::{Move, Row};

/// What some moves cost, once.
fn moves_cost(moves: &[Move]) -> u64
    ensures { result ≡ numbers.moves_cost moves.now }
{
    let mut cost: u64 = 0;
    for one in moves {
        cost = cost.saturating_add(u64::from(one.cost));
    }
    cost
}

/// What a row costs, as often as it is done.
pub fn cost_of(row: &Row) -> u64
    ensures { result ≡ numbers.cost_of row.now }
{
    let once = u64::from(row.operation).saturating_add(moves_cost(row.moves.as_slice()));
    u64::from(row.weight).saturating_mul(once)
}
