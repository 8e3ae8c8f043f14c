//! Which branches tell who is on the way which way they go: those in which hosts send.

ghost use Rattle.std.specs.Prelude.{◌≡◌};
ghost use Rattle.std.specs.List.{list_any};
ghost use Rattle.vd_draw_rows.specs.Wire as wire;

use crate::row::{Kind, Move, Row};
use vd_base::Proto;

/// Whether words are sent for a move: for each that costs something.
fn move_sends(one: &Move) -> bool
    ensures { result ≡ wire.move_sends one.now }
{
    0 < one.cost
}

/// Whether words are sent for one of some moves.
fn any_sends(moves: &[Move]) -> bool
    ensures { result ≡ list_any wire.move_sends moves.now }
{
    for one in moves {
        if move_sends(one) {
            return true;
        }
    }
    false
}

/// Whether hosts send for an operation: two that share words do, unless each does its part by itself, which costs 2.
fn operation_sends(at: Option<Proto>, cost: u32) -> bool
    ensures { result ≡ wire.operation_sends at cost }
{
    match at {
        Some(Proto::Add(_, _)) => 2 < cost,
        Some(Proto::Xor(_, _)) => 2 < cost,
        _ => false,
    }
}

/// Whether hosts send something for a row.
fn row_sends(row: &Row) -> bool
    ensures { result ≡ wire.row_sends row.now }
{
    any_sends(row.moves.as_slice()) || operation_sends(row.at, row.operation)
}

/// Whether hosts send in one of the rows, as long as they stand deeper.
fn sends_inside(depth: u32, rows: &[Row]) -> bool
    ensures { result ≡ wire.sends_inside depth rows.now }
{
    for place in 0..rows.len() {
        let row = &rows[place];
        if row.depth <= depth {
            return false;
        }
        if row_sends(row) {
            return true;
        }
    }
    false
}

/// Whether a row begins a branch.
fn is_branch(kind: Kind) -> bool
    ensures { result ≡ wire.is_branch kind }
{
    matches!(kind, Kind::Branch)
}

/// Whether a row begins a branch in which hosts send, where these rows follow: then who is on the way learns which way it goes.
pub fn is_seen_on_the_way(row: &Row, rest: &[Row]) -> bool
    ensures { result ≡ wire.is_seen_on_the_way row.now rest.now }
{
    is_branch(row.kind) && sends_inside(row.depth, rest)
}
