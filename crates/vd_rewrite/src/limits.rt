//! Whether statements keep to the limits on a program.

ghost use Rattle.std.specs.Prelude.{◌≡◌, ◌*◌, ◌≤◌};
ghost use Rattle.vd_base.specs.Limits.{most_weights};
ghost use Rattle.vd_core.specs.Facts.{count_of, statement_count, weighing};
ghost use Rattle.vd_rewrite.specs.Limits.{Leaves, weight_at, bodies_fit};

use vd_base::limits::{STATEMENTS, WEIGHTS};
use vd_core::Stmt;

/// What is left of a number of statements once a statement is taken from it, with those in its blocks.
#[cycle(count)]
fn after_statement(stmt: &Stmt, room: u32) -> Option<u32>
    ensures { Leaves result (count_of stmt.now) room }
{
    if room == 0 {
        return None;
    }
    let room = room - 1;
    match stmt {
        Stmt::If(_, then_block, else_block, _) => {
            let left = after_statements(then_block.as_slice(), room)?;
            after_statements(else_block.as_slice(), left)
        }
        Stmt::For(_, body) => after_statements(body.as_slice(), room),
        _ => Some(room),
    }
}

#[cycle(count)]
fn after_statements(body: &[Stmt], room: u32) -> Option<u32>
    ensures { Leaves result (statement_count body.now) room }
{
    let mut left = room;
    for stmt in body {
        left = after_statement(stmt, left)?;
    }
    Some(left)
}

/// What is left of a sum of weights once that of a statement is taken from it, which is executed so many times.
#[cycle(weight)]
fn after_weight(stmt: &Stmt, around: u32, room: u32) -> Option<u32>
    requires { room ≤ most_weights }
    ensures { Leaves result (weighing stmt.now around) room }
{
    if room < around {
        return None;
    }
    let left = room - around;
    match stmt {
        Stmt::If(_, then_block, else_block, _) => {
            let left = after_weights(then_block.as_slice(), around, left)?;
            after_weights(else_block.as_slice(), around, left)
        }
        Stmt::For(count, body) => after_turns(*count, body.as_slice(), around, left),
        _ => Some(left),
    }
}

/// The same of a loop's body, around which there are so many executions of the loop.
#[cycle(weight)]
fn after_turns(count: u32, body: &[Stmt], around: u32, room: u32) -> Option<u32>
    requires { room ≤ most_weights }
    ensures { Leaves result (weight_at body.now (around * count)) room }
{
    if body.is_empty() {
        return Some(room);
    }
    match around.checked_mul(count) {
        Some(inner) => after_weights(body, inner, room),
        None => None,
    }
}

#[cycle(weight)]
fn after_weights(body: &[Stmt], around: u32, room: u32) -> Option<u32>
    requires { room ≤ most_weights }
    ensures { Leaves result (weight_at body.now around) room }
{
    let mut left = room;
    for stmt in body {
        left = after_weight(stmt, around, left)?;
    }
    Some(left)
}

/// Whether there are no more statements than a program may have, and no greater sum of weights.
pub fn fit(body: &[Stmt]) -> bool
    ensures { result ≡ bodies_fit body.now }
{
    after_statements(body, STATEMENTS).is_some() && after_weights(body, 1, WEIGHTS).is_some()
}
