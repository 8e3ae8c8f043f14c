//! The rows of the drawing: bindings without arrows that follow each other on one lane are drawn as one row, but for inputs and turns.

ghost use Rattle.std.specs.Prelude.{◌≡◌, IfOk};
ghost use Rattle.vd_draw_layout.specs.Runs as runs;

use crate::numbers::cost_of;
use crate::words::push_number;
use std::alloc::{AllocError, Global};
use vd_base::{Bytes, Items, Proto, is_same};
use vd_draw_rows::{Kind, Row, is_seen};

/// A row of the drawing: the last of the rows that are drawn as one.
#[derive(Drop)]
pub struct Drawn {
    /// How many rows of the drawing stand above it.
    pub number: u64,
    /// What it costs, with those that are drawn with it.
    pub cost: u64,
    /// What the heading says of it.
    pub said: Bytes,
}

/// How many moves are drawn.
pub fn arrows_of(row: &Row) -> u64
    ensures { result ≡ runs.arrows_of row.now }
{
    let mut count: u64 = 0;
    for one in row.moves.as_slice() {
        if is_seen(one.from, one.to) {
            count += 1;
        }
    }
    count
}

/// Whether a row is a binding.
fn is_binding(kind: Kind) -> bool
    ensures { result ≡ runs.is_binding kind }
{
    matches!(kind, Kind::Binding)
}

/// Whether a row is a binding without arrows that need not be drawn alone.
fn is_quiet(row: &Row) -> bool
    ensures { result ≡ runs.is_quiet row.now }
{
    is_binding(row.kind) && arrows_of(row) == 0 && !row.alone
}

/// Whether two rows are at the same protocol.
fn is_same_at(first: Option<Proto>, second: Option<Proto>) -> bool
    ensures { result ≡ runs.same_at first second }
{
    match (first, second) {
        (Some(first), Some(second)) => is_same(first, second),
        _ => false,
    }
}

/// Whether two rows are bindings without arrows at one place.
fn are_like(row: &Row, next: &Row) -> bool
    ensures { result ≡ runs.are_like row.now next.now }
{
    is_quiet(row) && is_quiet(next) && is_same_at(row.at, next.at) && row.depth == next.depth
}

/// Whether a row is drawn with the one behind it.
pub fn goes_on(row: &Row, rest: &[Row]) -> bool
    ensures { result ≡ runs.goes_on row.now rest.now }
{
    match rest.first() {
        Some(next) => are_like(row, next),
        None => false,
    }
}

/// The text of a row, where so many rows before it are drawn with it: `+11: TEXT`.
pub fn drawn_text(alloc: Global, before: u64, row: &Row) -> Result<Bytes, AllocError>
    ensures { IfOk result (λ text. text ≡ runs.drawn_text before row.now) }
{
    let mut text = said_before(alloc, before)?;
    text.extend_from_slice(row.text.as_slice())?;
    Ok(text)
}

/// What stands for so many rows before a row.
fn said_before(alloc: Global, before: u64) -> Result<Bytes, AllocError>
    ensures { IfOk result (λ text. text ≡ runs.said_before before) }
{
    let mut text = Bytes::new(alloc);
    if before == 0 {
        return Ok(text);
    }
    text.extend_from_slice(b"+")?;
    push_number(&mut text, before)?;
    text.extend_from_slice(b": ")?;
    Ok(text)
}

/// What the heading says of a row: the line of the source that says it, with its number, or else its text.
fn heading_text(alloc: Global, before: u64, row: &Row) -> Result<Bytes, AllocError>
    ensures { IfOk result (λ text. text ≡ runs.heading_text before row.now row.now.line) }
{
    let Some(line) = &row.line else {
        return drawn_text(alloc, before, row);
    };
    let mut text = Bytes::new(alloc);
    push_number(&mut text, line.number as u64)?;
    text.extend_from_slice(b": ")?;
    text.extend_from_slice(line.text.as_slice())?;
    Ok(text)
}

/// The rows of the drawing, from above.
pub(crate) fn drawn_rows(alloc: Global, rows: &[Row]) -> Result<Items<Drawn>, AllocError>
    ensures { IfOk result (λ drawn. drawn ≡ runs.drawn_rows rows.now) }
{
    let mut drawn = Items::new(alloc);
    let mut number: u64 = 0;
    let mut before: u64 = 0;
    let mut cost: u64 = 0;
    for place in 0..rows.len() {
        let row = &rows[place];
        cost = cost.saturating_add(cost_of(row));
        if goes_on(row, &rows[place + 1..]) {
            before = before.saturating_add(1);
        } else {
            let said = heading_text(alloc, before, row)?;
            drawn.push(Drawn { number, cost, said })?;
            number = number.saturating_add(1);
            before = 0;
            cost = 0;
        }
    }
    Ok(drawn)
}
