//! What arrows mean, at the foot: the kinds that occur.

ghost use Rattle.std.specs.Prelude.{◌≡◌, ◌++◌, IfOk, OnOk};
ghost use Rattle.vd_draw_picture.specs.Legend as legends;

use crate::arrows::{Marks, push_line};
use std::alloc::{AllocError, Global};
use vd_base::{Bytes, Items};
use vd_draw_layout::{Mark, Place, Style};
use vd_draw_rows::{Arrow, Move, Row, arrow_of, is_seen};

/// The place of a kind of arrows in the legend.
fn order(arrow: Arrow) -> u8
    ensures { result ≡ legends.order arrow }
{
    match arrow {
        Arrow::Clear => 0,
        Arrow::Checked => 1,
        Arrow::Opened => 2,
        Arrow::Revealed => 3,
        Arrow::Shared => 4,
        Arrow::Committed => 5,
        Arrow::Converted => 6,
        Arrow::Stays => 7,
    }
}

/// What a kind of arrows means.
fn meaning(arrow: Arrow) -> &'static [u8]
    ensures { result.now ≡ legends.meaning arrow }
{
    match arrow {
        Arrow::Clear => b"in clear: the other host reads the word",
        Arrow::Checked => b"in clear from each copy, and compared",
        Arrow::Opened => b"opened: the parts are put together, and the word is read",
        Arrow::Revealed => b"revealed: a committed word, checked by its digest",
        Arrow::Shared => b"shared: a random word goes out",
        Arrow::Committed => b"committed: a digest goes out",
        Arrow::Converted => b"converted between sums and bits",
        Arrow::Stays => b"there already: nothing goes out",
    }
}

/// Whether a move is drawn as an arrow of this kind.
fn is_of_kind(kind: Arrow, one: &Move) -> bool
    ensures { result ≡ legends.is_of_kind kind one.now }
{
    is_seen(one.from, one.to) && order(arrow_of(one.from, one.to)) == order(kind)
}

/// Whether a row has an arrow of this kind.
fn has_kind(kind: Arrow, row: &Row) -> bool
    ensures { result ≡ legends.has_kind kind row.now }
{
    for one in row.moves.as_slice() {
        if is_of_kind(kind, one) {
            return true;
        }
    }
    false
}

/// Whether one of some rows has an arrow of this kind.
fn occurs(kind: Arrow, rows: &[Row]) -> bool
    ensures { result ≡ legends.occurs kind rows.now }
{
    for row in rows {
        if has_kind(kind, row) {
            return true;
        }
    }
    false
}

/// Adds a kind of arrows, if it occurs.
fn push_kind(kinds: &mut Items<Arrow>, rows: &[Row], kind: Arrow) -> Result<(), AllocError>
    ensures { OnOk result (kinds.new ≡ kinds.old ++ legends.kind_if rows.now kind) }
{
    if occurs(kind, rows) {
        kinds.push(kind)?;
    }
    Ok(())
}

/// Adds the kinds of arrows by which a host reads a word, of those that occur.
fn push_told_kinds(kinds: &mut Items<Arrow>, rows: &[Row]) -> Result<(), AllocError>
    ensures { OnOk result (kinds.new ≡ kinds.old ++ legends.told_kinds rows.now) }
{
    push_kind(kinds, rows, Arrow::Clear)?;
    push_kind(kinds, rows, Arrow::Checked)?;
    push_kind(kinds, rows, Arrow::Opened)?;
    push_kind(kinds, rows, Arrow::Revealed)
}

/// Adds the kinds of arrows by which no host reads a word, of those that occur.
fn push_hidden_kinds(kinds: &mut Items<Arrow>, rows: &[Row]) -> Result<(), AllocError>
    ensures { OnOk result (kinds.new ≡ kinds.old ++ legends.hidden_kinds rows.now) }
{
    push_kind(kinds, rows, Arrow::Shared)?;
    push_kind(kinds, rows, Arrow::Committed)?;
    push_kind(kinds, rows, Arrow::Converted)?;
    push_kind(kinds, rows, Arrow::Stays)
}

/// The kinds of arrows that occur in some rows.
pub(crate) fn kinds_of(alloc: Global, rows: &[Row]) -> Result<Items<Arrow>, AllocError>
    ensures { IfOk result (λ kinds. kinds ≡ legends.kinds_of rows.now) }
{
    let mut kinds = Items::new(alloc);
    push_told_kinds(&mut kinds, rows)?;
    push_hidden_kinds(&mut kinds, rows)?;
    Ok(kinds)
}

/// Adds an arrow of a kind, and what it means.
fn push_meaning(alloc: Global, marks: &mut Marks, y: u64, kind: Arrow) -> Result<(), AllocError>
    ensures { OnOk result (marks.new ≡ marks.old ++ legends.meaning_marks y kind) }
{
    push_line(marks, kind, y, 24, 104)?;
    let said = Bytes::from_slice(alloc, meaning(kind))?;
    let place = Place {
        x: 112,
        y: y.saturating_add(4),
    };
    marks.push(Mark::Text(Style::Plain, place, said))
}

/// Adds arrows of some kinds, and what they mean, one below the other.
pub(crate) fn push_meanings(
    alloc: Global,
    marks: &mut Marks,
    kinds: &[Arrow],
) -> Result<(), AllocError>
    ensures { OnOk result (marks.new ≡ marks.old ++ legends.meanings 16 kinds.now) }
{
    let mut y: u64 = 16;
    for kind in kinds {
        push_meaning(alloc, marks, y, *kind)?;
        y = y.saturating_add(20);
    }
    Ok(())
}
