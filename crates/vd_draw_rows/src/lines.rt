//! Lines of the source.

ghost use Rattle.std.specs.Prelude.{◌≡◌, ◌++◌, replicate, IfOk, OnOk};
ghost use Rattle.vd_draw_rows.specs.Lines as lines;

use crate::row::Line;
use std::alloc::{AllocError, Global};
use vd_base::{Bytes, SlotId};
use vd_core::Slot;
use vd_diag::{line_behind, line_number};

/// Whether a byte is a printable letter of ASCII.
pub fn is_printable(byte: u8) -> bool
    ensures { result ≡ lines.is_printable byte }
{
    32 < byte && byte < 127
}

/// Whether a byte and those behind it begin a comment.
fn begins_comment(byte: u8, behind: &[u8]) -> bool
    ensures { result ≡ lines.begins_comment byte behind.now }
{
    match behind.first() {
        Some(next) => byte == b'/' && *next == b'/',
        None => false,
    }
}

/// Puts so many blanks at the end, and a letter.
fn push_letter(text: &mut Bytes, blanks: usize, letter: u8) -> Result<(), AllocError>
    ensures { OnOk result (text.new ≡ text.old ++ lines.letter_behind blanks letter) }
{
    for _blank in 0..blanks {
        text.push(b' ')?;
    }
    text.push(letter)
}

/// A line without its comment, and without the blanks that no letter follows.
fn shown(alloc: Global, line: &[u8]) -> Result<Bytes, AllocError>
    ensures { IfOk result (λ text. text ≡ lines.shown 0 line.now) }
{
    let mut text = Bytes::new(alloc);
    let mut blanks = 0;
    for place in 0..line.len() {
        let letter = line[place];
        if begins_comment(letter, &line[place + 1..]) {
            return Ok(text);
        }
        if is_printable(letter) {
            push_letter(&mut text, blanks, letter)?;
            blanks = 0;
        } else {
            blanks += 1;
        }
    }
    Ok(text)
}

/// The line of the source from an offset on, as it is shown.
pub fn shown_line(alloc: Global, source: &[u8], offset: usize) -> Result<Bytes, AllocError>
    ensures { IfOk result (λ text. text ≡ lines.shown_line source.now offset) }
{
    shown(alloc, line_behind(source, offset))
}

/// Whether a line says no more than a row that says this.
fn is_said(alloc: Global, line: &[u8], said: &[u8]) -> Result<bool, AllocError>
    ensures { IfOk result (λ is. is ≡ lines.is_said line.now said.now) }
{
    let mut own = Bytes::from_slice(alloc, said)?;
    own.push(b';')?;
    let mut binding = Bytes::from_slice(alloc, b"let ")?;
    binding.extend_from_slice(own.as_slice())?;
    Ok(line == own.as_slice() || line == binding.as_slice())
}

/// The line of an offset, unless the row says it.
pub(crate) fn line_at(
    alloc: Global,
    source: &[u8],
    offset: u32,
    said: &[u8],
) -> Result<Option<Line>, AllocError>
    ensures { IfOk result (λ line. line ≡ lines.line_at source.now offset said.now) }
{
    let text = shown_line(alloc, source, offset as usize)?;
    if is_said(alloc, text.as_slice(), said)? {
        return Ok(None);
    }
    let number = line_number(source, offset as usize);
    Ok(Some(Line { number, text }))
}

/// The line at which a slot is made, unless the row says it.
pub(crate) fn slot_line(
    alloc: Global,
    source: &[u8],
    slots: &[Slot],
    slot: SlotId,
    said: &[u8],
) -> Result<Option<Line>, AllocError>
    ensures { IfOk result (λ line. line ≡ lines.slot_line source.now slots.now slot said.now) }
{
    match slots.get(usize::from(slot.0)) {
        Some(found) => line_at(alloc, source, found.offset, said),
        None => Ok(None),
    }
}
