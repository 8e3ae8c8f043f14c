//! How an output is named: as the source writes what is told.

ghost use Rattle.std.specs.Prelude.{◌≡◌, IfOk, length, ◌≤◌};
ghost use Rattle.vd_cmd_data.specs.Names as names;

use std::alloc::{AllocError, Global};
use vd_base::{Bytes, SlotId};
use vd_core::Slot;
use vd_draw_rows::{shown_line, slot_name};

/// Whether a text goes on to whom something is told.
fn is_goal(text: &[u8]) -> bool
    ensures { result ≡ names.is_goal text.now }
{
    text.starts_with(b" to ")
}

/// How many bytes stand before that.
fn value_len(text: &[u8]) -> usize
    ensures is { result ≡ names.value_len text.now }
    ensures fits { result ≤ length text.now }
{
    let mut len = 0;
    let mut rest = text;
    'bytes: while let Some((_byte, behind)) = rest.split_first() {
        if is_goal(rest) {
            return len;
        }
        len += 1;
        rest = behind;
    }
    len
}

/// What the line of an output tells.
#[tactic(auto, using(crate::proofs::Written::nothing_told, crate::proofs::Written::behind_word))]
fn written_value(line: &[u8]) -> &[u8]
    ensures { result.now ≡ names.written_value line.now }
{
    if line.len() < 7 {
        return &[];
    }
    let value = &line[7..];
    &value[..value_len(value)]
}

/// What is told, as the source writes it, or the name of its slot where that is empty.
fn value_name(
    alloc: Global,
    written: &[u8],
    slots: &[Slot],
    slot: SlotId,
) -> Result<Bytes, AllocError>
    ensures { IfOk result (λ name. name ≡ names.value_name written.now slots.now slot) }
{
    if written.is_empty() {
        slot_name(alloc, slots, slot)
    } else {
        Bytes::from_slice(alloc, written)
    }
}

/// The name of the output that is written at an offset.
pub(crate) fn output_name(
    alloc: Global,
    source: &[u8],
    slots: &[Slot],
    slot: SlotId,
    offset: u32,
) -> Result<Bytes, AllocError>
    ensures { IfOk result (λ name. name ≡ names.output_name source.now slots.now slot offset) }
{
    let line = shown_line(alloc, source, offset as usize)?;
    value_name(alloc, written_value(line.as_slice()), slots, slot)
}
