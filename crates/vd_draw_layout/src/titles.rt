//! The title of a row, which viewers show as a tooltip: all that is known of it.

ghost use Rattle.std.specs.Prelude.{◌≡◌, ◌++◌, [], slice_index_or, OnOk};
ghost use Rattle.std.specs.List.{flat_map};
ghost use Rattle.vd_draw_layout.specs.Titles as titles;

use crate::numbers::cost_of;
use crate::words::{arrow_text, protocol_name, push_number};
use std::alloc::{AllocError, Global};
use vd_base::{Bytes, Items, Names, Proto, SlotId};
use vd_core::Slot;
use vd_draw_rows::{Move, Row, arrow_of, slot_name};

/// Puts the name of a protocol at the end, behind a word.
fn push_protocol(
    alloc: Global,
    text: &mut Bytes,
    hosts: &Names,
    word: &[u8],
    protocol: Proto,
) -> Result<(), AllocError>
    ensures { OnOk result (text.new ≡ text.old ++ titles.protocol_behind hosts.now word.now protocol) }
{
    let name = protocol_name(alloc, hosts, protocol)?;
    text.extend_from_slice(word)?;
    text.extend_from_slice(name.as_slice())
}

/// Puts the line of a move at the end: `NAME from P to Q: what leaves a host, cost`.
fn push_move(
    alloc: Global,
    text: &mut Bytes,
    hosts: &Names,
    slots: &[Slot],
    one: &Move,
) -> Result<(), AllocError>
    ensures { OnOk result (text.new ≡ text.old ++ titles.move_title hosts.now slots.now one.now) }
{
    let name = slot_name(alloc, slots, one.slot)?;
    text.extend_from_slice(name.as_slice())?;
    push_protocol(alloc, text, hosts, b" from ", one.from)?;
    push_protocol(alloc, text, hosts, b" to ", one.to)?;
    push_arrow(text, one)
}

/// Puts what leaves a host at the end, and what it costs.
fn push_arrow(text: &mut Bytes, one: &Move) -> Result<(), AllocError>
    ensures { OnOk result (text.new ≡ text.old ++ titles.arrow_title one.now) }
{
    text.extend_from_slice(b": ")?;
    text.extend_from_slice(arrow_text(arrow_of(one.from, one.to)))?;
    text.extend_from_slice(b", ")?;
    push_number(text, u64::from(one.cost))?;
    text.extend_from_slice(b"\n")
}

/// Puts the lines of moves at the end.
fn push_moves(
    alloc: Global,
    text: &mut Bytes,
    hosts: &Names,
    slots: &[Slot],
    moves: &[Move],
) -> Result<(), AllocError>
    ensures { OnOk result (text.new ≡ text.old ++ flat_map (titles.move_title hosts.now slots.now) moves.now) }
{
    for one in moves {
        push_move(alloc, text, hosts, slots, one)?;
    }
    Ok(())
}

/// The label of a slot; empty where there is none.
pub fn label_at(labels: &Items<Bytes>, slot: SlotId) -> &[u8]
    ensures { result.now ≡ slice_index_or labels.now slot.0 [] }
{
    match labels.as_slice().get(usize::from(slot.0)) {
        Some(label) => label.as_slice(),
        None => &[],
    }
}

/// Puts the line of a slot at the end, if there is one: its number and its label.
fn push_slot(
    text: &mut Bytes,
    labels: &Items<Bytes>,
    slot: Option<SlotId>,
) -> Result<(), AllocError>
    ensures { OnOk result (text.new ≡ text.old ++ titles.slot_title labels.now slot) }
{
    let Some(slot) = slot else {
        return Ok(());
    };
    text.extend_from_slice(b"slot ")?;
    push_number(text, u64::from(slot.0))?;
    text.extend_from_slice(b" ")?;
    text.extend_from_slice(label_at(labels, slot))?;
    text.extend_from_slice(b"\n")
}

/// Puts the line of a protocol at the end, if there is one.
fn push_at(
    alloc: Global,
    text: &mut Bytes,
    hosts: &Names,
    at: Option<Proto>,
) -> Result<(), AllocError>
    ensures { OnOk result (text.new ≡ text.old ++ titles.at_title hosts.now at) }
{
    let Some(at) = at else {
        return Ok(());
    };
    push_protocol(alloc, text, hosts, b"at ", at)?;
    text.extend_from_slice(b"\n")
}

/// Puts the line of a cost at the end.
fn push_cost(text: &mut Bytes, row: &Row) -> Result<(), AllocError>
    ensures { OnOk result (text.new ≡ text.old ++ titles.cost_title row.now) }
{
    text.extend_from_slice(b"cost ")?;
    push_number(text, cost_of(row))?;
    text.extend_from_slice(b", done ")?;
    push_number(text, u64::from(row.weight))?;
    text.extend_from_slice(b" times\n")
}

/// Puts the title of a row at the end.
pub fn push_row_title(
    alloc: Global,
    text: &mut Bytes,
    hosts: &Names,
    slots: &[Slot],
    labels: &Items<Bytes>,
    row: &Row,
) -> Result<(), AllocError>
    ensures { OnOk result (text.new ≡ text.old ++ titles.row_title hosts.now slots.now labels.now row.now) }
{
    text.extend_from_slice(row.text.as_slice())?;
    text.extend_from_slice(b"\n")?;
    push_slot(text, labels, row.slot)?;
    push_at(alloc, text, hosts, row.at)?;
    push_moves(alloc, text, hosts, slots, row.moves.as_slice())?;
    push_cost(text, row)
}
