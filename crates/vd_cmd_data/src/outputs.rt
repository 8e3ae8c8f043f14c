//! The outputs of a program to a host, in order, and how many come before and after each.

ghost use Rattle.std.specs.Prelude.{◌≡◌, ◌++◌, drop, OnOk, IfOk};
ghost use Rattle.vd_cmd_data.specs.Outputs as outputs;

use crate::names::output_name;
use crate::spans::{Span, either, exactly, plus, times};
use itoa::Buffer;
use std::alloc::{AllocError, Global};
use vd_base::{Bytes, HostId, Items, Kind, SlotId};
use vd_core::{NormalForm, Slot, Stmt};

/// Outputs that come before, and after.
#[derive(Clone, Copy)]
pub(crate) struct Around {
    pub before: Span,
    pub after: Span,
}

/// An output to the host, in some turns of the loops around it.
#[derive(Drop)]
pub(crate) struct Place {
    pub name: Bytes,
    /// Whether its word is true or false.
    pub is_bool: bool,
    pub around: Around,
}

/// A program, its source, and the host of whose outputs is spoken.
#[derive(Clone, Copy)]
struct Told<'a> {
    source: &'a [u8],
    slots: &'a [Slot],
    host: HostId,
}

/// How many outputs an output is: one where it is to the host.
fn output_count(to: HostId, host: HostId) -> Span
    ensures { result ≡ outputs.output_count to host }
{
    if to == host { exactly(1) } else { exactly(0) }
}

/// How many outputs to the host a block has.
#[cycle(counting)]
fn block_span(host: HostId, body: &[Stmt]) -> Span
    ensures { result ≡ outputs.block_span host body.now }
{
    let mut span = exactly(0);
    for stmt in body {
        span = plus(span, statement_span(host, stmt));
    }
    span
}

/// How many outputs to the host a statement has.
#[cycle(counting)]
fn statement_span(host: HostId, stmt: &Stmt) -> Span
    ensures { result ≡ outputs.statement_span host stmt.now }
{
    match stmt {
        Stmt::Output(_, to, _) => output_count(*to, host),
        Stmt::If(_, first, other, _) => either(
            block_span(host, first.as_slice()),
            block_span(host, other.as_slice()),
        ),
        Stmt::For(count, body) => times(*count as usize, block_span(host, body.as_slice())),
        _ => exactly(0),
    }
}

/// Whether the word of a slot is true or false.
fn is_truth(slots: &[Slot], slot: SlotId) -> bool
    ensures { result ≡ outputs.is_truth slots.now slot }
{
    match slots.get(usize::from(slot.0)) {
        Some(found) => found.kind == Kind::Bool,
        None => false,
    }
}

/// The name of an output, and the turns in which it comes.
fn place_name(
    alloc: Global,
    told: Told,
    turns: &[u8],
    slot: SlotId,
    offset: u32,
) -> Result<Bytes, AllocError>
    ensures { IfOk result (λ name. name ≡ outputs.place_name told.entry.source.now told.entry.slots.now turns.now slot offset) }
{
    let mut name = output_name(alloc, told.source, told.slots, slot, offset)?;
    name.extend_from_slice(turns)?;
    Ok(name)
}

/// Adds an output, where it is to the host.
fn add_output(
    alloc: Global,
    places: &mut Items<Place>,
    told: Told,
    turns: &[u8],
    around: Around,
    slot: SlotId,
    to: HostId,
    offset: u32,
) -> Result<(), AllocError>
    ensures { OnOk result (places.new ≡ places.old
        ++ outputs.output_places told.entry.source.now told.entry.slots.now told.entry.host turns.now around slot to offset) }
{
    if to != told.host {
        return Ok(());
    }
    let name = place_name(alloc, told, turns, slot, offset)?;
    let is_bool = is_truth(told.slots, slot);
    places.push(Place {
        name,
        is_bool,
        around,
    })
}

/// What stands around the first statement of a block, where so many outputs are behind it.
fn around_first(around: Around, behind: Span) -> Around
    ensures { result ≡ outputs.around_first around behind }
{
    Around {
        before: around.before,
        after: plus(behind, around.after),
    }
}

/// What stands around the rest of a block, where so many outputs are before it.
fn around_rest(around: Around, first: Span) -> Around
    ensures { result ≡ outputs.around_rest around first }
{
    Around {
        before: plus(around.before, first),
        after: around.after,
    }
}

/// What stands behind the first statement.
fn behind_first(body: &[Stmt]) -> &[Stmt]
    ensures { result.now ≡ drop 1 body.now }
{
    match body {
        [_, rest @ ..] => rest,
        [] => &[],
    }
}

/// Adds the outputs of a block.
#[cycle(places)]
fn add_block(
    alloc: Global,
    places: &mut Items<Place>,
    told: Told,
    turns: &[u8],
    around: Around,
    body: &[Stmt],
) -> Result<(), AllocError>
    ensures { OnOk result (places.new ≡ places.old
        ++ outputs.block_places told.entry.source.now told.entry.slots.now told.entry.host body.now turns.now around) }
{
    let mut here = around;
    let mut rest = body;
    for stmt in body {
        rest = behind_first(rest);
        let inside = around_first(here, block_span(told.host, rest));
        add_statement(alloc, places, told, turns, inside, stmt)?;
        here = around_rest(here, statement_span(told.host, stmt));
    }
    Ok(())
}

/// Adds the outputs of a statement.
#[cycle(places)]
fn add_statement(
    alloc: Global,
    places: &mut Items<Place>,
    told: Told,
    turns: &[u8],
    around: Around,
    stmt: &Stmt,
) -> Result<(), AllocError>
    ensures { OnOk result (places.new ≡ places.old
        ++ outputs.statement_places told.entry.source.now told.entry.slots.now told.entry.host stmt.now turns.now around) }
{
    match stmt {
        Stmt::Output(slot, to, offset) => {
            add_output(alloc, places, told, turns, around, *slot, *to, *offset)
        }
        Stmt::If(_, first, other, _) => {
            add_block(alloc, places, told, turns, around, first.as_slice())?;
            add_block(alloc, places, told, turns, around, other.as_slice())
        }
        Stmt::For(count, body) => {
            add_turns(alloc, places, told, turns, around, *count, body.as_slice())
        }
        _ => Ok(()),
    }
}

/// Turns, and one more inside of them.
fn deeper(alloc: Global, turns: &[u8], turn: u32) -> Result<Bytes, AllocError>
    ensures { IfOk result (λ text. text ≡ outputs.deeper turns.now turn) }
{
    let mut text = Bytes::from_slice(alloc, turns)?;
    text.extend_from_slice(b"[")?;
    text.extend_from_slice(Buffer::new().format(turn).as_bytes())?;
    text.extend_from_slice(b"]")?;
    Ok(text)
}

/// Adds the outputs of a loop, turn by turn.
#[cycle(places)]
fn add_turns(
    alloc: Global,
    places: &mut Items<Place>,
    told: Told,
    turns: &[u8],
    around: Around,
    count: u32,
    body: &[Stmt],
) -> Result<(), AllocError>
    ensures { OnOk result (places.new ≡ places.old
        ++ outputs.loop_places told.entry.source.now told.entry.slots.now told.entry.host body.now count turns.now around) }
{
    let one = block_span(told.host, body);
    let mut here = around;
    for turn in 0..count {
        let left = (count - 1 - turn) as usize;
        let inside = around_first(here, times(left, one));
        let inner = deeper(alloc, turns, turn)?;
        add_block(alloc, places, told, inner.as_slice(), inside, body)?;
        here = around_rest(here, one);
    }
    Ok(())
}

/// How many outputs to the host there are in a program.
pub(crate) fn outputs_count(form: &NormalForm, host: HostId) -> Span
    ensures { result ≡ outputs.outputs_count form.now host }
{
    block_span(host, form.body.as_slice())
}

/// The outputs of a program to the host, in order. The source is its text.
pub(crate) fn outputs_of(
    alloc: Global,
    source: &[u8],
    form: &NormalForm,
    host: HostId,
) -> Result<Items<Place>, AllocError>
    ensures { IfOk result (λ places. places ≡ outputs.outputs_of source.now form.now host) }
{
    let told = Told {
        source,
        slots: form.slots.as_slice(),
        host,
    };
    let around = Around {
        before: exactly(0),
        after: exactly(0),
    };
    let mut places = Items::new(alloc);
    add_block(alloc, &mut places, told, &[], around, form.body.as_slice())?;
    Ok(places)
}
