//! The walk over a program that finds what depends on what.

ghost use Rattle.std.specs.Prelude.{◌≡◌, ◌&&◌, ◌++◌, ◌∷◌, [], IfOk, OnOk, nat_eq};
ghost use Rattle.vd_noninter.specs.Edges.{edges_of, reads_in, right_edges, with_body, with_input, with_made, with_parts, with_put, with_slots, with_stmt, with_told};

use crate::around::Around;
use crate::edge::{Edge, Node};
use crate::reader::Reader;
use std::alloc::{AllocError, Global};
use vd_base::{HostId, Items, SlotId};
use vd_core::{NormalForm, Right, Stmt};

/// What depends on what in a program, for a host that is told what it may read.
pub(crate) fn edges(
    alloc: Global,
    reader: &Reader,
    form: &NormalForm,
) -> Result<Items<Edge>, AllocError>
    ensures { IfOk result (λ edges. edges ≡ edges_of (reads_in reader.now) reader.now.host.0 form.now.body) }
{
    let around = Around {
        guards: Items::new(alloc),
        told: true,
    };
    let mut edges = Items::new(alloc);
    add_body(alloc, &mut edges, reader, &around, form.body.as_slice())?;
    Ok(edges)
}

#[cycle(walk)]
fn add_body(
    alloc: Global,
    edges: &mut Items<Edge>,
    reader: &Reader,
    around: &Around,
    body: &[Stmt],
) -> Result<(), AllocError>
    ensures { OnOk result (edges.new ≡ with_body (reads_in reader.now) reader.now.host.0 body.now around.now edges.old) }
{
    for stmt in body {
        add_stmt(alloc, edges, reader, around, stmt)?;
    }
    Ok(())
}

#[cycle(walk)]
fn add_stmt(
    alloc: Global,
    edges: &mut Items<Edge>,
    reader: &Reader,
    around: &Around,
    stmt: &Stmt,
) -> Result<(), AllocError>
    ensures { OnOk result (edges.new ≡ with_stmt (reads_in reader.now) reader.now.host.0 stmt.now around.now edges.old) }
{
    match stmt {
        Stmt::Let(slot, right) => add_right(edges, reader, around, *slot, right),
        Stmt::NewVar(variable, value) | Stmt::Store(variable, value) => {
            add_parts(edges, around, reader.reads(*variable), *variable, &[*value])
        }
        Stmt::NewArray(_, _) => Ok(()),
        Stmt::Put(array, index, value) => { add_put(edges, reader, around, *array, *index, *value) }
        Stmt::Output(value, host, _) => {
            add_told(edges, around.told && host.0 == reader.host.0, &[*value])
        }
        Stmt::If(guard, then_block, else_block, _) => {
            let read = reader.reads(*guard);
            add_told(edges, around.told && read, &[*guard])?;
            let inner = around.within(alloc, *guard, read)?;
            add_body(alloc, edges, reader, &inner, then_block.as_slice())?;
            add_body(alloc, edges, reader, &inner, else_block.as_slice())
        }
        Stmt::For(_, body) => add_body(alloc, edges, reader, around, body.as_slice()),
    }
}

/// Adds what a slot depends on that is made of this right side, and what of it the host is told.
fn add_right(
    edges: &mut Items<Edge>,
    reader: &Reader,
    around: &Around,
    slot: SlotId,
    right: &Right,
) -> Result<(), AllocError>
    ensures { OnOk result (edges.new ≡ right_edges (reads_in reader.now) slot right.now around.now edges.old) }
{
    let read = reader.reads(slot);
    match right {
        Right::Lit(_) | Right::Turn => add_made(edges, around, slot, &[]),
        Right::Copy(value) | Right::Endorse(value, _) => {
            add_parts(edges, around, read, slot, &[*value])
        }
        Right::Apply(_, operands) => add_parts(edges, around, read, slot, operands.as_slice()),
        Right::Input(host) => add_input(edges, around, slot, *host),
        Right::Declassify(_, _) => {
            add_made(edges, around, slot, &[])?;
            add_told(edges, around.told && read, &[slot])
        }
        Right::Load(variable) => {
            add_made(edges, around, slot, &[*variable])?;
            add_told(edges, around.told && read, &[slot])
        }
        Right::Get(array, index) => {
            add_made(edges, around, slot, &[*array, *index])?;
            add_told(edges, around.told && read, &[slot])?;
            add_told(edges, around.told && reader.reads(*index), &[*index])
        }
    }
}

/// Adds what an array depends on that gets a value at an index, and what of it the host is told.
fn add_put(
    edges: &mut Items<Edge>,
    reader: &Reader,
    around: &Around,
    array: SlotId,
    index: SlotId,
    value: SlotId,
) -> Result<(), AllocError>
    ensures { OnOk result (edges.new ≡ with_put (reads_in reader.now) array index value around.now edges.old) }
{
    add_made(edges, around, array, &[index, value])?;
    add_told(edges, around.told && reader.reads(array), &[value])?;
    add_told(edges, around.told && reader.reads(index), &[index])
}

/// Adds that a slot is an input: it depends on the host's inputs, and these on the guards around each of them.
pub(crate) fn add_input(
    edges: &mut Items<Edge>,
    around: &Around,
    slot: SlotId,
    host: HostId,
) -> Result<(), AllocError>
    ensures { OnOk result (edges.new ≡ with_input around.now slot host edges.old) }
{
    edges.push(Edge {
        from: Node::Slot(slot),
        to: Node::Inputs(host),
    })?;
    add_slots(edges, Node::Slot(slot), around.guards.as_slice())?;
    add_slots(edges, Node::Inputs(host), around.guards.as_slice())
}

/// Adds that a slot is made of these parts, of which the host is told where it may read the slot.
fn add_parts(
    edges: &mut Items<Edge>,
    around: &Around,
    read: bool,
    slot: SlotId,
    parts: &[SlotId],
) -> Result<(), AllocError>
    ensures { OnOk result (edges.new ≡ with_parts around.now read slot parts.now edges.old) }
{
    add_made(edges, around, slot, parts)?;
    add_told(edges, around.told && read, parts)
}

/// Adds that a slot is made of these parts, under the guards around it.
pub(crate) fn add_made(
    edges: &mut Items<Edge>,
    around: &Around,
    slot: SlotId,
    parts: &[SlotId],
) -> Result<(), AllocError>
    ensures { OnOk result (edges.new ≡ with_made around.now slot parts.now edges.old) }
{
    add_slots(edges, Node::Slot(slot), around.guards.as_slice())?;
    add_slots(edges, Node::Slot(slot), parts)
}

/// Adds that the host is told of these slots, where it is.
pub(crate) fn add_told(
    edges: &mut Items<Edge>,
    told: bool,
    slots: &[SlotId],
) -> Result<(), AllocError>
    ensures { OnOk result (edges.new ≡ with_told told slots.now edges.old) }
{
    if told {
        add_slots(edges, Node::Told, slots)
    } else {
        Ok(())
    }
}

/// Adds an edge to each of these slots.
fn add_slots(edges: &mut Items<Edge>, from: Node, slots: &[SlotId]) -> Result<(), AllocError>
    ensures { OnOk result (edges.new ≡ with_slots from slots.now edges.old) }
{
    for slot in slots {
        edges.push(Edge {
            from,
            to: Node::Slot(*slot),
        })?;
    }
    Ok(())
}
