//! The walk over a program that finds what a host's outputs are made of.

ghost use Rattle.std.specs.Prelude.{◌≡◌, ◌∷◌, [], IfOk, OnOk, nat_eq};
ghost use Rattle.vd_noninter.specs.InfluenceEdges.{influence_edges_of, right_made, with_body_made, with_stmt_made};
ghost use Rattle.vd_noninter.specs.Edges.{with_told};

use crate::around::Around;
use crate::edge::Edge;
use crate::walk::{add_input, add_made, add_told};
use std::alloc::{AllocError, Global};
use vd_base::{HostId, Items, SlotId};
use vd_core::{NormalForm, Right, Stmt};

/// What depends on what in a program, from all that is output to the host; through endorsements too where they are passed.
pub(crate) fn influence_edges(
    alloc: Global,
    passed: bool,
    host: HostId,
    form: &NormalForm,
) -> Result<Items<Edge>, AllocError>
    ensures { IfOk result (λ edges. edges ≡ influence_edges_of passed host.0 form.now.body) }
{
    let around = Around {
        guards: Items::new(alloc),
        told: true,
    };
    let mut edges = Items::new(alloc);
    add_body(
        alloc,
        &mut edges,
        passed,
        host,
        &around,
        form.body.as_slice(),
    )?;
    Ok(edges)
}

#[cycle(walk)]
fn add_body(
    alloc: Global,
    edges: &mut Items<Edge>,
    passed: bool,
    host: HostId,
    around: &Around,
    body: &[Stmt],
) -> Result<(), AllocError>
    ensures { OnOk result (edges.new ≡ with_body_made passed host.0 body.now around.now edges.old) }
{
    for stmt in body {
        add_stmt(alloc, edges, passed, host, around, stmt)?;
    }
    Ok(())
}

#[cycle(walk)]
fn add_stmt(
    alloc: Global,
    edges: &mut Items<Edge>,
    passed: bool,
    host: HostId,
    around: &Around,
    stmt: &Stmt,
) -> Result<(), AllocError>
    ensures { OnOk result (edges.new ≡ with_stmt_made passed host.0 stmt.now around.now edges.old) }
{
    match stmt {
        Stmt::Let(slot, right) => add_right(edges, passed, around, *slot, right),
        Stmt::NewVar(variable, value) | Stmt::Store(variable, value) => {
            add_made(edges, around, *variable, &[*value])
        }
        Stmt::NewArray(array, _) => add_made(edges, around, *array, &[]),
        Stmt::Put(array, index, value) => add_made(edges, around, *array, &[*index, *value]),
        Stmt::Output(value, other, _) => add_output(edges, around, other.0 == host.0, *value),
        Stmt::If(guard, then_block, else_block, _) => {
            let inner = around.within(alloc, *guard, true)?;
            add_body(alloc, edges, passed, host, &inner, then_block.as_slice())?;
            add_body(alloc, edges, passed, host, &inner, else_block.as_slice())
        }
        Stmt::For(_, body) => add_body(alloc, edges, passed, host, around, body.as_slice()),
    }
}

/// Adds what a slot is made of that gets its word of this right side.
fn add_right(
    edges: &mut Items<Edge>,
    passed: bool,
    around: &Around,
    slot: SlotId,
    right: &Right,
) -> Result<(), AllocError>
    ensures { OnOk result (edges.new ≡ right_made passed slot right.now around.now edges.old) }
{
    match right {
        Right::Lit(_) | Right::Turn => add_made(edges, around, slot, &[]),
        Right::Copy(value) | Right::Declassify(value, _) | Right::Load(value) => {
            add_made(edges, around, slot, &[*value])
        }
        Right::Apply(_, operands) => add_made(edges, around, slot, operands.as_slice()),
        Right::Input(host) => add_input(edges, around, slot, *host),
        Right::Endorse(value, _) => {
            if passed {
                add_made(edges, around, slot, &[*value])
            } else {
                add_made(edges, around, slot, &[])
            }
        }
        Right::Get(array, index) => add_made(edges, around, slot, &[*array, *index]),
    }
}

/// Adds an output, where it is one to the host: what the guards are made of, and the word itself.
fn add_output(
    edges: &mut Items<Edge>,
    around: &Around,
    told: bool,
    value: SlotId,
) -> Result<(), AllocError>
    ensures { OnOk result (edges.new ≡ with_told told (value ∷ []) (with_told told around.now.guards edges.old)) }
{
    add_told(edges, told, around.guards.as_slice())?;
    add_told(edges, told, &[value])
}
