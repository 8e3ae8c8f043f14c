//! The rows of a program, in order.

ghost use Rattle.std.specs.Prelude.{◌≡◌, ◌++◌, ◌∷◌, drop, ◌≤◌, IfOk, OnOk, length, map};
ghost use Rattle.vd_base.specs.Limits.{most_hosts, most_weights};
ghost use Rattle.vd_core.specs.Facts.{weigh_all, weighing};
ghost use Rattle.vd_draw_rows.specs.Moves.{told_to, is_part};
ghost use Rattle.vd_draw_rows.specs.Rows as rows_spec;

use crate::lines::{line_at, slot_line};
use crate::moves::{
    element_moves, is_alone, is_indexed, move_of, one_move, operation_cost, right_moves, tell,
};
use crate::parts::takes_part_in_either;
use crate::row::{Kind, Move, Row};
use crate::texts::{
    push_array, push_binding, push_branch, push_loop, push_output, push_put, push_store,
    push_variable,
};
use std::alloc::{AllocError, Global};
use vd_base::{Bytes, HostId, Items, Proto, SlotId, proto_of};
use vd_core::{NormalForm, Program, Right, Stmt};

/// What stands around a statement: how often it is done, and in how many blocks it stands.
#[derive(Clone, Copy)]
struct Around {
    weight: u32,
    depth: u32,
}

/// A program, its source, and where its slots stand.
#[derive(Clone, Copy)]
struct Placed<'a> {
    source: &'a [u8],
    form: &'a NormalForm,
    list: &'a [Proto],
}

/// The rows of a program whose slots stand at these protocols, in order. The source is its text.
pub fn rows_of(
    alloc: Global,
    source: &[u8],
    program: &Program,
    list: &[Proto],
) -> Result<Items<Row>, AllocError>
    ensures { IfOk result (λ rows. rows ≡ rows_spec.rows_of source.now program.now list.now) }
{
    let form = program.form();
    let placed = Placed { source, form, list };
    let around = Around {
        weight: 1,
        depth: 1,
    };
    let mut rows = Items::new(alloc);
    add_block(alloc, &mut rows, placed, around, form.body.as_slice())?;
    Ok(rows)
}

/// Adds the rows of a block.
#[cycle(walk)]
fn add_block(
    alloc: Global,
    rows: &mut Items<Row>,
    placed: Placed,
    around: Around,
    body: &[Stmt],
) -> Result<(), AllocError>
    requires few { length placed.form.now.hosts ≤ most_hosts }
    requires light { weigh_all (map weighing body.now) around.weight ≤ most_weights }
    ensures { OnOk result (rows.new ≡ rows.old ++ rows_spec.all_rows (map
        (rows_spec.drawn placed.entry.source.now placed.entry.form.now placed.entry.list.now) body.now) around.weight around.depth) }
{
    for stmt in body {
        add_stmt(alloc, rows, placed, around, stmt)?;
    }
    Ok(())
}

/// Adds the rows of a statement.
#[cycle(walk)]
fn add_stmt(
    alloc: Global,
    rows: &mut Items<Row>,
    placed: Placed,
    around: Around,
    stmt: &Stmt,
) -> Result<(), AllocError>
    requires few { length placed.form.now.hosts ≤ most_hosts }
    requires light { weighing stmt.now around.weight ≤ most_weights }
    ensures { OnOk result (rows.new ≡ rows.old ++ (rows_spec.drawn placed.entry.source.now placed.entry.form.now
        placed.entry.list.now stmt.now).rows around.weight around.depth) }
{
    match stmt {
        Stmt::If(guard, then_block, else_block, offset) => {
            let first = then_block.as_slice();
            let other = else_block.as_slice();
            rows.push(branch_row(alloc, placed, around, *guard, first, other, *offset)?)?;
            let inside = inside(around);
            add_block(alloc, rows, placed, inside, first)?;
            if other.len() == 0 {
                return Ok(());
            }
            rows.push(otherwise_row(alloc, inside)?)?;
            add_block(alloc, rows, placed, inside, other)
        }
        Stmt::For(count, body) => {
            rows.push(loop_row(alloc, around, *count)?)?;
            let turns = body.as_slice();
            if turns.len() == 0 {
                return Ok(());
            }
            let turn = Around {
                weight: around.weight * *count,
                depth: around.depth,
            };
            add_block(alloc, rows, placed, inside(turn), turns)
        }
        _ => rows.push(row_of(alloc, placed, around, stmt)?),
    }
}

/// The first row of a statement.
fn row_of(alloc: Global, placed: Placed, around: Around, stmt: &Stmt) -> Result<Row, AllocError>
    requires { length placed.form.now.hosts ≤ most_hosts }
    ensures { let rows = (rows_spec.drawn placed.entry.source.now placed.entry.form.now placed.entry.list.now stmt.now).rows
        around.weight around.depth in IfOk result (λ row. row ∷ drop 1 rows ≡ rows) }
{
    match stmt {
        Stmt::Let(slot, right) => binding_row(alloc, placed, around, *slot, right),
        Stmt::NewVar(variable, value) => variable_row(alloc, placed, around, *variable, *value),
        Stmt::NewArray(array, cells) => array_row(alloc, placed, around, *array, *cells),
        Stmt::Store(variable, value) => store_row(alloc, placed, around, *variable, *value),
        Stmt::Put(array, index, value) => put_row(alloc, placed, around, *array, *index, *value),
        Stmt::Output(slot, host, offset) => output_row(
            alloc, placed, around, *slot, *host, *offset,
        ),
        Stmt::If(guard, then_block, else_block, offset) => branch_row(
            alloc,
            placed,
            around,
            *guard,
            then_block.as_slice(),
            else_block.as_slice(),
            *offset,
        ),
        Stmt::For(count, _) => loop_row(alloc, around, *count),
    }
}

/// What stands around the statements of a block.
fn inside(around: Around) -> Around
    ensures weight { result.weight ≡ around.weight }
    ensures depth { result.depth ≡ rows_spec.deeper around.depth }
{
    Around {
        weight: around.weight,
        depth: around.depth.saturating_add(1),
    }
}

/// The row of a binding.
fn binding_row(
    alloc: Global,
    placed: Placed,
    around: Around,
    slot: SlotId,
    right: &Right,
) -> Result<Row, AllocError>
    requires { length placed.form.now.hosts ≤ most_hosts }
    ensures { IfOk result (λ row. row ≡ rows_spec.binding_row placed.entry.source.now placed.entry.form.now placed.entry.list.now
        around.weight around.depth slot right.now) }
{
    let at = proto_of(placed.list, slot);
    let form = placed.form;
    let slots = form.slots.as_slice();
    let mut text = Bytes::new(alloc);
    push_binding(&mut text, &form.hosts, slots, slot, right)?;
    let line = slot_line(alloc, placed.source, slots, slot, text.as_slice())?;
    Ok(Row {
        kind: Kind::Binding,
        depth: around.depth,
        offset: None,
        slot: Some(slot),
        line,
        at: Some(at),
        text,
        moves: right_moves(alloc, placed.list, count_of_hosts(placed.form), slot, right)?,
        indexed: is_indexed(right),
        alone: is_alone(right),
        operation: operation_cost(right, at),
        weight: around.weight,
    })
}

/// How many hosts there are.
fn count_of_hosts(form: &NormalForm) -> u8
    requires { length form.now.hosts ≤ most_hosts }
    ensures { result ≡ length form.now.hosts }
{
    form.hosts.as_slice().len() as u8
}

/// The row of a variable that is made.
fn variable_row(
    alloc: Global,
    placed: Placed,
    around: Around,
    variable: SlotId,
    value: SlotId,
) -> Result<Row, AllocError>
    ensures { IfOk result (λ row. row ≡ rows_spec.variable_row placed.entry.source.now placed.entry.form.now placed.entry.list.now
        around.weight around.depth variable value) }
{
    let at = proto_of(placed.list, variable);
    let slots = placed.form.slots.as_slice();
    let mut text = Bytes::new(alloc);
    push_variable(&mut text, slots, variable, value)?;
    let line = slot_line(alloc, placed.source, slots, variable, text.as_slice())?;
    Ok(Row {
        kind: Kind::Variable,
        depth: around.depth,
        offset: None,
        slot: Some(variable),
        line,
        at: Some(at),
        text,
        moves: one_move(alloc, placed.list, value, at)?,
        indexed: false,
        alone: false,
        operation: 0,
        weight: around.weight,
    })
}

/// The row of an array that is made.
fn array_row(
    alloc: Global,
    placed: Placed,
    around: Around,
    array: SlotId,
    cells: u32,
) -> Result<Row, AllocError>
    ensures { IfOk result (λ row. row ≡ rows_spec.array_row placed.entry.source.now placed.entry.form.now placed.entry.list.now
        around.weight around.depth array cells) }
{
    let slots = placed.form.slots.as_slice();
    let mut text = Bytes::new(alloc);
    push_array(&mut text, slots, array, cells)?;
    let line = slot_line(alloc, placed.source, slots, array, text.as_slice())?;
    Ok(Row {
        kind: Kind::Variable,
        depth: around.depth,
        offset: None,
        slot: Some(array),
        line,
        at: Some(proto_of(placed.list, array)),
        text,
        moves: Items::new(alloc),
        indexed: false,
        alone: false,
        operation: 0,
        weight: around.weight,
    })
}

/// The row of a word that is stored in a variable.
fn store_row(
    alloc: Global,
    placed: Placed,
    around: Around,
    variable: SlotId,
    value: SlotId,
) -> Result<Row, AllocError>
    ensures { IfOk result (λ row. row ≡ rows_spec.store_row placed.entry.source.now placed.entry.form.now placed.entry.list.now
        around.weight around.depth variable value) }
{
    let at = proto_of(placed.list, variable);
    let mut text = Bytes::new(alloc);
    push_store(&mut text, placed.form.slots.as_slice(), variable, value)?;
    Ok(Row {
        kind: Kind::Store,
        depth: around.depth,
        offset: None,
        slot: None,
        line: None,
        at: Some(at),
        text,
        moves: one_move(alloc, placed.list, value, at)?,
        indexed: false,
        alone: false,
        operation: 0,
        weight: around.weight,
    })
}

/// The row of a word that is stored in an array.
fn put_row(
    alloc: Global,
    placed: Placed,
    around: Around,
    array: SlotId,
    index: SlotId,
    value: SlotId,
) -> Result<Row, AllocError>
    requires { length placed.form.now.hosts ≤ most_hosts }
    ensures { IfOk result (λ row. row ≡ rows_spec.put_row placed.entry.source.now placed.entry.form.now placed.entry.list.now
        around.weight around.depth array index value) }
{
    let at = proto_of(placed.list, array);
    let last = move_of(placed.list, value, at);
    let mut text = Bytes::new(alloc);
    push_put(&mut text, placed.form.slots.as_slice(), array, index, value)?;
    Ok(Row {
        kind: Kind::Store,
        depth: around.depth,
        offset: None,
        slot: None,
        line: None,
        at: Some(at),
        text,
        moves: element_moves(
            alloc,
            placed.list,
            count_of_hosts(placed.form),
            array,
            index,
            last,
        )?,
        indexed: true,
        alone: false,
        operation: 0,
        weight: around.weight,
    })
}

/// The row of a word that is told to a host.
fn output_row(
    alloc: Global,
    placed: Placed,
    around: Around,
    value: SlotId,
    host: HostId,
    offset: u32,
) -> Result<Row, AllocError>
    ensures { IfOk result (λ row. row ≡ rows_spec.output_row placed.entry.source.now placed.entry.form.now placed.entry.list.now
        around.weight around.depth value host offset) }
{
    let at = Proto::Local(host);
    let form = placed.form;
    let slots = form.slots.as_slice();
    let mut text = Bytes::new(alloc);
    push_output(&mut text, &form.hosts, slots, value, host)?;
    let line = line_at(alloc, placed.source, offset, text.as_slice())?;
    Ok(Row {
        kind: Kind::Output,
        depth: around.depth,
        offset: Some(offset),
        slot: None,
        line,
        at: Some(at),
        text,
        moves: one_move(alloc, placed.list, value, at)?,
        indexed: false,
        alone: false,
        operation: 0,
        weight: around.weight,
    })
}

/// The moves of a guard: it is told to each host that takes part in the branches.
fn guard_moves(
    alloc: Global,
    placed: Placed,
    guard: SlotId,
    first: &[Stmt],
    other: &[Stmt],
) -> Result<Items<Move>, AllocError>
    requires { length placed.form.now.hosts ≤ most_hosts }
    ensures { let block = map (rows_spec.drawn placed.entry.source.now placed.entry.form.now placed.entry.list.now) in
        IfOk result (λ moves. moves ≡ rows_spec.guard_moves placed.entry.source.now placed.entry.form.now placed.entry.list.now
        guard (block first.now) (block other.now)) }
{
    let mut moves = Items::new(alloc);
    for host in 0..count_of_hosts(placed.form) {
        let host = HostId(host);
        let is_part = takes_part_in_either(placed.list, host, first, other);
        tell(&mut moves, placed.list, guard, host, is_part)?;
    }
    Ok(moves)
}

/// The row of the guard of a branch.
fn branch_row(
    alloc: Global,
    placed: Placed,
    around: Around,
    guard: SlotId,
    first: &[Stmt],
    other: &[Stmt],
    offset: u32,
) -> Result<Row, AllocError>
    requires { length placed.form.now.hosts ≤ most_hosts }
    ensures { let block = map (rows_spec.drawn placed.entry.source.now placed.entry.form.now placed.entry.list.now) in
        IfOk result (λ row. row ≡ rows_spec.branch_row placed.entry.source.now placed.entry.form.now placed.entry.list.now
        around.weight around.depth guard (block first.now) (block other.now) offset) }
{
    let slots = placed.form.slots.as_slice();
    let mut text = Bytes::new(alloc);
    push_branch(&mut text, slots, guard)?;
    let line = line_at(alloc, placed.source, offset, text.as_slice())?;
    Ok(Row {
        kind: Kind::Branch,
        depth: around.depth,
        offset: Some(offset),
        slot: None,
        line,
        at: None,
        text,
        moves: guard_moves(alloc, placed, guard, first, other)?,
        indexed: false,
        alone: false,
        operation: 0,
        weight: around.weight,
    })
}

/// The row before the other block of a branch.
fn otherwise_row(alloc: Global, around: Around) -> Result<Row, AllocError>
    ensures { IfOk result (λ row. row ≡ rows_spec.otherwise_row around.weight around.depth) }
{
    Ok(Row {
        kind: Kind::Otherwise,
        depth: around.depth,
        offset: None,
        slot: None,
        line: None,
        at: None,
        text: Bytes::from_slice(alloc, b"else")?,
        moves: Items::new(alloc),
        indexed: false,
        alone: false,
        operation: 0,
        weight: around.weight,
    })
}

/// The row of a loop.
fn loop_row(alloc: Global, around: Around, count: u32) -> Result<Row, AllocError>
    ensures { IfOk result (λ row. row ≡ rows_spec.loop_row around.weight around.depth count) }
{
    let mut text = Bytes::new(alloc);
    push_loop(&mut text, count)?;
    Ok(Row {
        kind: Kind::Loop,
        depth: around.depth,
        offset: None,
        slot: None,
        line: None,
        at: None,
        text,
        moves: Items::new(alloc),
        indexed: false,
        alone: false,
        operation: 0,
        weight: around.weight,
    })
}
