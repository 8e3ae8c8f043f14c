//! What the choice of protocols must know, read off a program and the labels of its slots.

ghost use Rattle.std.specs.Prelude.{◌≡◌, ◌++◌, ◌∷◌, [], ◌≤◌, IfOk, OnOk, length, map};
ghost use Rattle.vd_base.specs.Limits.{most_principals, most_weights};
ghost use Rattle.vd_constraints.specs.Rules.{label as label_over};
ghost use Rattle.vd_constraints.specs.declared.labels.Labels.{Labels as Labellings};
ghost use Rattle.vd_core.specs.Facts.{weigh_all, weighing, weight_sum};
ghost use Rattle.vd_space.specs.Reading.{binding_parts, index_of, making_of, named_by, operands_of, problem_of, read_stmt, row_of, use_of};
ghost use Rattle.vd_space.specs.Steps.{with_block, with_branch, with_parts, with_slot, with_stmt};

use crate::problem::{Guard, Index, Making, Output, Problem, Use};
use std::alloc::{AllocError, Global};
use vd_base::{Items, Row, SlotId};
use vd_constraints::{Labels, Place};
use vd_core::{NormalForm, Program, Right, Stmt};
use vd_formula::{Formula, Label};

impl Problem {
    /// What the choice of protocols must know of a program under these labels of its slots.
    pub fn of(alloc: Global, program: &Program, labels: &Labels) -> Result<Problem, AllocError>
        ensures { IfOk result (λ problem. problem ≡ problem_of program.now labels.now) }
    {
        of_form(alloc, program.form(), labels)
    }
}

/// What the choice must know of a let-normal form.
fn of_form(alloc: Global, form: &NormalForm, labels: &Labels) -> Result<Problem, AllocError>
    requires principals { length form.now.principals ≤ most_principals }
    requires weights { weight_sum form.now.body ≤ most_weights }
    ensures { IfOk result (λ problem. problem ≡ problem_of form.now labels.now) }
{
    let mut problem = Problem {
        hosts: host_labels(alloc, form)?,
        slots: Items::new(alloc),
        uses: Items::new(alloc),
        outputs: Items::new(alloc),
        guards: Items::new(alloc),
        indexes: Items::new(alloc),
    };
    add_block(alloc, &mut problem, labels, 1, form.body.as_slice())?;
    Ok(problem)
}

/// The labels of the hosts, in order.
fn host_labels(alloc: Global, form: &NormalForm) -> Result<Items<Label>, AllocError>
    requires { length form.now.principals ≤ most_principals }
    ensures { IfOk result (λ labels. labels ≡ map (label_over form.now) form.now.labels) }
{
    let mut labels = Items::new(alloc);
    for written in form.labels.iter() {
        let label = Label {
            conf: Formula::over(&written.conf, &form.principals),
            integ: Formula::over(&written.integ, &form.principals),
        };
        labels.push(label)?;
    }
    Ok(labels)
}

/// Adds what a block brings that is executed so often.
#[cycle(walk)]
fn add_block(
    alloc: Global,
    problem: &mut Problem,
    labels: &Labels,
    weight: u32,
    body: &[Stmt],
) -> Result<(), AllocError>
    requires { weigh_all (map weighing body.now) weight ≤ most_weights }
    ensures { OnOk result (problem.new ≡ with_block problem.old labels.now weight body.now) }
{
    for stmt in body {
        add_stmt(alloc, problem, labels, weight, stmt)?;
    }
    Ok(())
}

/// Adds what a statement brings that is executed so often.
#[cycle(walk)]
fn add_stmt(
    alloc: Global,
    problem: &mut Problem,
    labels: &Labels,
    weight: u32,
    stmt: &Stmt,
) -> Result<(), AllocError>
    requires { weighing stmt.now weight ≤ most_weights }
    ensures { OnOk result (problem.new ≡ with_parts problem.old ((read_stmt labels.now stmt.now).parts weight)) }
{
    match stmt {
        Stmt::Let(slot, right) => add_binding(problem, labels, weight, *slot, right),
        Stmt::NewVar(variable, value) => {
            add_slot(problem, labels, Row::Variable, weight, *variable)?;
            add_use(problem, weight, *variable, *value)
        }
        Stmt::NewArray(array, _) => add_slot(problem, labels, Row::Variable, weight, *array),
        Stmt::Store(variable, value) => add_use(problem, weight, *variable, *value),
        Stmt::Put(array, index, value) => {
            add_use(problem, weight, *array, *value)?;
            add_index(problem, weight, *array, *index)
        }
        Stmt::Output(slot, host, _) => {
            let output = Output {
                slot: *slot,
                host: *host,
                weight,
            };
            problem.outputs.push(output)
        }
        Stmt::If(slot, then_block, else_block, _) => {
            let mut guard = Guard {
                slot: *slot,
                weight,
                slots: Items::new(alloc),
                hosts: Items::new(alloc),
            };
            name_block(&mut guard, then_block.as_slice())?;
            name_block(&mut guard, else_block.as_slice())?;
            problem.guards.push(guard)?;
            add_block(alloc, problem, labels, weight, then_block.as_slice())?;
            add_block(alloc, problem, labels, weight, else_block.as_slice())
        }
        Stmt::For(count, body) => {
            let turns = body.as_slice();
            if turns.len() == 0 {
                return Ok(());
            }
            add_block(alloc, problem, labels, weight * *count, turns)
        }
    }
}

/// Adds a binding: its slot, the uses of its operands, and the index of a read.
fn add_binding(
    problem: &mut Problem,
    labels: &Labels,
    weight: u32,
    slot: SlotId,
    right: &Right,
) -> Result<(), AllocError>
    ensures { OnOk result (problem.new ≡ with_parts problem.old (binding_parts labels.now weight slot right.now)) }
{
    add_slot(problem, labels, row(right), weight, slot)?;
    match right {
        Right::Lit(_) | Right::Turn | Right::Input(_) => Ok(()),
        Right::Copy(value)
        | Right::Declassify(value, _)
        | Right::Endorse(value, _)
        | Right::Load(value) => add_use(problem, weight, slot, *value),
        Right::Apply(_, operands) => add_operands(problem, weight, slot, operands.as_slice()),
        Right::Get(array, index) => {
            add_use(problem, weight, slot, *array)?;
            add_index(problem, weight, *array, *index)
        }
    }
}

/// What a right side asks of its protocol.
fn row(right: &Right) -> Row
    ensures { result ≡ row_of right.now }
{
    match right {
        Right::Lit(_) | Right::Turn => Row::Constant,
        Right::Apply(op, _) => Row::Apply(*op),
        Right::Input(host) => Row::Input(*host),
        Right::Copy(_)
        | Right::Declassify(_, _)
        | Right::Endorse(_, _)
        | Right::Load(_)
        | Right::Get(_, _) => Row::Carry,
    }
}

fn add_slot(
    problem: &mut Problem,
    labels: &Labels,
    row: Row,
    weight: u32,
    slot: SlotId,
) -> Result<(), AllocError>
    ensures { OnOk result (problem.new ≡ with_slot problem.old (making_of labels.now row weight slot)) }
{
    let making = Making {
        row,
        weight,
        label: labels.label(Place::Slot(slot)),
    };
    problem.slots.push(making)
}

/// Adds that a value is moved to a slot.
fn add_use(
    problem: &mut Problem,
    weight: u32,
    target: SlotId,
    source: SlotId,
) -> Result<(), AllocError>
    ensures { OnOk result (problem.new ≡ record problem.old { uses = problem.old.uses ++ use_of weight target source ∷ [] }) }
{
    problem.uses.push(Use {
        source,
        target,
        weight,
    })
}

/// Adds that each operand is moved to a slot.
fn add_operands(
    problem: &mut Problem,
    weight: u32,
    target: SlotId,
    operands: &[SlotId],
) -> Result<(), AllocError>
    ensures { OnOk result (problem.new ≡ record problem.old { uses = problem.old.uses ++ map (use_of weight target) operands.now }) }
{
    for operand in operands {
        add_use(problem, weight, target, *operand)?;
    }
    Ok(())
}

/// Adds that an index is told to the hosts of its array.
fn add_index(
    problem: &mut Problem,
    weight: u32,
    array: SlotId,
    index: SlotId,
) -> Result<(), AllocError>
    ensures { OnOk result (problem.new ≡ record problem.old { indexes = problem.old.indexes ++ index_of weight array index ∷ [] }) }
{
    problem.indexes.push(Index {
        array,
        index,
        weight,
    })
}

/// Adds to a guard what a block names and tells.
#[cycle(names)]
fn name_block(guard: &mut Guard, body: &[Stmt]) -> Result<(), AllocError>
    ensures { OnOk result ((l : Labellings) → guard.new ≡ with_branch guard.old l body.now) }
{
    for stmt in body {
        name_stmt(guard, stmt)?;
    }
    Ok(())
}

/// Adds to a guard what a statement names and tells.
#[cycle(names)]
fn name_stmt(guard: &mut Guard, stmt: &Stmt) -> Result<(), AllocError>
    ensures { OnOk result ((l : Labellings) → guard.new ≡ with_stmt guard.old l stmt.now) }
{
    match stmt {
        Stmt::Let(slot, right) => {
            guard.slots.push(*slot)?;
            name_right(guard, right)
        }
        Stmt::NewVar(variable, value) => name_two(guard, *variable, *value),
        Stmt::Store(variable, value) => name_two(guard, *variable, *value),
        Stmt::NewArray(array, _) => guard.slots.push(*array),
        Stmt::Put(array, index, value) => {
            guard.slots.push(*array)?;
            guard.slots.push(*index)?;
            guard.slots.push(*value)
        }
        Stmt::Output(slot, host, _) => {
            guard.slots.push(*slot)?;
            guard.hosts.push(*host)
        }
        Stmt::If(slot, then_block, else_block, _) => {
            guard.slots.push(*slot)?;
            name_block(guard, then_block.as_slice())?;
            name_block(guard, else_block.as_slice())
        }
        Stmt::For(_, body) => name_block(guard, body.as_slice()),
    }
}

/// Adds two slots to a guard.
fn name_two(guard: &mut Guard, first: SlotId, second: SlotId) -> Result<(), AllocError>
    ensures { OnOk result (guard.new ≡ record guard.old { slots = guard.old.slots ++ first ∷ second ∷ [] }) }
{
    guard.slots.push(first)?;
    guard.slots.push(second)
}

/// Adds to a guard the slots that a right side names.
fn name_right(guard: &mut Guard, right: &Right) -> Result<(), AllocError>
    ensures { OnOk result (guard.new ≡ record guard.old { slots = guard.old.slots ++ named_by right.now }) }
{
    match right {
        Right::Lit(_) | Right::Turn | Right::Input(_) => Ok(()),
        Right::Copy(value)
        | Right::Declassify(value, _)
        | Right::Endorse(value, _)
        | Right::Load(value) => guard.slots.push(*value),
        Right::Apply(_, operands) => guard.slots.extend_from_slice(operands.as_slice()),
        Right::Get(array, index) => {
            guard.slots.push(*array)?;
            guard.slots.push(*index)
        }
    }
}
