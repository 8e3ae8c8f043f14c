//! The walk over a let-normal program that collects its flow rules.

ghost use Rattle.std.specs.Prelude.{◌≡◌, ◌^◌, ◌<◌, ◌≤◌, ◌++◌, length, IsTrue, IfOk, IfSome, OnOk};
ghost use Rattle.std.specs.List.{list_all};
ghost use Rattle.vd_base.specs.Limits.{most_principals};
ghost use Rattle.vd_constraints.specs.Extends.{Extends};
ghost use Rattle.vd_constraints.specs.Origins.{body_origins, origins_of, stmt_origins};
ghost use Rattle.vd_constraints.specs.Rules.{host_label as label_of_host, label as label_over, written_at as label_written_at, offset_of, with_body, with_operands, with_put, with_right, with_stmt, with_stored, with_written, system_of};
ghost use Rattle.vd_constraints.specs.Scoped.{HasNamesOf, IsScoped, is_below, slots_below, block_below};
ghost use Rattle.vd_core.specs.declared.normal.Stmt.TheVariants as statement;
ghost use Rattle.vd_constraints.specs.declared.system.Place.TheVariants as place;
ghost use Rattle.vd_constraints.specs.Systems.{AreOfStep, IsLabelOver, IsPlaceOf, IsSmall};

use crate::origin::{Origin, add_right_origins, add_slot_origins};
use crate::system::{Place, System};
use std::alloc::{AllocError, Global};
use vd_base::{HostId, Items, SlotId};
use vd_core::{NormalForm, Program, Right, Stmt, Written};
use vd_formula::{Formula, Label};

/// The system of a program, and beside it what asks for each of its checks, in their order.
#[derive(Drop)]
pub struct Collected {
    pub system: System,
    pub origins: Items<Origin>,
}

/// The rules and checks of a program, in program order, and what asks for each check. It fails only where memory runs out.
pub fn constraints(alloc: Global, program: &Program) -> Result<Collected, AllocError>
    ensures system { IfOk result (λ collected. collected.system ≡ system_of program.now) }
    ensures origins { IfOk result (λ collected. collected.origins ≡ origins_of program.now) }
    ensures as_many { IfOk result (λ collected. length collected.origins ≡ length collected.system.checks) }
{
    constraints_of(alloc, program.form())
}

/// The rules and checks of a let-normal form, in program order, and what asks for each check.
fn constraints_of(alloc: Global, form: &NormalForm) -> Result<Collected, AllocError>
    requires scoped { IsScoped form.now }
    requires slots { length form.now.slots < 2 ^ 32 }
    requires small { IsSmall (system_of form.now) }
    ensures system { IfOk result (λ collected. collected.system ≡ system_of form.now) }
    ensures origins { IfOk result (λ collected. collected.origins ≡ origins_of form.now) }
{
    let mut system = System::new(
        form.principals.clone()?,
        form.slots.as_slice().len() as u32,
        1,
        Items::new(alloc),
        Items::new(alloc),
    );
    let mut origins = Items::new(alloc);
    add_body(
        &mut system,
        &mut origins,
        form,
        Place::Block(0),
        form.body.as_slice(),
    )?;
    Ok(Collected { system, origins })
}

/// Adds what statements ask, in a block whose label is at `pc`, and what asks for their checks.
#[cycle(walk)]
fn add_body(
    system: &mut System,
    origins: &mut Items<Origin>,
    program: &NormalForm,
    pc: Place,
    body: &[Stmt],
) -> Result<(), AllocError>
    requires place { IsPlaceOf system.old pc }
    requires names { HasNamesOf program.now system.old }
    requires slots { IsTrue (block_below system.old.slots body.now) }
    requires small { IsSmall (with_body body.now program.now pc system.old) }
    ensures added { OnOk result (system.new ≡ with_body body.now program.now pc system.old) }
    ensures origins { OnOk result (origins.new ≡ origins.old ++ body_origins program.now body.now) }
    ensures extends { OnOk result (Extends system.old system.new) }
{
    for stmt in body {
        add_stmt(system, origins, program, pc, stmt)?;
    }
    Ok(())
}

/// Adds what a statement asks, in a block whose label is at `pc`, and what asks for its checks.
#[cycle(walk)]
fn add_stmt(
    system: &mut System,
    origins: &mut Items<Origin>,
    program: &NormalForm,
    pc: Place,
    stmt: &Stmt,
) -> Result<(), AllocError>
    requires place { IsPlaceOf system.old pc }
    requires names { HasNamesOf program.now system.old }
    requires slots { IsTrue (slots_below system.old.slots stmt.now) }
    requires small { IsSmall (with_stmt stmt.now program.now pc system.old) }
    ensures added { OnOk result (system.new ≡ with_stmt stmt.now program.now pc system.old) }
    ensures origins { OnOk result (origins.new ≡ origins.old ++ stmt_origins program.now stmt.now) }
    ensures extends { OnOk result (Extends system.old system.new) }
{
    match stmt {
        Stmt::Let(slot, right) => {
            add_right(system, program, pc, *slot, right)?;
            add_label(system, program, *slot)?;
            add_right_origins(origins, right)?;
            add_slot_origins(origins, program, *slot)
        }
        Stmt::NewVar(variable, value) => {
            add_stored(system, pc, *variable, *value)?;
            add_label(system, program, *variable)?;
            add_slot_origins(origins, program, *variable)
        }
        Stmt::NewArray(array, _) => {
            system.add_flow(pc, Place::Slot(*array))?;
            add_label(system, program, *array)?;
            add_slot_origins(origins, program, *array)
        }
        Stmt::Store(variable, value) => add_stored(system, pc, *variable, *value),
        Stmt::Put(array, index, value) => add_put(system, pc, *array, *index, *value),
        Stmt::Output(slot, host, offset) => {
            let label = host_label(program, *host);
            system.add_output(label, pc, Place::Slot(*slot), *offset)?;
            origins.extend_from_slice(&[Origin::Output(*host), Origin::Told(*host)])
        }
        Stmt::If(guard, then_block, else_block, _) => {
            let branch = system.add_branch(Place::Slot(*guard), pc)?;
            add_body(system, origins, program, branch, then_block.as_slice())?;
            add_body(system, origins, program, branch, else_block.as_slice())
        }
        Stmt::For(_, body) => add_body(system, origins, program, pc, body.as_slice()),
    }
}

/// Adds what a right side asks of the slot that it makes.
fn add_right(
    system: &mut System,
    program: &NormalForm,
    pc: Place,
    slot: SlotId,
    right: &Right,
) -> Result<(), AllocError>
    requires place { IsPlaceOf system.old pc }
    requires names { HasNamesOf program.now system.old }
    requires slots { IsTrue (slots_below system.old.slots (statement.Let slot right.now)) }
    requires small { IsSmall (with_right program.now pc slot right.now system.old) }
    ensures { OnOk result (system.new ≡ with_right program.now pc slot right.now system.old) }
{
    let x = Place::Slot(slot);
    match right {
        Right::Lit(_) => Ok(()),
        Right::Turn => Ok(()),
        Right::Copy(value) => system.add_flow(Place::Slot(*value), x),
        Right::Load(variable) => system.add_flow(Place::Slot(*variable), x),
        Right::Apply(_, operands) => add_operands(system, slot, operands.as_slice()),
        Right::Get(array, index) => {
            system.add_flow(Place::Slot(*array), x)?;
            system.add_flow(Place::Slot(*index), x)
        }
        Right::Input(host) => {
            let label = host_label(program, *host);
            system.add_input(label, pc, x, offset(program, slot))
        }
        Right::Declassify(value, form) => {
            let to = Formula::over(form, &program.principals);
            system.add_declassified(to, pc, x, Place::Slot(*value))
        }
        Right::Endorse(value, form) => {
            let to = Formula::over(form, &program.principals);
            system.add_endorsed(to, pc, x, Place::Slot(*value), offset(program, slot))
        }
    }
}

fn add_operands(system: &mut System, slot: SlotId, operands: &[SlotId]) -> Result<(), AllocError>
    requires slot { slot.0 < system.old.slots }
    requires operands { IsTrue (list_all (is_below system.old.slots) operands.now) }
    requires small { IsSmall (with_operands operands.now slot system.old) }
    ensures { OnOk result (system.new ≡ with_operands operands.now slot system.old) }
{
    for operand in operands {
        system.add_flow(Place::Slot(*operand), Place::Slot(slot))?;
    }
    Ok(())
}

/// Adds that a value is stored in a variable.
fn add_stored(
    system: &mut System,
    pc: Place,
    variable: SlotId,
    value: SlotId,
) -> Result<(), AllocError>
    requires place { IsPlaceOf system.old pc }
    requires variable { variable.0 < system.old.slots }
    requires value { value.0 < system.old.slots }
    requires small { IsSmall (with_stored pc variable value system.old) }
    ensures { OnOk result (system.new ≡ with_stored pc variable value system.old) }
{
    system.add_flow(Place::Slot(value), Place::Slot(variable))?;
    system.add_flow(pc, Place::Slot(variable))
}

/// Adds that a value is put into an array.
fn add_put(
    system: &mut System,
    pc: Place,
    array: SlotId,
    index: SlotId,
    value: SlotId,
) -> Result<(), AllocError>
    requires places { AreOfStep system.old pc (place.Slot array) (place.Slot value) }
    requires index { index.0 < system.old.slots }
    requires small { IsSmall (with_put pc array index value system.old) }
    ensures { OnOk result (system.new ≡ with_put pc array index value system.old) }
{
    let array = Place::Slot(array);
    system.add_flow(Place::Slot(value), array)?;
    system.add_flow(Place::Slot(index), array)?;
    system.add_flow(pc, array)
}

/// Adds the label that the source writes at a slot, if it does.
fn add_label(system: &mut System, program: &NormalForm, slot: SlotId) -> Result<(), AllocError>
    requires names { HasNamesOf program.now system.old }
    requires slot { slot.0 < system.old.slots }
    requires small { IsSmall (with_written program.now slot system.old) }
    ensures { OnOk result (system.new ≡ with_written program.now slot system.old) }
{
    match written_at(program, slot) {
        Some(written) => { system.add_written(written, Place::Slot(slot), offset(program, slot)) }
        None => Ok(()),
    }
}

/// The label of a host. One that is not declared acts for no one.
fn host_label(program: &NormalForm, host: HostId) -> Label
    requires { length program.now.principals ≤ most_principals }
    ensures same { result ≡ label_of_host program.now host }
    ensures over { IsLabelOver (length program.now.principals) result }
{
    match program.labels.as_slice().get(usize::from(host.0)) {
        Some(written) => label(program, written),
        None => {
            let names = program.principals.as_slice().len() as u8;
            Label {
                conf: Formula::any(names),
                integ: Formula::any(names),
            }
        }
    }
}

/// A written label, over the program's principals.
fn label(program: &NormalForm, written: &Written) -> Label
    requires { length program.now.principals ≤ most_principals }
    ensures same { result ≡ label_over program.now written.now }
    ensures over { IsLabelOver (length program.now.principals) result }
{
    Label {
        conf: Formula::over(&written.conf, &program.principals),
        integ: Formula::over(&written.integ, &program.principals),
    }
}

/// The label that the source writes at a slot, if it does.
fn written_at(program: &NormalForm, slot: SlotId) -> Option<Label>
    requires { length program.now.principals ≤ most_principals }
    ensures same { result ≡ label_written_at program.now slot }
    ensures over { IfSome result (IsLabelOver (length program.now.principals)) }
{
    let slot = program.slots.as_slice().get(usize::from(slot.0))?;
    match &slot.label {
        Some(written) => Some(label(program, written)),
        None => None,
    }
}

/// Where in the source a slot is made.
fn offset(program: &NormalForm, slot: SlotId) -> u32
    ensures { result ≡ offset_of program.now slot }
{
    match program.slots.as_slice().get(usize::from(slot.0)) {
        Some(slot) => slot.offset,
        None => 0,
    }
}
