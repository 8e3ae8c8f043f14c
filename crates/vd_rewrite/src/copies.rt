//! Copies of the parts of a program.

ghost use Rattle.std.specs.Prelude.{◌≡◌, IfOk, map};
ghost use Rattle.vd_rewrite.specs.Rewriting.{in_block, entry_of, moved, moved_right, fresh};

use std::alloc::{AllocError, Global};
use vd_base::{Form, Items, Kind, Name, SlotId};
use vd_core::{NormalForm, Right, Slot, Stmt, Written};

/// A copy of a name.
pub(crate) fn copy_name(alloc: Global, name: &Name) -> Result<Name, AllocError>
    ensures { IfOk result (λ copy. copy ≡ name.now) }
{
    Items::from_slice(alloc, name.as_slice())
}

#[cycle(form)]
pub(crate) fn copy_form(alloc: Global, form: &Form) -> Result<Form, AllocError>
    ensures { IfOk result (λ copy. copy ≡ form.now) }
{
    match form {
        Form::Any => Ok(Form::Any),
        Form::Never => Ok(Form::Never),
        Form::Name(name) => {
            let name = copy_name(alloc, name)?;
            Ok(Form::Name(name))
        }
        Form::Both(forms) => {
            let forms = copy_forms(alloc, forms.as_slice())?;
            Ok(Form::Both(forms))
        }
        Form::Either(forms) => {
            let forms = copy_forms(alloc, forms.as_slice())?;
            Ok(Form::Either(forms))
        }
    }
}

#[cycle(form)]
fn copy_forms(alloc: Global, forms: &[Form]) -> Result<Items<Form>, AllocError>
    ensures { IfOk result (λ copies. copies ≡ forms.now) }
{
    let mut copies = Items::new(alloc);
    for form in forms {
        let copy = copy_form(alloc, form)?;
        copies.push(copy)?;
    }
    Ok(copies)
}

pub(crate) fn copy_label(alloc: Global, label: &Written) -> Result<Written, AllocError>
    ensures { IfOk result (λ copy. copy ≡ label.now) }
{
    let conf = copy_form(alloc, &label.conf)?;
    let integ = copy_form(alloc, &label.integ)?;
    Ok(Written { conf, integ })
}

fn copy_optional(alloc: Global, label: &Option<Written>) -> Result<Option<Written>, AllocError>
    ensures { IfOk result (λ copy. copy ≡ label.now) }
{
    match label {
        None => Ok(None),
        Some(label) => {
            let label = copy_label(alloc, label)?;
            Ok(Some(label))
        }
    }
}

/// A new slot without a name.
pub fn fresh_slot(alloc: Global, kind: Kind, offset: u32, block: u32) -> Result<Slot, AllocError>
    ensures { IfOk result (λ slot. slot ≡ fresh kind offset block) }
{
    let name = Items::from_slice(alloc, b"_")?;
    Ok(Slot {
        name,
        kind,
        label: None,
        offset,
        block,
    })
}

/// The entry of a slot, in another block.
pub fn copy_slot(
    alloc: Global,
    slots: &[Slot],
    slot: SlotId,
    block: u32,
) -> Result<Slot, AllocError>
    ensures { IfOk result (λ copy. copy ≡ in_block block (entry_of slots.now slot)) }
{
    match slots.get(usize::from(slot.0)) {
        Some(entry) => {
            let name = copy_name(alloc, &entry.name)?;
            let label = copy_optional(alloc, &entry.label)?;
            Ok(Slot {
                name,
                kind: entry.kind,
                label,
                offset: entry.offset,
                block,
            })
        }
        None => fresh_slot(alloc, Kind::Word, 0, block),
    }
}

/// The kind of a slot.
pub fn kind_of(slots: &[Slot], slot: SlotId) -> Kind
    ensures { result ≡ (entry_of slots.now slot).kind }
{
    match slots.get(usize::from(slot.0)) {
        Some(entry) => entry.kind,
        None => Kind::Word,
    }
}

/// The new number of a slot.
pub(crate) fn move_slot(table: &[u16], slot: SlotId) -> SlotId
    ensures { result ≡ moved table.now slot }
{
    SlotId(table.get(usize::from(slot.0)).copied().unwrap_or(0))
}

fn move_slots(alloc: Global, table: &[u16], slots: &[SlotId]) -> Result<Items<SlotId>, AllocError>
    ensures { IfOk result (λ list. list ≡ map (moved table.now) slots.now) }
{
    let mut list = Items::new(alloc);
    for slot in slots {
        list.push(move_slot(table, *slot))?;
    }
    Ok(list)
}

/// A right side with new numbers.
pub(crate) fn move_right(alloc: Global, table: &[u16], right: &Right) -> Result<Right, AllocError>
    ensures { IfOk result (λ copy. copy ≡ moved_right table.now right.now) }
{
    match right {
        Right::Lit(number) => Ok(Right::Lit(*number)),
        Right::Turn => Ok(Right::Turn),
        Right::Copy(slot) => Ok(Right::Copy(move_slot(table, *slot))),
        Right::Apply(op, slots) => {
            let slots = move_slots(alloc, table, slots.as_slice())?;
            Ok(Right::Apply(*op, slots))
        }
        Right::Input(host) => Ok(Right::Input(*host)),
        Right::Declassify(slot, to) => {
            let to = copy_form(alloc, to)?;
            Ok(Right::Declassify(move_slot(table, *slot), to))
        }
        Right::Endorse(slot, to) => {
            let to = copy_form(alloc, to)?;
            Ok(Right::Endorse(move_slot(table, *slot), to))
        }
        Right::Load(variable) => Ok(Right::Load(move_slot(table, *variable))),
        Right::Get(array, index) => {
            Ok(Right::Get(move_slot(table, *array), move_slot(table, *index)))
        }
    }
}

fn copy_labels(alloc: Global, labels: &[Written]) -> Result<Items<Written>, AllocError>
    ensures { IfOk result (λ copies. copies ≡ labels.now) }
{
    let mut copies = Items::new(alloc);
    for label in labels {
        let copy = copy_label(alloc, label)?;
        copies.push(copy)?;
    }
    Ok(copies)
}

/// The same principals and hosts, with other slots and statements.
pub fn with_parts(
    alloc: Global,
    form: &NormalForm,
    slots: Items<Slot>,
    body: Items<Stmt>,
) -> Result<NormalForm, AllocError>
    ensures { IfOk result (λ new. new ≡ record {
      principals = form.now.principals;
      hosts = form.now.hosts;
      labels = form.now.labels;
      slots = slots;
      body = body;
    }) }
{
    let principals = form.principals.clone()?;
    let hosts = form.hosts.clone()?;
    let labels = copy_labels(alloc, form.labels.as_slice())?;
    Ok(NormalForm {
        principals,
        hosts,
        labels,
        slots,
        body,
    })
}
