//! The statements of a let-normal program as far as they are made.

ghost use Rattle.std.specs.Prelude.{◌≡◌, ◌+◌, [], IfOk, OnOk};
ghost use Rattle.vd_elaborate.specs.Normal.{with_slot, with_stmt, with_name_at, with_body, nameless, named_slot, emitted, kind_at, emptied, renamed};
ghost use Rattle.vd_elaborate.specs.Lowered.{Fits, Gives};

use crate::anf::Here;
use crate::forms::{copy_name, copy_optional};
use std::alloc::{AllocError, Global};
use std::marker::Model;
use std::mem;
use vd_base::{Items, Kind, SlotId};
use vd_core::{Ident, Right, Slot, Stmt, WrittenLabel};

/// The slots and statements so far, and the numbers of the next slot and block.
#[derive(Drop)]
pub(crate) struct Made {
    next: u16,
    slots: Items<Slot>,
    blocks: u32,
    body: Items<Stmt>,
}

impl Model for Made {
    ghost use Rattle.std.specs.Coded.{codes};
    ghost use Rattle.vd_base.specs.contracts.form.Form as form;
    ghost use Rattle.vd_core.specs.contracts.normal.Stmt as stmt;
    ghost use Rattle.vd_elaborate.specs.Normal.{Made as Making};

    ghost Value = { Making };

    ghost coded = { Prim.hlevel (codes, form.the_row.coded, stmt.the_row.coded) };

    ghost view = { λ made. record { next = made.next; slots = made.slots; blocks = made.blocks; body = made.body } };
}

impl Made {
    /// Nothing but block 0.
    pub(crate) fn at_start(alloc: Global) -> Made
        ensures { result ≡ record { next = 0; slots = []; blocks = 1; body = [] } }
    {
        Made {
            next: 0,
            slots: Items::new(alloc),
            blocks: 1,
            body: Items::new(alloc),
        }
    }

    /// The number of the next slot.
    pub(crate) fn next(&self) -> u16
        ensures { result ≡ self.now.next }
    {
        self.next
    }

    /// Appends a statement that makes the next slot, and gives its number.
    pub(crate) fn add(&mut self, slot: Slot, stmt: Stmt) -> Result<u16, AllocError>
        requires { Fits (with_slot slot stmt self.old).1 }
        ensures { Gives result self.new (with_slot slot stmt self.old) }
    {
        let next = self.next;
        self.slots.push(slot)?;
        self.body.push(stmt)?;
        self.next = next + 1;
        Ok(next)
    }

    /// Appends a binding without a name.
    pub(crate) fn emit(
        &mut self,
        alloc: Global,
        here: Here,
        kind: Kind,
        right: Right,
    ) -> Result<u16, AllocError>
        requires { Fits (emitted here kind right self.old).1 }
        ensures { Gives result self.new (emitted here kind right self.old) }
    {
        let slot = nameless_slot(alloc, here, kind)?;
        let next = self.next();
        self.add(slot, Stmt::Let(SlotId(next), right))
    }

    /// Appends a statement that makes no slot.
    pub(crate) fn push(&mut self, stmt: Stmt) -> Result<(), AllocError>
        ensures { OnOk result (self.new ≡ with_stmt stmt self.old) }
    {
        self.body.push(stmt)?;
        Ok(())
    }

    /// The kind of a slot.
    pub(crate) fn kind(&self, slot: u16) -> Kind
        ensures { result ≡ kind_at self.now slot }
    {
        match self.slots.as_slice().get(usize::from(slot)) {
            Some(entry) => entry.kind,
            None => Kind::Word,
        }
    }

    /// Gives a slot a name and a written label.
    pub(crate) fn rename(
        &mut self,
        alloc: Global,
        slot: u16,
        ident: &Ident,
        label: &Option<WrittenLabel>,
    ) -> Result<(), AllocError>
        ensures { OnOk result (self.new ≡ with_name_at slot ident.now label.now self.old) }
    {
        rename_slot(alloc, &mut self.slots, usize::from(slot), ident, label)
    }

    /// Begins a block: its number.
    pub(crate) fn begin_block(&mut self) -> u32
        requires { Fits (record self.old { blocks = self.old.blocks + 1 }) }
        ensures number { result ≡ self.old.blocks }
        ensures more { self.new ≡ record self.old { blocks = self.old.blocks + 1 } }
    {
        let block = self.blocks;
        self.blocks = block + 1;
        block
    }

    /// Sets the statements so far aside.
    pub(crate) fn set_aside(&mut self, alloc: Global) -> Items<Stmt>
        ensures body { result ≡ self.old.body }
        ensures rest { self.new ≡ emptied self.old }
    {
        mem::replace(&mut self.body, Items::new(alloc))
    }

    /// Takes the statements off, and puts those back that were set aside.
    pub(crate) fn take_back(&mut self, outer: Items<Stmt>) -> Items<Stmt>
        ensures body { result ≡ self.old.body }
        ensures rest { self.new ≡ with_body outer self.old }
    {
        mem::replace(&mut self.body, outer)
    }

    /// The slots and the statements.
    pub(crate) fn into_parts(self) -> (Items<Slot>, Items<Stmt>)
        ensures slots { result.0 ≡ self.slots }
        ensures body { result.1 ≡ self.body }
    {
        let Made {
            next: _,
            slots,
            blocks: _,
            body,
        } = self;
        (slots, body)
    }
}

fn nameless_slot(alloc: Global, here: Here, kind: Kind) -> Result<Slot, AllocError>
    ensures { IfOk result (λ slot. slot ≡ nameless here kind) }
{
    let name = Items::from_slice(alloc, b"_")?;
    Ok(Slot {
        name,
        kind,
        label: None,
        offset: here.offset,
        block: here.block,
    })
}

/// The slot of a name with a written label.
pub(crate) fn slot_of_name(
    alloc: Global,
    here: Here,
    ident: &Ident,
    kind: Kind,
    label: &Option<WrittenLabel>,
) -> Result<Slot, AllocError>
    ensures { IfOk result (λ slot. slot ≡ named_slot here ident.now kind label.now) }
{
    let name = copy_name(alloc, &ident.name)?;
    let label = copy_optional(alloc, label)?;
    Ok(Slot {
        name,
        kind,
        label,
        offset: here.offset,
        block: here.block,
    })
}

fn rename_slot(
    alloc: Global,
    slots: &mut Items<Slot>,
    at: usize,
    ident: &Ident,
    label: &Option<WrittenLabel>,
) -> Result<(), AllocError>
    ensures { OnOk result (slots.new ≡ renamed slots.old at ident.now label.now) }
{
    if at < slots.as_slice().len() {
        let old = &slots.as_slice()[at];
        let here = Here {
            offset: old.offset,
            block: old.block,
        };
        let slot = slot_of_name(alloc, here, ident, old.kind, label)?;
        slots.set(at, slot);
    }
    Ok(())
}
