//! The statements of a program as far as they are made anew.

ghost use Rattle.std.specs.Prelude.{◌≡◌, ◌+◌, ◌<◌, [], ◌∷◌, ◌++◌, IfOk, OnOk, IfErr};
ghost use Rattle.vd_rewrite.specs.Rewriting.{made_at_start, with_stmt, with_kept, with_new, with_fresh, fresh, emptied, moved};
ghost use Rattle.vd_rewrite.specs.Stops.{IsFull, Stops, with_body};

use crate::copies::{fresh_slot, move_slot};
use crate::stop::Stop;
use std::alloc::{AllocError, Global};
use std::marker::Model;
use std::mem;
use vd_base::limits::STATEMENTS;
use vd_base::{Items, Kind, SlotId};
use vd_core::{Right, Slot, Stmt};

/// The slots and statements so far, the new numbers of old slots, and the numbers of the next slot and block.
#[derive(Drop)]
pub struct Made {
    next: u16,
    slots: Items<Slot>,
    table: Items<u16>,
    blocks: u32,
    body: Items<Stmt>,
}

impl Model for Made {
    ghost use Rattle.std.specs.Coded.{codes};
    ghost use Rattle.vd_base.specs.contracts.form.Form as form;
    ghost use Rattle.vd_core.specs.contracts.normal.Stmt as stmt;
    ghost use Rattle.vd_rewrite.specs.Rewriting.{Made as Making};

    ghost Value = { Making };

    ghost coded = { Prim.hlevel (codes, form.the_row.coded, stmt.the_row.coded) };

    ghost view = { λ made. record { next = made.next; slots = made.slots; table = made.table; blocks = made.blocks; body = made.body } };
}

impl Made {
    /// Nothing but block 0.
    pub fn at_start(alloc: Global) -> Made
        ensures { result ≡ made_at_start }
    {
        Made {
            next: 0,
            slots: Items::new(alloc),
            table: Items::new(alloc),
            blocks: 1,
            body: Items::new(alloc),
        }
    }

    /// Whether one slot or block more is more than a program may have.
    pub fn is_full(&self) -> bool
        ensures full { IsFull result self.now }
    {
        u64::from(self.next) + u64::from(self.blocks) > u64::from(STATEMENTS)
    }

    /// The new numbers of old slots.
    pub(crate) fn table(&self) -> &[u16]
        ensures { result.now ≡ self.now.table }
    {
        self.table.as_slice()
    }

    /// The new number of a slot.
    pub fn moved(&self, slot: SlotId) -> SlotId
        ensures { result ≡ moved self.now.table slot }
    {
        move_slot(self.table.as_slice(), slot)
    }

    /// The number of the next slot.
    pub fn next(&self) -> SlotId
        ensures { result.0 ≡ self.now.next }
    {
        SlotId(self.next)
    }

    /// Appends a statement that makes an old slot anew.
    pub fn add_kept(&mut self, entry: Slot, stmt: Stmt) -> Result<(), Stop>
        ensures made { OnOk result (self.new ≡ with_kept entry stmt self.old) }
        ensures stop { Stops result (with_kept entry stmt self.old) }
    {
        if self.is_full() {
            return Err(Stop::TooMany);
        }
        let next = self.next;
        self.slots.push(entry)?;
        self.table.push(next)?;
        self.body.push(stmt)?;
        self.next = next + 1;
        Ok(())
    }

    /// Appends a new slot without a name.
    pub fn add_fresh(
        &mut self,
        alloc: Global,
        kind: Kind,
        offset: u32,
        block: u32,
        right: Right,
    ) -> Result<SlotId, Stop>
        ensures slot { IfOk result (λ slot. slot.0 ≡ self.old.next) }
        ensures made { OnOk result (self.new ≡ with_fresh (fresh kind offset block) right self.old) }
        ensures stop { Stops result (with_fresh (fresh kind offset block) right self.old) }
    {
        if self.is_full() {
            return Err(Stop::TooMany);
        }
        let entry = fresh_slot(alloc, kind, offset, block)?;
        let next = self.next;
        self.slots.push(entry)?;
        self.body.push(Stmt::Let(SlotId(next), right))?;
        self.next = next + 1;
        Ok(SlotId(next))
    }

    /// Appends a statement that makes a new slot.
    pub fn add_new(&mut self, entry: Slot, stmt: Stmt) -> Result<(), Stop>
        ensures made { OnOk result (self.new ≡ with_new entry stmt self.old) }
        ensures stop { Stops result (with_new entry stmt self.old) }
    {
        if self.is_full() {
            return Err(Stop::TooMany);
        }
        let next = self.next;
        self.slots.push(entry)?;
        self.body.push(stmt)?;
        self.next = next + 1;
        Ok(())
    }

    /// Appends a statement that makes no slot.
    pub fn push(&mut self, stmt: Stmt) -> Result<(), AllocError>
        ensures { OnOk result (self.new ≡ with_stmt stmt self.old) }
    {
        self.body.push(stmt)?;
        Ok(())
    }

    /// Begins a block: its number.
    pub fn begin_block(&mut self) -> Result<u32, Stop>
        ensures number { IfOk result (λ block. block ≡ self.old.blocks) }
        ensures more { OnOk result (self.new ≡ record self.old { blocks = self.old.blocks + 1 }) }
        ensures stop { Stops result (record self.old { blocks = self.old.blocks + 1 }) }
    {
        if self.is_full() {
            return Err(Stop::TooMany);
        }
        let block = self.blocks;
        self.blocks = block + 1;
        Ok(block)
    }

    /// Sets the statements so far aside.
    pub fn set_aside(&mut self, alloc: Global) -> Items<Stmt>
        ensures body { result ≡ self.old.body }
        ensures rest { self.new ≡ emptied self.old }
    {
        mem::replace(&mut self.body, Items::new(alloc))
    }

    /// Takes the statements off, and puts those back that were set aside.
    pub fn take_back(&mut self, outer: Items<Stmt>) -> Items<Stmt>
        ensures body { result ≡ self.old.body }
        ensures rest { self.new ≡ with_body outer self.old }
    {
        mem::replace(&mut self.body, outer)
    }

    /// The slots and the statements.
    pub fn into_parts(self) -> (Items<Slot>, Items<Stmt>)
        ensures slots { result.0 ≡ self.slots }
        ensures body { result.1 ≡ self.body }
    {
        let Made {
            next: _,
            slots,
            table: _,
            blocks: _,
            body,
        } = self;
        (slots, body)
    }
}
