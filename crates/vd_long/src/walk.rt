//! The walk over a program that makes loops of its divisions.

ghost use Rattle.std.specs.Prelude.{◌≡◌, ◌&&◌, [], IfOk, OnOk, nat_le};
ghost use Rattle.std.specs.Option.{option_map};
ghost use Rattle.vd_core.specs.Facts.{nesting, nesting_of};
ghost use Rattle.vd_long.specs.Lengthened.{parts_of as the_parts, is_division as is_one};
ghost use Rattle.vd_long.specs.Walks.{lets_of, made_of, made_of_all, is_long as is_long_in, some_long};
ghost use Rattle.vd_rewrite.specs.Rewriting.{emptied};
ghost use Rattle.vd_rewrite.specs.Stops.{Stops, with_body};

use crate::division::{add_long, parts_of};
use std::alloc::Global;
use vd_base::{Items, SlotId};
use vd_core::{Right, Slot, Stmt};
use vd_rewrite::{
    Made, Stop, is_marked, keep_array, keep_let, keep_output, keep_put, keep_store, keep_variable,
};

/// A program's slots, and which of them no protocol is for.
#[derive(Drop)]
pub(crate) struct Walk<'a> {
    pub(crate) alloc: Global,
    pub(crate) long: &'a [bool],
    pub(crate) slots: &'a [Slot],
}

fn is_division(right: &Right) -> bool
    ensures { result ≡ is_one (the_parts right.now) }
{
    parts_of(right).is_some()
}

impl<'a> Walk<'a> {
    /// Whether a division in a statement becomes a loop.
    #[cycle(long)]
    fn is_long(&self, stmt: &Stmt) -> bool
        ensures { result ≡ is_long_in self.now stmt.now }
    {
        match stmt {
            Stmt::Let(slot, right) => is_marked(self.long, *slot) && is_division(right),
            Stmt::If(_, then_block, else_block, _) => {
                self.is_some_long(then_block.as_slice()) || self.is_some_long(else_block.as_slice())
            }
            Stmt::For(_, body) => self.is_some_long(body.as_slice()),
            _ => false,
        }
    }

    /// Whether a division in these statements becomes a loop.
    #[cycle(long)]
    pub(crate) fn is_some_long(&self, body: &[Stmt]) -> bool
        ensures { result ≡ some_long self.now body.now }
    {
        for stmt in body {
            if self.is_long(stmt) {
                return true;
            }
        }
        false
    }

    /// Appends what a Let becomes.
    fn add_let(&self, made: &mut Made, block: u32, slot: SlotId, right: &Right) -> Result<(), Stop>
        ensures made { OnOk result (made.new ≡ lets_of self.now slot right.now block made.old) }
        ensures stop { Stops result (lets_of self.now slot right.now block made.old) }
    {
        if !is_marked(self.long, slot) {
            return keep_let(self.alloc, made, self.slots, block, slot, right);
        }
        match parts_of(right) {
            None => keep_let(self.alloc, made, self.slots, block, slot, right),
            Some(division) => add_long(self.alloc, made, self.slots, block, slot, division),
        }
    }

    /// Makes statements anew, in the block of that number.
    #[cycle(walk)]
    pub(crate) fn lengthen_all(
        &self,
        made: &mut Made,
        block: u32,
        body: &[Stmt],
    ) -> Result<(), Stop>
        ensures made { OnOk result (made.new ≡ made_of_all self.now block body.now made.old) }
        ensures stop { Stops result (made_of_all self.now block body.now made.old) }
    {
        for stmt in body {
            self.lengthen(made, block, stmt)?;
        }
        Ok(())
    }

    /// Makes a statement anew.
    #[cycle(walk)]
    fn lengthen(&self, made: &mut Made, block: u32, stmt: &Stmt) -> Result<(), Stop>
        ensures made { OnOk result (made.new ≡ made_of self.now block stmt.now made.old) }
        ensures stop { Stops result (made_of self.now block stmt.now made.old) }
    {
        match stmt {
            Stmt::Let(slot, right) => self.add_let(made, block, *slot, right),
            Stmt::NewVar(variable, value) => {
                keep_variable(self.alloc, made, self.slots, block, *variable, *value)
            }
            Stmt::NewArray(array, size) => {
                keep_array(self.alloc, made, self.slots, block, *array, *size)
            }
            Stmt::Store(variable, value) => keep_store(made, *variable, *value),
            Stmt::Put(array, index, value) => keep_put(made, *array, *index, *value),
            Stmt::Output(slot, host, offset) => keep_output(made, *slot, *host, *offset),
            Stmt::If(guard, then_block, else_block, offset) => {
                let place = made.moved(*guard);
                let then_block = then_block.as_slice();
                let else_block = else_block.as_slice();
                let number = made.begin_block()?;
                let then_block = self.inner(made, number, then_block)?;
                let else_block = self.inner(made, number, else_block)?;
                made.push(Stmt::If(place, then_block, else_block, *offset))?;
                Ok(())
            }
            Stmt::For(count, body) => {
                let body = self.inner(made, block, body.as_slice())?;
                made.push(Stmt::For(*count, body))?;
                Ok(())
            }
        }
    }

    /// Makes the statements of an inner block.
    #[cycle(walk)]
    fn inner(&self, made: &mut Made, block: u32, body: &[Stmt]) -> Result<Items<Stmt>, Stop>
        ensures body { IfOk result (λ stmts. stmts ≡ (made_of_all self.now block body.now (emptied made.old)).body) }
        ensures made { OnOk result (made.new ≡ with_body made.old.body (made_of_all self.now block body.now (emptied made.old))) }
        ensures stop { Stops result (made_of_all self.now block body.now (emptied made.old)) }
    {
        let outer = made.set_aside(self.alloc);
        self.lengthen_all(made, block, body)?;
        Ok(made.take_back(outer))
    }
}
