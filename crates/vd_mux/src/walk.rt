//! The walk over a program that replaces its hidden branches.

ghost use Rattle.std.specs.Prelude.{◌≡◌, [], ◌∷◌, ◌++◌, IfOk, OnOk};
ghost use Rattle.vd_rewrite.specs.Rewriting.{all_pure, some_changed, is_pure_right as is_pure, selection, selected, emptied};
ghost use Rattle.vd_rewrite.specs.Stops.{Stops, with_body};
ghost use Rattle.vd_mux.specs.Walks.{as_rewriting, as_rewritings, made_of, made_of_all, hides_if, is_flat_if, stored_in, branch_made};

use std::alloc::{AllocError, Global};
use vd_base::{HostId, Items, Kind, Op, SlotId};
use vd_core::{Right, Slot, Stmt};
use vd_rewrite::{
    Guard, Made, Stop, is_marked, keep_array, keep_let, keep_output, keep_put, keep_variable,
    kind_of,
};

/// A program's slots, and which of them no host may read.
#[derive(Drop)]
pub(crate) struct Walk<'a> {
    pub(crate) alloc: Global,
    pub(crate) hidden: &'a [bool],
    pub(crate) slots: &'a [Slot],
}

fn is_pure_right(right: &Right) -> bool
    ensures { result ≡ is_pure right.now }
{
    match right {
        Right::Lit(_) => true,
        Right::Turn => false,
        Right::Copy(_) => true,
        Right::Apply(_, _) => true,
        Right::Input(_) => false,
        Right::Declassify(_, _) => false,
        Right::Endorse(_, _) => false,
        Right::Load(_) => true,
        Right::Get(_, _) => false,
    }
}

/// The new word of a variable where the branch is taken, the old one elsewhere.
fn choice(alloc: Global, guard: Guard, new: SlotId, old: SlotId) -> Result<Right, AllocError>
    ensures { IfOk result (λ right. right ≡ selection guard.first guard.slot new old) }
{
    let (first, second) = if guard.first { (new, old) } else { (old, new) };
    let slots = Items::from_slice(alloc, &[guard.slot, first, second])?;
    Ok(Right::Apply(Op::Mux, slots))
}

/// Guards, and one more inside of them.
fn one_more(alloc: Global, guards: &[Guard], guard: Guard) -> Result<Items<Guard>, AllocError>
    ensures { IfOk result (λ list. list ≡ guards.now ++ guard ∷ []) }
{
    let mut list = Items::from_slice(alloc, guards)?;
    list.push(guard)?;
    Ok(list)
}

impl<'a> Walk<'a> {
    /// Whether a statement needs no host's act.
    #[cycle(pure)]
    fn is_pure(&self, stmt: &Stmt) -> bool
        ensures { result ≡ (as_rewriting self.now stmt.now).is_pure }
    {
        match stmt {
            Stmt::Let(_, right) => is_pure_right(right),
            Stmt::NewVar(_, _) => true,
            Stmt::NewArray(_, _) => false,
            Stmt::Store(_, _) => true,
            Stmt::Put(_, _, _) => false,
            Stmt::Output(_, _, _) => false,
            Stmt::If(_, then_block, else_block, _) => {
                self.are_pure(then_block.as_slice()) && self.are_pure(else_block.as_slice())
            }
            Stmt::For(_, _) => false,
        }
    }

    #[cycle(pure)]
    fn are_pure(&self, body: &[Stmt]) -> bool
        ensures { result ≡ all_pure (as_rewritings self.now body.now) }
    {
        for stmt in body {
            if !self.is_pure(stmt) {
                return false;
            }
        }
        true
    }

    /// Whether an If has a statement that must be hidden, and can be.
    fn is_hidden(&self, guard: SlotId, then_block: &[Stmt], else_block: &[Stmt]) -> bool
        ensures { result ≡ hides_if self.now guard then_block.now else_block.now }
    {
        is_marked(self.hidden, guard)
            && (self.are_pure(then_block) && self.are_pure(else_block))
            && (!then_block.is_empty() || !else_block.is_empty())
    }

    /// Whether the branches of an If become statements that run whatever its guard is.
    fn is_flat(
        &self,
        guards: &[Guard],
        guard: SlotId,
        then_block: &[Stmt],
        else_block: &[Stmt],
    ) -> bool
        ensures { result ≡ is_flat_if self.now guards.now guard then_block.now else_block.now }
    {
        !guards.is_empty() || self.is_hidden(guard, then_block, else_block)
    }

    /// Whether a statement is or holds a hidden If.
    #[cycle(changed)]
    fn has_hidden_if(&self, stmt: &Stmt) -> bool
        ensures { result ≡ (as_rewriting self.now stmt.now).is_changed }
    {
        match stmt {
            Stmt::If(guard, then_block, else_block, _) => {
                self.is_hidden(*guard, then_block.as_slice(), else_block.as_slice())
                    || self.have_hidden_if(then_block.as_slice())
                    || self.have_hidden_if(else_block.as_slice())
            }
            Stmt::For(_, body) => self.have_hidden_if(body.as_slice()),
            _ => false,
        }
    }

    #[cycle(changed)]
    pub(crate) fn have_hidden_if(&self, body: &[Stmt]) -> bool
        ensures { result ≡ some_changed (as_rewritings self.now body.now) }
    {
        for stmt in body {
            if self.has_hidden_if(stmt) {
                return true;
            }
        }
        false
    }

    /// The word that a variable gets under guards.
    fn select(
        &self,
        made: &mut Made,
        kind: Kind,
        block: u32,
        variable: SlotId,
        guards: &[Guard],
        value: SlotId,
    ) -> Result<SlotId, Stop>
        ensures slot { IfOk result (λ slot. slot ≡ (selected kind block variable guards.now value made.old).0) }
        ensures made { OnOk result (made.new ≡ (selected kind block variable guards.now value made.old).1) }
        ensures stop { Stops result (selected kind block variable guards.now value made.old).1 }
    {
        match guards.split_first() {
            None => Ok(value),
            Some((guard, rest)) => {
                let inner = self.select(made, kind, block, variable, rest, value)?;
                let load = Right::Load(variable);
                let old = made.add_fresh(self.alloc, kind, guard.offset, block, load)?;
                let right = choice(self.alloc, *guard, inner, old)?;
                made.add_fresh(self.alloc, kind, guard.offset, block, right)
            }
        }
    }

    fn store(
        &self,
        made: &mut Made,
        guards: &[Guard],
        block: u32,
        variable: SlotId,
        value: SlotId,
    ) -> Result<(), Stop>
        ensures made { OnOk result (made.new ≡ stored_in self.now guards.now block variable value made.old) }
        ensures stop { Stops result (stored_in self.now guards.now block variable value made.old) }
    {
        let kind = kind_of(self.slots, variable);
        let variable = made.moved(variable);
        let value = made.moved(value);
        let word = self.select(made, kind, block, variable, guards, value)?;
        made.push(Stmt::Store(variable, word))?;
        Ok(())
    }

    /// Makes statements anew, under guards, in the block of that number.
    #[cycle(walk)]
    pub(crate) fn rewrite_all(
        &self,
        made: &mut Made,
        guards: &[Guard],
        block: u32,
        body: &[Stmt],
    ) -> Result<(), Stop>
        ensures made { OnOk result (made.new ≡ made_of_all self.now guards.now block body.now made.old) }
        ensures stop { Stops result (made_of_all self.now guards.now block body.now made.old) }
    {
        for stmt in body {
            self.rewrite(made, guards, block, stmt)?;
        }
        Ok(())
    }

    /// Makes a statement anew.
    #[cycle(walk)]
    fn rewrite(
        &self,
        made: &mut Made,
        guards: &[Guard],
        block: u32,
        stmt: &Stmt,
    ) -> Result<(), Stop>
        ensures made { OnOk result (made.new ≡ made_of self.now guards.now block stmt.now made.old) }
        ensures stop { Stops result (made_of self.now guards.now block stmt.now made.old) }
    {
        match stmt {
            Stmt::Let(slot, right) => keep_let(self.alloc, made, self.slots, block, *slot, right),
            Stmt::NewVar(variable, value) => {
                keep_variable(self.alloc, made, self.slots, block, *variable, *value)
            }
            Stmt::NewArray(array, size) => {
                keep_array(self.alloc, made, self.slots, block, *array, *size)
            }
            Stmt::Store(variable, value) => self.store(made, guards, block, *variable, *value),
            Stmt::Put(array, index, value) => keep_put(made, *array, *index, *value),
            Stmt::Output(slot, host, offset) => keep_output(made, *slot, *host, *offset),
            Stmt::If(guard, then_block, else_block, offset) => {
                let place = made.moved(*guard);
                let then_block = then_block.as_slice();
                let else_block = else_block.as_slice();
                if self.is_flat(guards, *guard, then_block, else_block) {
                    self.branch(made, guards, block, place, true, *offset, then_block)?;
                    self.branch(made, guards, block, place, false, *offset, else_block)
                } else {
                    let number = made.begin_block()?;
                    let then_block = self.inner(made, number, then_block)?;
                    let else_block = self.inner(made, number, else_block)?;
                    made.push(Stmt::If(place, then_block, else_block, *offset))?;
                    Ok(())
                }
            }
            Stmt::For(count, body) => {
                let body = self.inner(made, block, body.as_slice())?;
                made.push(Stmt::For(*count, body))?;
                Ok(())
            }
        }
    }

    /// Makes a branch under one guard more.
    #[cycle(walk)]
    fn branch(
        &self,
        made: &mut Made,
        guards: &[Guard],
        block: u32,
        place: SlotId,
        first: bool,
        offset: u32,
        body: &[Stmt],
    ) -> Result<(), Stop>
        ensures made { OnOk result (made.new ≡ branch_made self.now guards.now block place first offset body.now made.old) }
        ensures stop { Stops result (branch_made self.now guards.now block place first offset body.now made.old) }
    {
        let guard = Guard {
            first,
            slot: place,
            offset,
        };
        let inner = one_more(self.alloc, guards, guard)?;
        self.rewrite_all(made, inner.as_slice(), block, body)
    }

    /// Makes the statements of an inner block.
    #[cycle(walk)]
    fn inner(&self, made: &mut Made, block: u32, body: &[Stmt]) -> Result<Items<Stmt>, Stop>
        ensures body { IfOk result (λ stmts. stmts ≡ (made_of_all self.now [] block body.now (emptied made.old)).body) }
        ensures made { OnOk result (made.new ≡ with_body made.old.body (made_of_all self.now [] block body.now (emptied made.old))) }
        ensures stop { Stops result (made_of_all self.now [] block body.now (emptied made.old)) }
    {
        let outer = made.set_aside(self.alloc);
        self.rewrite_all(made, &[], block, body)?;
        Ok(made.take_back(outer))
    }
}
