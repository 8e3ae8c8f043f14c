//! The clear words that come to a host of a program, computed along its run in clear.

ghost use Rattle.std.specs.Prelude.{◌≡◌, ◌++◌, ℕ, OnOk, IfOk, map, filter, slice_index};
ghost use Rattle.vd_noninter_protocols.specs.Hearing.{word_if, comes, right_heard, heard, heard_in_order};
ghost use Rattle.vd_constraints.specs.declared.labels.Labels.{Labels};
ghost use Rattle.vd_noninter.specs.Reading.{start};
ghost use Rattle.vd_core.specs.declared.normal.Right.TheVariants.{Get as Element};
ghost use Rattle.vd_noninter_protocols.specs.Parts.{guard_heard};
ghost use Rattle.vd_noninter_protocols.specs.Runs.{Hearer, after, after_all, all_heard, binding, heard_by, making, storing, telling, writing};
ghost use Rattle.vd_semantics.specs.ProgramMeaning.{word_at, array_at, right_word, after_right, in_world};

use crate::noninter_difference::listener::Listener;
use std::alloc::{AllocError, Global};
use std::marker::Model;
use vd_base::{HostId, Inputs, Items, SlotId, Words, combine};
use vd_core::{NormalForm, Right, Stmt};
use vd_semantics::{World, put_array, put_element, put_word, zeros};

/// The clear words that come to a host of the program, in order. The inputs of each host are followed by zeros.
///
/// It fails only where memory runs out.
pub(crate) fn heard_words(
    alloc: Global,
    program: &NormalForm,
    listener: &Listener,
    inputs: &Inputs,
) -> Result<Words, AllocError>
    ensures { let x = listener.now in IfOk result (λ words. (l : Labels) →
        words ≡ heard_in_order (map (heard x.protocols x.host l) program.now.body) 0 (start program.now inputs.now)) }
{
    let mut run = Run {
        alloc,
        words: Vec::new(alloc),
        arrays: Vec::new(alloc),
        world: World::at_start(alloc, program.hosts.as_slice().len(), inputs)?,
        heard: Vec::new(alloc),
    };
    run.block(listener, program.body.as_slice(), 0)?;
    Ok(run.into_heard())
}

/// The words of bindings and variables and the lists of arrays, by slot, the world outside, and what came to the host so far.
#[derive(Drop)]
struct Run<'a> {
    alloc: Global,
    words: Vec<u32>,
    arrays: Vec<Words>,
    world: World<'a>,
    heard: Vec<u32>,
}

impl<'a> Model for Run<'a> {
    ghost use Rattle.vd_noninter_protocols.specs.Runs.{HeardRun};

    ghost Value = { HeardRun };

    ghost view = { λ run. record {
      state = record { words = run.words.items; arrays = run.arrays.items; world = run.world };
      words = run.heard.items;
    } };
}

impl<'a> Run<'a> {
    fn word(&self, slot: SlotId) -> u32
        ensures { result ≡ word_at self.now.state slot }
    {
        self.words.get(usize::from(slot.0)).copied().unwrap_or(0)
    }

    fn operand(&self, slots: &[SlotId], at: usize) -> u32
        ensures { result ≡ slice_index (map (word_at self.now.state) slots.now) at }
    {
        match slots.get(at) {
            Some(slot) => self.word(*slot),
            None => 0,
        }
    }

    fn element(&self, array: SlotId, index: SlotId) -> u32
        ensures { result ≡ slice_index (array_at self.now.state array) (word_at self.now.state index) }
    {
        let index = self.word(index) as usize;
        match self.arrays.get(usize::from(array.0)) {
            Some(words) => words.as_slice().get(index).copied().unwrap_or(0),
            None => 0,
        }
    }

    /// The word comes to the host where the test says so.
    fn hear(&mut self, comes: bool, word: u32) -> Result<(), AllocError>
        ensures { OnOk result (self.new ≡ record self.old { words = self.old.words ++ word_if comes word }) }
    {
        if comes {
            self.heard.push(word)?;
        }
        Ok(())
    }

    /// A word that is moved from one slot to another comes to the host where that has it in clear there.
    fn hear_moved(
        &mut self,
        listener: &Listener,
        from: SlotId,
        onto: SlotId,
    ) -> Result<(), AllocError>
        ensures { let x = listener.now in OnOk result (self.new ≡ record self.old {
          words = self.old.words ++ word_if (comes x.protocols x.host from onto) (word_at self.old.state from);
        }) }
    {
        let word = self.word(from);
        self.hear(listener.comes(from, onto), word)
    }

    /// What comes to the host where operands are moved to a slot.
    fn hear_operands(
        &mut self,
        listener: &Listener,
        slots: &[SlotId],
        onto: SlotId,
    ) -> Result<(), AllocError>
        ensures { let x = listener.now in OnOk result (self.new ≡ record self.old {
          words = self.old.words ++ map (word_at self.old.state) (filter (λ y. comes x.protocols x.host y onto) slots.now);
        }) }
    {
        for slot in slots {
            self.hear_moved(listener, *slot, onto)?;
        }
        Ok(())
    }

    /// What comes to the host where the element of an array is moved to a slot.
    fn hear_element(
        &mut self,
        listener: &Listener,
        array: SlotId,
        index: SlotId,
        onto: SlotId,
    ) -> Result<(), AllocError>
        ensures { let x = listener.now in OnOk result (self.new ≡ record self.old {
          words = self.old.words ++ right_heard x.protocols x.host onto (Element array index) self.old.state;
        }) }
    {
        let at = self.word(index);
        let element = self.element(array, index);
        self.hear(listener.index_comes(array, index), at)?;
        self.hear(listener.comes(array, onto), element)
    }

    /// What comes to the host where a right side is bound to a slot.
    fn hear_right(
        &mut self,
        listener: &Listener,
        onto: SlotId,
        right: &Right,
    ) -> Result<(), AllocError>
        ensures { let x = listener.now in OnOk result (self.new ≡ record self.old {
          words = self.old.words ++ right_heard x.protocols x.host onto right.now self.old.state;
        }) }
    {
        match right {
            Right::Lit(_) => Ok(()),
            Right::Turn => Ok(()),
            Right::Copy(slot) => self.hear_moved(listener, *slot, onto),
            Right::Apply(_, slots) => self.hear_operands(listener, slots.as_slice(), onto),
            Right::Input(_) => Ok(()),
            Right::Declassify(slot, _) => self.hear_moved(listener, *slot, onto),
            Right::Endorse(slot, _) => self.hear_moved(listener, *slot, onto),
            Right::Load(variable) => self.hear_moved(listener, *variable, onto),
            Right::Get(array, index) => self.hear_element(listener, *array, *index, onto),
        }
    }

    /// The word of a right side, in that turn of the innermost loop.
    fn right(&mut self, right: &Right, turn: u32) -> u32
        ensures word { result ≡ right_word right.now turn self.old.state }
        ensures rest { self.new ≡ record self.old { state = in_world (after_right right.now self.old.state.world) self.old.state } }
    {
        match right {
            Right::Lit(number) => *number,
            Right::Turn => turn,
            Right::Copy(slot) => self.word(*slot),
            Right::Apply(op, slots) => {
                let slots = slots.as_slice();
                combine(
                    *op,
                    self.operand(slots, 0),
                    self.operand(slots, 1),
                    self.operand(slots, 2),
                )
            }
            Right::Input(host) => self.world.input(usize::from(host.0)),
            Right::Declassify(slot, _) => self.word(*slot),
            Right::Endorse(slot, _) => self.word(*slot),
            Right::Load(slot) => self.word(*slot),
            Right::Get(array, index) => self.element(*array, *index),
        }
    }

    /// A right side is bound to a slot.
    fn bind(
        &mut self,
        listener: &Listener,
        slot: SlotId,
        right: &Right,
        turn: u32,
    ) -> Result<(), AllocError>
        ensures { OnOk result (self.new ≡ after (binding listener.now slot right.now) turn self.old) }
    {
        self.hear_right(listener, slot, right)?;
        let word = self.right(right, turn);
        put_word(&mut self.words, usize::from(slot.0), word)
    }

    /// A variable gets the word of a slot.
    fn store(
        &mut self,
        listener: &Listener,
        variable: SlotId,
        slot: SlotId,
    ) -> Result<(), AllocError>
        ensures { OnOk result ((turn : ℕ) → self.new ≡ after (storing listener.now variable slot) turn self.old) }
    {
        self.hear_moved(listener, slot, variable)?;
        let word = self.word(slot);
        put_word(&mut self.words, usize::from(variable.0), word)
    }

    /// An element of an array gets the word of a slot.
    fn write(
        &mut self,
        listener: &Listener,
        array: SlotId,
        index: SlotId,
        slot: SlotId,
    ) -> Result<(), AllocError>
        ensures { OnOk result ((turn : ℕ) → self.new ≡ after (writing listener.now array index slot) turn self.old) }
    {
        let at = self.word(index);
        let word = self.word(slot);
        self.hear(listener.index_comes(array, index), at)?;
        self.hear_moved(listener, slot, array)?;
        put_element(self.alloc, &mut self.arrays, usize::from(array.0), at, word)
    }

    /// An array of zeros.
    fn make(&mut self, array: SlotId, size: u32) -> Result<(), AllocError>
        ensures { (x : Hearer) (turn : ℕ) → OnOk result (self.new ≡ after (making x array size) turn self.old) }
    {
        let words = zeros(self.alloc, size)?;
        put_array(self.alloc, &mut self.arrays, usize::from(array.0), words)
    }

    /// A host is told the word of a slot.
    fn tell(
        &mut self,
        listener: &Listener,
        slot: SlotId,
        host: HostId,
        offset: u32,
    ) -> Result<(), AllocError>
        ensures { OnOk result ((turn : ℕ) → self.new ≡ after (telling listener.now slot host offset) turn self.old) }
    {
        let word = self.word(slot);
        self.hear(listener.is(host) && listener.comes_alone(slot), word)?;
        self.world.output(usize::from(host.0), word)
    }

    /// What comes to the host of the guard of two branches.
    fn hear_guard(
        &mut self,
        listener: &Listener,
        guard: SlotId,
        then_block: &[Stmt],
        else_block: &[Stmt],
    ) -> Result<(), AllocError>
        ensures { OnOk result (self.new ≡ record self.old {
          words = self.old.words ++ guard_heard listener.now guard
              (all_heard listener.now then_block.now) (all_heard listener.now else_block.now) self.old.state;
        }) }
    {
        let word = self.word(guard);
        let comes = listener.is_part(guard, then_block, else_block) && listener.comes_alone(guard);
        self.hear(comes, word)
    }

    /// Executes a statement, in that turn of the innermost loop.
    #[cycle(run)]
    fn statement(&mut self, listener: &Listener, stmt: &Stmt, turn: u32) -> Result<(), AllocError>
        ensures { OnOk result (self.new ≡ after (heard_by listener.now stmt.now) turn self.old) }
    {
        match stmt {
            Stmt::Let(slot, right) => self.bind(listener, *slot, right, turn),
            Stmt::NewVar(variable, slot) => self.store(listener, *variable, *slot),
            Stmt::NewArray(array, size) => self.make(*array, *size),
            Stmt::Store(variable, slot) => self.store(listener, *variable, *slot),
            Stmt::Put(array, index, slot) => self.write(listener, *array, *index, *slot),
            Stmt::Output(slot, host, offset) => self.tell(listener, *slot, *host, *offset),
            Stmt::If(guard, then_block, else_block, _) => {
                let then_block = then_block.as_slice();
                let else_block = else_block.as_slice();
                self.hear_guard(listener, *guard, then_block, else_block)?;
                if self.word(*guard) == 0 {
                    self.block(listener, else_block, turn)
                } else {
                    self.block(listener, then_block, turn)
                }
            }
            Stmt::For(count, body) => {
                for number in 0..*count {
                    self.block(listener, body.as_slice(), number)?;
                }
                Ok(())
            }
        }
    }

    /// Executes statements in order.
    #[cycle(run)]
    fn block(&mut self, listener: &Listener, body: &[Stmt], turn: u32) -> Result<(), AllocError>
        ensures { OnOk result (self.new ≡ after_all (all_heard listener.now body.now) turn self.old) }
    {
        for stmt in body {
            self.statement(listener, stmt, turn)?;
        }
        Ok(())
    }

    /// What came to the host.
    fn into_heard(self) -> Words
        ensures { result ≡ self.entry.words }
    {
        let Run {
            alloc: _,
            words: _,
            arrays: _,
            world: _,
            heard,
        } = self;
        Items::from_vec(heard)
    }
}
