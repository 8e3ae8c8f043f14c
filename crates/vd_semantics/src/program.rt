//! The meaning of a let-normal program, computed.

ghost use Rattle.std.specs.Prelude.{◌≡◌, OnOk, IfOk, map, slice_index};
ghost use Rattle.vd_semantics.specs.ProgramMeaning.{word_at, array_at, right_word, after_right, in_world, effect, block_effect, state_at_start, program_outputs};

use crate::stores::{put_array, put_element, put_word, zeros};
use crate::world::World;
use std::alloc::{AllocError, Global};
use std::marker::Model;
use vd_base::{Inputs, Outputs, SlotId, Words, combine};
use vd_core::{NormalForm, Right, Stmt};

/// The outputs of a let-normal program to each host. The inputs of a host are followed by zeros.
pub fn clear_core(
    alloc: Global,
    program: &NormalForm,
    inputs: &Inputs,
) -> Result<Outputs, AllocError>
    ensures { IfOk result (λ outputs. outputs ≡ program_outputs program.now inputs.now) }
{
    let world = World::at_start(alloc, program.hosts.as_slice().len(), inputs)?;
    let mut run = ProgramRun {
        alloc,
        words: Vec::new(alloc),
        arrays: Vec::new(alloc),
        world,
    };
    run.block(program.body.as_slice(), 0)?;
    let ProgramRun {
        alloc: _,
        words: _,
        arrays: _,
        world,
    } = run;
    Ok(world.into_outputs())
}

/// The words of bindings and variables and the lists of arrays, by slot, and the world outside.
#[derive(Drop)]
struct ProgramRun<'a> {
    alloc: Global,
    words: Vec<u32>,
    arrays: Vec<Words>,
    world: World<'a>,
}

impl<'a> Model for ProgramRun<'a> {
    ghost use Rattle.vd_semantics.specs.ProgramMeaning.{SlotState};

    ghost Value = { SlotState };

    ghost view = { λ run. record { words = run.words.items; arrays = run.arrays.items; world = run.world } };
}

impl<'a> ProgramRun<'a> {
    fn word(&self, slot: SlotId) -> u32
        ensures { result ≡ word_at self.now slot }
    {
        self.words.get(usize::from(slot.0)).copied().unwrap_or(0)
    }

    fn operand(&self, slots: &[SlotId], at: usize) -> u32
        ensures { result ≡ slice_index (map (word_at self.now) slots.now) at }
    {
        match slots.get(at) {
            Some(slot) => self.word(*slot),
            None => 0,
        }
    }

    fn element(&self, array: SlotId, index: SlotId) -> u32
        ensures { result ≡ slice_index (array_at self.now array) (word_at self.now index) }
    {
        let index = self.word(index) as usize;
        match self.arrays.get(usize::from(array.0)) {
            Some(words) => words.as_slice().get(index).copied().unwrap_or(0),
            None => 0,
        }
    }

    /// The word of a right side, in that turn of the innermost loop.
    fn right(&mut self, right: &Right, turn: u32) -> u32
        ensures word { result ≡ right_word right.now turn self.old }
        ensures rest { self.new ≡ in_world (after_right right.now self.old.world) self.old }
    {
        match right {
            Right::Lit(number) => *number,
            Right::Turn => turn,
            Right::Copy(slot) => self.word(*slot),
            Right::Apply(op, slots) => {
                let slots = slots.as_slice();
                combine(
                    *op,
                    self.operand(slots, 0),
                    self.operand(slots, 1),
                    self.operand(slots, 2),
                )
            }
            Right::Input(host) => self.world.input(usize::from(host.0)),
            Right::Declassify(slot, _) => self.word(*slot),
            Right::Endorse(slot, _) => self.word(*slot),
            Right::Load(slot) => self.word(*slot),
            Right::Get(array, index) => self.element(*array, *index),
        }
    }

    /// Executes a statement, in that turn of the innermost loop.
    #[cycle(run)]
    fn statement(&mut self, stmt: &Stmt, turn: u32) -> Result<(), AllocError>
        ensures { OnOk result (self.new ≡ effect stmt.now turn self.old) }
    {
        match stmt {
            Stmt::Let(slot, right) => {
                let word = self.right(right, turn);
                put_word(&mut self.words, usize::from(slot.0), word)
            }
            Stmt::NewVar(variable, slot) => {
                let word = self.word(*slot);
                put_word(&mut self.words, usize::from(variable.0), word)
            }
            Stmt::NewArray(array, size) => {
                let words = zeros(self.alloc, *size)?;
                put_array(self.alloc, &mut self.arrays, usize::from(array.0), words)
            }
            Stmt::Store(variable, slot) => {
                let word = self.word(*slot);
                put_word(&mut self.words, usize::from(variable.0), word)
            }
            Stmt::Put(array, index, slot) => {
                let index = self.word(*index);
                let word = self.word(*slot);
                put_element(
                    self.alloc,
                    &mut self.arrays,
                    usize::from(array.0),
                    index,
                    word,
                )
            }
            Stmt::Output(slot, host, _) => {
                let word = self.word(*slot);
                self.world.output(usize::from(host.0), word)
            }
            Stmt::If(guard, then_block, else_block, _) => {
                if self.word(*guard) == 0 {
                    self.block(else_block.as_slice(), turn)
                } else {
                    self.block(then_block.as_slice(), turn)
                }
            }
            Stmt::For(count, body) => {
                for number in 0..*count {
                    self.block(body.as_slice(), number)?;
                }
                Ok(())
            }
        }
    }

    /// Executes statements in order.
    #[cycle(run)]
    fn block(&mut self, body: &[Stmt], turn: u32) -> Result<(), AllocError>
        ensures { OnOk result (self.new ≡ block_effect body.now turn self.old) }
    {
        for stmt in body {
            self.statement(stmt, turn)?;
        }
        Ok(())
    }
}
