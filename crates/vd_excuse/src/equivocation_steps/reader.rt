//! A reader of joint lines.

ghost use Rattle.std.specs.Prelude.{◌≡◌, ◌++◌, ◌∷◌, [], IfOk, MatchOption, OnOk};
ghost use Rattle.vd_excuse.specs.declared.equivocation_steps.block.Block.{Block as OpenBlock};
ghost use Rattle.vd_excuse.specs.Ahead.{hidden_by_act};
ghost use Rattle.vd_excuse.specs.Reading.{acted, begun, ended, hiding, joined, nothing_read, opened, turned, with_line};

use crate::equivocation_steps::ahead::hidden_before;
use crate::equivocation_steps::block::{Block, Kind};
use std::alloc::{AllocError, Global};
use std::marker::Model;
use std::mem;
use vd_base::Items;
use vd_excuse_walk::Step;
use vd_execution::{Act, Line};

/// The steps of the block that is open, and the blocks around them, the innermost last.
#[derive(Drop)]
pub(crate) struct Reader {
    alloc: Global,
    steps: Items<Step>,
    blocks: Vec<Block>,
}

impl Model for Reader {
    ghost use Rattle.std.specs.Coded.{codes};
    ghost use Rattle.std.specs.Prelude.{reverse};
    ghost use Rattle.vd_excuse_walk.specs.contracts.equivocation_laws.step.Step as step;
    ghost use Rattle.vd_excuse.specs.Reading.{Reading};

    ghost Value = { Reading };

    ghost coded = { Prim.hlevel (codes, step.the_row.coded) };

    ghost view = { λ r. record { steps = r.steps; blocks = reverse r.blocks.items } };
}

/// The same act once more.
fn copied(alloc: Global, act: &Act) -> Result<Act, AllocError>
    ensures { IfOk result (λ copy. copy ≡ act.now) }
{
    match act {
        Act::Do(host, action) => Ok(Act::Do(*host, *action)),
        Act::Msg(from, said, to, heard) => {
            let said = Items::from_slice(alloc, said.as_slice())?;
            let heard = Items::from_slice(alloc, heard.as_slice())?;
            Ok(Act::Msg(*from, said, *to, heard))
        }
    }
}

impl Reader {
    /// Nothing was read.
    pub(crate) fn new(alloc: Global) -> Reader
        ensures { result ≡ nothing_read }
    {
        Reader {
            alloc,
            steps: Items::new(alloc),
            blocks: Vec::new(alloc),
        }
    }

    /// The steps that were read.
    pub(crate) fn into_steps(self) -> Items<Step>
        ensures { result ≡ self.steps }
    {
        let Reader {
            alloc: _,
            steps,
            blocks: _,
        } = self;
        steps
    }

    /// Takes the innermost block off.
    #[tactic(auto, using(crate::proofs::Backward::last_first))]
    fn take_block(&mut self) -> Option<Block>
        ensures { MatchOption result ((self.old.blocks ≡ []) × (self.new ≡ self.old))
            (λ block. self.old ≡ record self.new { blocks = block ∷ self.new.blocks }) }
    {
        self.blocks.pop()
    }

    /// A block is the innermost now.
    #[tactic(auto, using(crate::proofs::Backward::last_first))]
    fn put_block(&mut self, block: Block) -> Result<(), AllocError>
        ensures { OnOk result (self.new ≡ record self.old { blocks = block ∷ self.old.blocks }) }
    {
        self.blocks.push(block)?;
        Ok(())
    }

    /// The steps of this block are others now; answers those that they were.
    fn exchange(&mut self, steps: Items<Step>) -> Items<Step>
        ensures was { result ≡ self.old.steps }
        ensures rest { self.new ≡ record self.old { steps = steps } }
    {
        mem::replace(&mut self.steps, steps)
    }

    /// A block opens at its first host.
    fn begin(&mut self, kind: Kind, part: (u8, u32)) -> Result<(), AllocError>
        ensures { OnOk result (self.new ≡ begun kind part self.old) }
    {
        let mut parts = Items::new(self.alloc);
        parts.push(part)?;
        let before = self.exchange(Items::new(self.alloc));
        self.put_block(Block {
            before,
            parts,
            kind,
            first: None,
            ended: 0,
        })
    }

    /// A block opens at a host.
    fn open(&mut self, kind: Kind, part: (u8, u32)) -> Result<(), AllocError>
        ensures { OnOk result (self.new ≡ opened kind part self.old) }
    {
        match self.take_block() {
            None => self.begin(kind, part),
            Some(block) => self.open_in(block, kind, part),
        }
    }

    /// A block opens at a host, within another or as a part of it.
    fn open_in(&mut self, block: Block, kind: Kind, part: (u8, u32)) -> Result<(), AllocError>
        ensures { OnOk result (self.new ≡ opened kind part (record self.old { blocks = block ∷ self.old.blocks })) }
    {
        if block.joins(kind, &self.steps, part.0) {
            self.join(block, part)
        } else {
            self.put_block(block)?;
            self.begin(kind, part)
        }
    }

    fn join(&mut self, block: Block, part: (u8, u32)) -> Result<(), AllocError>
        ensures { OnOk result (self.new ≡ record self.old { blocks = joined part block ∷ self.old.blocks }) }
    {
        let mut block = block;
        block.join(part)?;
        self.put_block(block)
    }

    /// The other part of a branch begins at a host.
    fn turn(&mut self) -> Result<(), AllocError>
        ensures { OnOk result (self.new ≡ turned self.old) }
    {
        match self.take_block() {
            None => Ok(()),
            Some(block) => self.turn_in(block),
        }
    }

    fn turn_in(&mut self, block: Block) -> Result<(), AllocError>
        ensures { OnOk result (self.new ≡ turned (record self.old { blocks = block ∷ self.old.blocks })) }
    {
        let mut block = block;
        if block.in_first() {
            block.first = Some(self.exchange(Items::new(self.alloc)));
        }
        self.put_block(block)
    }

    /// A block ends at a host.
    fn end(&mut self) -> Result<(), AllocError>
        ensures { OnOk result (self.new ≡ ended self.old) }
    {
        match self.take_block() {
            None => Ok(()),
            Some(block) => self.end_in(block),
        }
    }

    fn end_in(&mut self, block: Block) -> Result<(), AllocError>
        ensures { OnOk result (self.new ≡ ended (record self.old { blocks = block ∷ self.old.blocks })) }
    {
        if block.is_last_end() {
            let last = self.exchange(Items::new(self.alloc));
            let steps = block.closed(self.alloc, last)?;
            self.steps = steps;
            Ok(())
        } else {
            let mut block = block;
            block.ended += 1;
            self.put_block(block)
        }
    }

    fn hide(&mut self, act: &Act, behind: &[Line]) -> Result<(), AllocError>
        ensures { OnOk result (self.new ≡ record self.old { steps = self.old.steps ++ hiding (hidden_by_act act.now behind.now) }) }
    {
        match hidden_before(act, behind) {
            Some(what) => self.steps.push(Step::Hide(what)),
            None => Ok(()),
        }
    }

    /// Hosts act.
    fn act(&mut self, act: &Act, behind: &[Line]) -> Result<(), AllocError>
        ensures { OnOk result (self.new ≡ acted act.now behind.now self.old) }
    {
        self.hide(act, behind)?;
        let copy = copied(self.alloc, act)?;
        self.steps.push(Step::Act(copy))
    }

    /// One more line, and those behind it, of which some tell what a dealt item hides.
    pub(crate) fn line(&mut self, line: &Line, behind: &[Line]) -> Result<(), AllocError>
        ensures { OnOk result (self.new ≡ with_line line.now behind.now self.old) }
    {
        match line {
            Line::Act(act) => self.act(act, behind),
            Line::If(host, guard) => self.open(Kind::Branch, (host.0, guard.0)),
            Line::Else(_) => self.turn(),
            Line::For(host, counter, count) => self.open(Kind::Loop(*count), (host.0, counter.0)),
            Line::End(_) => self.end(),
        }
    }
}
