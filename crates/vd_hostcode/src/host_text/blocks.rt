//! Which lines may come next: the blocks that are open, and instructions on arrays.

ghost use Rattle.std.specs.Prelude.{◌≡◌, OnOk};
ghost use Rattle.vd_hostcode.specs.Lines as lines;

use crate::host_text::words::Word;
use std::alloc::{AllocError, Global};
use std::marker::Model;
use vd_base::Items;

/// An open block.
#[derive(Clone, Copy, PartialEq, Eq)]
pub enum Block {
    /// The first part of a branch, which `else` closes.
    First,
    /// The other part of a branch, or a loop, which `end` closes.
    Last,
}

/// Whether instructions on arrays may come.
#[derive(Clone, Copy, PartialEq, Eq)]
pub enum Arrays {
    /// None may come, in a text of the first version.
    Never,
    /// One must come before the program ends, in a text of the second version.
    Owed,
    /// One has come.
    Free,
}

/// What is known of the lines before the next one.
#[derive(Drop)]
pub(crate) struct Outline {
    arrays: Arrays,
    blocks: Items<Block>,
}

impl Model for Outline {
    ghost use Rattle.std.specs.Prelude.{reverse};
    ghost use Rattle.vd_hostcode.specs.Lines.{State};

    ghost Value = { State };

    ghost view = { λ outline. record { arrays = outline.arrays; blocks = reverse outline.blocks } };
}

impl Outline {
    /// Nothing stands before.
    pub fn new(alloc: Global, arrays: Arrays) -> Outline
        ensures { result ≡ lines.start arrays }
    {
        Outline {
            arrays,
            blocks: Items::new(alloc),
        }
    }

    /// The innermost block.
    #[tactic(auto, using(crate::proofs::OpenBlocks::last_is))]
    fn innermost(&self) -> Option<Block>
        ensures { result ≡ lines.innermost self.now.blocks }
    {
        self.blocks.as_slice().last().copied()
    }

    /// One more block opens.
    #[tactic(auto, using(crate::proofs::OpenBlocks::entered))]
    fn enter(&mut self, block: Block) -> Result<(), AllocError>
        ensures { OnOk result (self.new ≡ lines.within block self.old) }
    {
        self.blocks.push(block)
    }

    /// The innermost block closes, if there is one.
    #[tactic(auto, using(crate::proofs::OpenBlocks::left))]
    fn leave(&mut self)
        ensures { self.new ≡ lines.outside self.old }
    {
        self.blocks.pop();
    }

    /// Whether `else` may come.
    fn allows_else(&self) -> bool
        ensures { result ≡ lines.may_else self.now.blocks }
    {
        self.innermost() == Some(Block::First)
    }

    /// Whether `end` may come.
    fn allows_end(&self) -> bool
        ensures { result ≡ lines.may_end self.now.arrays self.now.blocks }
    {
        match self.innermost() {
            None => self.arrays != Arrays::Owed,
            Some(block) => block == Block::Last,
        }
    }

    /// Whether a line with this word may come.
    pub fn allows(&self, word: Word) -> bool
        ensures { result ≡ lines.allows self.now word }
    {
        match word {
            Word::Else => self.allows_else(),
            Word::End => self.allows_end(),
            Word::Zero | Word::Get | Word::Put => self.arrays != Arrays::Never,
            _ => true,
        }
    }

    /// Whether a line with this word ends the program.
    pub fn is_last(&self, word: Word) -> bool
        ensures { result ≡ lines.is_last self.now word }
    {
        match word {
            Word::End => self.innermost().is_none(),
            _ => false,
        }
    }

    /// A line with this word comes.
    pub(crate) fn pass(&mut self, word: Word) -> Result<(), AllocError>
        ensures { OnOk result (self.new ≡ lines.after self.old word) }
    {
        match word {
            Word::If => self.enter(Block::First),
            Word::For => self.enter(Block::Last),
            Word::Else => {
                self.leave();
                self.enter(Block::Last)
            }
            Word::End => {
                self.leave();
                Ok(())
            }
            Word::Zero | Word::Get | Word::Put => {
                self.arrays = Arrays::Free;
                Ok(())
            }
            _ => Ok(()),
        }
    }
}
