//! What a row of a drawing is.

use vd_base::{Bytes, Items, Proto, SlotId};

/// How a word goes from one protocol to another: what leaves a host.
#[derive(Clone, Copy, PartialEq, Eq)]
pub enum Arrow {
    /// The word itself.
    Clear,
    /// The word from each host that has a copy, and it is compared.
    Checked,
    /// A part of the word, from each host that has one, so that it can be read.
    Opened,
    /// A word that was committed, with what its digest is checked by.
    Revealed,
    /// A random word, so that two hosts share the word.
    Shared,
    /// A digest.
    Committed,
    /// What is exchanged between sums and bits.
    Converted,
    /// Nothing.
    Stays,
}

/// A word that is moved.
#[derive(Clone, Copy, PartialEq, Eq)]
pub struct Move {
    /// The slot whose word, or whose element, it is.
    pub slot: SlotId,
    pub from: Proto,
    pub to: Proto,
    /// What it costs, once.
    pub cost: u32,
}

/// What a row tells.
#[derive(Clone, Copy, PartialEq, Eq, Debug)]
pub enum Kind {
    /// A slot is bound to a word.
    Binding,
    /// A variable or an array is made.
    Variable,
    /// A word is stored in a variable or an array.
    Store,
    /// A word is told to a host.
    Output,
    /// A branch begins: the rows behind it that are deeper stand in it.
    Branch,
    /// The other block of a branch begins, which stands one deeper than the branch.
    Otherwise,
    /// A loop begins: the rows behind it that are deeper stand in it.
    Loop,
}

/// A line of the source, from the statement on that a row tells.
#[derive(Drop)]
pub struct Line {
    /// Its number, from 1.
    pub number: usize,
    /// Without its comment, and with a blank for each byte that is no printable letter.
    pub text: Bytes,
}

/// A row: a statement, or the beginning of a block.
#[derive(Drop)]
pub struct Row {
    pub kind: Kind,
    /// In how many blocks it stands: 1 for that of the whole program.
    pub depth: u32,
    /// Where its statement begins in the source: of a branch and of a word that is told.
    pub offset: Option<u32>,
    /// The slot that it makes.
    pub slot: Option<SlotId>,
    /// The line of the source that says it, unless it says no more than the row.
    pub line: Option<Line>,
    /// Where the word stands that it makes, stores or tells.
    pub at: Option<Proto>,
    /// What it does.
    pub text: Bytes,
    /// The words that are moved for it, in order.
    pub moves: Items<Move>,
    /// Whether all of these but the last are the index of an element.
    pub indexed: bool,
    /// Whether it is drawn alone: an input, or the number of a loop's turn.
    pub alone: bool,
    /// What its operation costs, once.
    pub operation: u32,
    /// How often it is done.
    pub weight: u32,
}
