use vd_base::{HostId, Items};
use vd_execution::{Act, Reg};

/// One host's operands of a product that a dealt item masks.
#[derive(Clone, Copy, PartialEq, Eq)]
pub struct Operands {
    pub host: HostId,
    pub x: Reg,
    pub y: Reg,
}

/// One host's part of a word that a dealt pair converts.
#[derive(Clone, Copy, PartialEq, Eq, Debug)]
pub struct Part {
    pub host: HostId,
    pub word: Reg,
}

/// What the next items that two hosts share will hide.
#[derive(Clone, Copy, PartialEq, Eq)]
pub enum Hidden {
    /// The operands of a product of words.
    Product(Operands, Operands),
    /// The operands of a product of bits.
    Bits(Operands, Operands),
    /// A word that goes from exclusive ors to sums.
    Word(Part, Part),
}

/// A step of what hosts do together.
#[derive(Drop)]
pub enum Step {
    /// The next items will hide this.
    Hide(Hidden),
    /// Hosts act.
    Act(Act),
    /// A branch: the guard of each host that takes part, what is done where it is not 0, and what else.
    Branch(Items<(u8, u32)>, Items<Step>, Items<Step>),
    /// A loop of so many turns, with the counter of each host that takes part.
    Loop(Items<(u8, u32)>, u32, Items<Step>),
}
