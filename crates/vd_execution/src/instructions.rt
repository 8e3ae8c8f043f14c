use vd_base::{HostId, Items};

/// A register of one host. A register that was never written holds 0.
#[derive(Clone, Copy, PartialEq, Eq, Debug)]
pub struct Reg(pub u32);

/// An operation on the words of two registers.
#[derive(Clone, Copy, PartialEq, Eq, Debug)]
pub enum Binary {
    Add,
    Sub,
    Mul,
    Div,
    Rem,
    And,
    Or,
    Xor,
    Eq,
    Ne,
    Lt,
    Le,
    Min,
    Max,
}

/// What one host does by itself.
#[derive(Clone, Copy, PartialEq, Eq, Debug)]
pub enum Action {
    /// A register gets a word.
    Const(Reg, u32),
    /// A register gets another's word.
    Copy(Reg, Reg),
    /// A register gets what an operation gives of two.
    Apply(Binary, Reg, Reg, Reg),
    /// A register gets another's word shifted to the left.
    Shl(Reg, Reg, u32),
    /// A register gets another's word shifted to the right.
    Shr(Reg, Reg, u32),
    /// A register gets the third's word where bit 0 of the second is 1, and else the fourth's.
    Mux(Reg, Reg, Reg, Reg),
    /// A register gets the next own random word.
    Own(Reg),
    /// Three registers get the next multiplication triple shared with a peer.
    Triple(HostId, Reg, Reg, Reg),
    /// Three registers get the next bit triple shared with a peer.
    Bits(HostId, Reg, Reg, Reg),
    /// Two registers get the next conversion pair shared with a peer.
    Pair(HostId, Reg, Reg),
    /// A register gets the next input.
    Input(Reg),
    /// A register's word is printed.
    Print(Reg),
    /// Eight registers get the digest of a nonce, in eight registers, and a value.
    Hash(Reg, Reg, Reg),
    /// Two registers hold the same word.
    Same(Reg, Reg),
    /// So many registers from one on get 0.
    Zero(Reg, u32),
    /// A register gets the cell of an array, which is so many registers from one on, at the index that a register holds.
    Get(Reg, Reg, u32, Reg),
    /// The cell of an array at the index that a register holds gets a register's word.
    Put(Reg, u32, Reg, Reg),
}

/// An instruction of a host's code, in text order.
#[derive(Debug, Drop)]
pub enum Instr {
    /// The host acts by itself.
    Do(Action),
    /// The words of registers go to a peer as one packet.
    Send(HostId, Items<Reg>),
    /// Registers get the words of the next packet from a peer.
    Recv(HostId, Items<Reg>),
    /// A branch opens: what follows up to its `Else` where the register is not 0, and else from there to its `End`.
    If(Reg),
    /// The other part of a branch begins.
    Else,
    /// A loop opens: what follows up to its `End` so many times, the register counting the turns from 0.
    For(Reg, u32),
    /// A branch or a loop ends.
    End,
}

/// What hosts do together: one acts by itself, or one sends a packet that another then receives.
#[derive(Debug, Drop)]
pub enum Act {
    /// A host acts by itself.
    Do(HostId, Action),
    /// The first host sends the words of its registers, and the second receives them into as many of its own.
    Msg(HostId, Items<Reg>, HostId, Items<Reg>),
}

/// A line of joint code: an act, or a mark of a block at one host that takes part in it.
#[derive(Debug, Drop)]
pub enum Line {
    /// What hosts do.
    Act(Act),
    /// A branch opens, on a register.
    If(HostId, Reg),
    /// The other part of a branch begins.
    Else(HostId),
    /// A loop opens, which counts its turns in a register.
    For(HostId, Reg, u32),
    /// A branch or a loop ends.
    End(HostId),
}
