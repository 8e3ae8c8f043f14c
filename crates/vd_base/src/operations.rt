/// The kind of a value. A `Bool` is the word 0 or 1.
#[derive(Clone, Copy, PartialEq, Eq, Debug)]
pub enum Kind {
    Word,
    Bool,
}

/// An operation on words of 32 bits. A comparison is of unsigned words, and gives 1 where it holds and else 0.
#[derive(Clone, Copy, PartialEq, Eq, Debug)]
pub enum Op {
    Add,
    Sub,
    Mul,
    /// The product with this number.
    Scale(u32),
    /// The quotient; `x / 0` is 0.
    Div,
    /// The remainder; `x % 0` is x.
    Rem,
    And,
    Or,
    Xor,
    /// All bits turned.
    Not,
    /// The lowest bit turned.
    Flip,
    /// Shifted to the left by so many bits.
    Shl(u32),
    /// Shifted to the right by so many bits.
    Shr(u32),
    /// Equal.
    Eq,
    /// Not equal.
    Ne,
    /// Less.
    Lt,
    /// Less or equal.
    Le,
    Min,
    Max,
    /// The second operand where bit 0 of the first is 1, and else the third.
    Mux,
}
