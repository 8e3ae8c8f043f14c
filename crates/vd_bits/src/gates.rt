/// A gate of a circuit. It makes one more word of words that are there, by their places: the operands come first, and then
/// what the gates before it made.
#[derive(Clone, Copy, PartialEq, Eq)]
pub enum Gate {
    /// The words at two places, bit by bit.
    And(usize, usize),
    /// The exclusive or of the words at two places.
    Xor(usize, usize),
    /// So many bits to the left, of the word at a place.
    Shl(u32, usize),
    /// So many bits to the right, of the word at a place.
    Shr(u32, usize),
    /// All bits turned.
    Not(usize),
    /// The lowest bit turned.
    Flip(usize),
    /// The lowest bit alone.
    Lowest(usize),
    /// All bits as the lowest.
    Mask(usize),
}
