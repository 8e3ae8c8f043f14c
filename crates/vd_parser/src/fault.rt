use thiserror::Error;

/// Why bytes have no tree. Offsets count bytes from the front of the text; its end stands at its length.
#[derive(Clone, Copy, PartialEq, Eq, Debug, Error)]
pub enum ParseFault {
    /// The first byte outside white space and comments that starts no token.
    #[error("bad byte at {0}")]
    BadByte(u32),
    /// The number of the first token that no source goes on with, and its offset. The end of the text is a token.
    #[error("unexpected token at {1}")]
    Unexpected(u32, u32),
    /// The offset of the token that opens a 65th bracket.
    #[error("nesting at {0}")]
    TooDeep(u32),
    /// The length of a text that is longer than a source may be.
    #[error("{0} bytes are too long for a source")]
    TooLong(u64),
    /// There was no memory for the tokens or for the tree.
    #[error("out of memory")]
    Memory,
}
