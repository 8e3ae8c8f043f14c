ghost use Rattle.std.specs.Prelude.{◌≡◌};
ghost use Rattle.vd_source_lexer.specs.Kinds.{code_of};
ghost use Rattle.vd_source_lexer.specs.declared.token.LexFault.TheVariants as lex_fault;

use std::alloc::AllocError;
use thiserror::Error;
use vd_base::Span;

/// What a token is.
#[derive(Clone, Copy, PartialEq, Eq)]
pub enum TokenKind {
    /// The end of the text, which is the last token and stands nowhere else.
    End,
    /// A name: the bytes of its span.
    Name,
    /// A decimal number of at most 32 bits.
    Number,
    Principals,
    Host,
    Fun,
    Return,
    Main,
    Let,
    Var,
    If,
    Else,
    For,
    To,
    Output,
    Input,
    Declassify,
    Endorse,
    Word,
    Bool,
    True,
    False,
    Min,
    Max,
    Mux,
    Any,
    /// The keyword `none`.
    Nothing,
    All,
    Array,
    EqualEqual,
    NotEqual,
    LessEqual,
    GreaterEqual,
    ShiftLeft,
    ShiftRight,
    Assign,
    OpenBrace,
    CloseBrace,
    OpenParen,
    CloseParen,
    OpenBracket,
    CloseBracket,
    Semicolon,
    Colon,
    Comma,
    Equal,
    Plus,
    Minus,
    Star,
    Slash,
    Percent,
    Ampersand,
    Pipe,
    Caret,
    Bang,
    Tilde,
    Less,
    Greater,
}

impl TokenKind {
    /// The place of the kind in the list of kinds, `End` being the first.
    pub fn code(self) -> u8
        ensures { result ≡ code_of self }
    {
        self as u8
    }
}

/// A token and where it stands in its text.
#[derive(Clone, Copy, PartialEq, Eq)]
pub struct Token {
    pub kind: TokenKind,
    pub span: Span,
    /// The value of a number; 0 at all other kinds.
    pub value: u32,
}

/// Why a text has no tokens.
#[derive(Clone, Copy, PartialEq, Eq, Debug, Error)]
pub enum LexFault {
    /// No token begins with the byte at this offset, which is outside white space and comments.
    #[error("bad byte at {0}")]
    BadByte(u32),
    /// There was no memory for the tokens.
    #[error("out of memory")]
    Memory,
}

impl From<AllocError> for LexFault {
    ghost from_gives = { λ _ fault. fault ≡ lex_fault.Memory };

    fn from(_: AllocError) -> LexFault {
        LexFault::Memory
    }
}
