ghost use Rattle.std.specs.Prelude.{◌≡◌, ◌≢◌, ◌<◌, ◌∷◌, length, nat_eq, IfOk};
ghost use Rattle.vd_source_lexer.specs.Kinds.{code_of};
ghost use Rattle.vd_parser.specs.Language.{tok};
ghost use Rattle.vd_parser.specs.Syntax.{token_of};
ghost use Rattle.vd_parser.specs.Parsing.{kind_at, next_kind, Parses};
ghost use Rattle.vd_parser.specs.declared.cursor.Refusal.TheVariants as refusal;

use std::alloc::{AllocError, AllocFailed};
use std::marker::Model;
use vd_source_lexer::{Token, TokenKind};

/// Why there is no tree; where, the cursor tells.
#[derive(Drop)]
pub(crate) enum Refusal {
    Unexpected,
    Memory,
}

impl From<AllocError> for Refusal {
    ghost from_gives = { λ _ refused. refused ≡ refusal.Memory };

    fn from(_: AllocError) -> Refusal {
        Refusal::Memory
    }
}

impl<T: Drop> From<AllocFailed<T>> for Refusal {
    ghost from_gives = { λ _ refused. refused ≡ refusal.Memory };

    fn from(_: AllocFailed<T>) -> Refusal {
        Refusal::Memory
    }
}

/// The tokens that are still to be read. The end of the text is none of them.
#[derive(Drop)]
pub(crate) struct Cursor<'a> {
    left: &'a [Token],
}

impl<'a> Model for Cursor<'a> {
    ghost use Rattle.std.specs.Prelude.{List};
    ghost use Rattle.vd_source_lexer.specs.declared.token.Token.{Token};

    ghost Value = { List Token };

    ghost view = { λ cursor. cursor.left.now };
}

impl<'a> Cursor<'a> {
    /// All these tokens are still to be read.
    pub fn new(tokens: &'a [Token]) -> Cursor<'a>
        ensures { result ≡ tokens.now }
    {
        Cursor { left: tokens }
    }

    /// How many tokens are still to be read.
    pub fn len(&self) -> usize
        ensures { result ≡ length self.now }
    {
        self.left.len()
    }

    /// The kind of the next token.
    pub fn kind(&self) -> TokenKind
        ensures { result ≡ kind_at self.now }
    {
        match self.left.first() {
            Some(token) => token.kind,
            None => TokenKind::End,
        }
    }

    /// Whether the next token is of this kind.
    pub fn is(&self, kind: TokenKind) -> bool
        ensures { result ≡ nat_eq (next_kind self.now) (code_of kind) }
    {
        self.kind().code() == kind.code()
    }

    /// Takes the next token.
    pub(crate) fn advance(&mut self) -> Token
        requires { 0 < length self.old }
        ensures { self.old ≡ result ∷ self.new }
    {
        let token = self.left[0];
        self.left = &self.left[1..];
        token
    }

    /// Takes the next token, if it is of this kind.
    pub(crate) fn expect(&mut self, kind: TokenKind) -> Result<Token, Refusal>
        requires { code_of kind ≢ 0 }
        ensures token { Parses (tok kind) token_of self.old self.new result }
        ensures shorter { IfOk result (λ _. length self.new < length self.old) }
    {
        if self.is(kind) {
            Ok(self.advance())
        } else {
            Err(Refusal::Unexpected)
        }
    }
}
