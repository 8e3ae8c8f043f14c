ghost use Rattle.std.specs.Prelude.{◌≡◌, ◌<◌, length, IfOk};
ghost use Rattle.vd_source_lexer.specs.Grammar.{Sym};
ghost use Rattle.vd_source_lexer.specs.declared.token.TokenKind.TheVariants as kind;
ghost use Rattle.vd_parser.specs.Language.{tok, commas, typed_rule, KIND};
ghost use Rattle.vd_parser.specs.Syntax.{word_at, ident_of, idents_of, kind_of, typed_of};
ghost use Rattle.vd_parser.specs.Parsing.{Parses};

use crate::cursor::{Cursor, Refusal};
use std::alloc::Global;
use vd_base::{Items, Kind, Span};
use vd_core::Ident;
use vd_source_lexer::TokenKind;

/// Reads the parts of a source, each by a method, from the tokens that a cursor has.
#[derive(Drop)]
pub(crate) struct Parser<'a> {
    pub alloc: Global,
    /// The bytes of the source, in which the names stand.
    pub text: &'a [u8],
}

impl<'a> Parser<'a> {
    /// The bytes of a span.
    #[tactic(auto, using(std::proofs::lemmas::List::take_min, std::proofs::lemmas::List::drop_min))]
    fn bytes_at(&self, span: Span) -> &'a [u8]
        ensures { result.now ≡ word_at self.now.text.now span }
    {
        let start = (span.start as usize).min(self.text.len());
        let rest = &self.text[start..];
        let len = (span.end.saturating_sub(span.start) as usize).min(rest.len());
        &rest[..len]
    }

    /// NAME
    pub fn ident(&self, cursor: &mut Cursor) -> Result<Ident, Refusal>
        ensures tree { Parses (tok kind.Name) (ident_of self.now.text.now) cursor.old cursor.new result }
        ensures shorter { IfOk result (λ _. length cursor.new < length cursor.old) }
    {
        let token = cursor.expect(TokenKind::Name)?;
        let name = Items::from_slice(self.alloc, self.bytes_at(token.span))?;
        Ok(Ident {
            name,
            span: token.span,
        })
    }

    /// NAME {"," NAME}
    pub(crate) fn idents(&self, cursor: &mut Cursor) -> Result<Items<Ident>, Refusal>
        ensures { Parses (commas (tok kind.Name)) (idents_of self.now.text.now) cursor.old cursor.new result }
    {
        let mut names = Items::new(self.alloc);
        let first = self.ident(cursor)?;
        names.push(first)?;
        'rest: while cursor.is(TokenKind::Comma) {
            let _comma = cursor.advance();
            let name = self.ident(cursor)?;
            names.push(name)?;
        }
        Ok(names)
    }

    /// "word" | "bool"
    pub fn kind(&self, cursor: &mut Cursor) -> Result<Kind, Refusal>
        ensures { Parses (Sym KIND) kind_of cursor.old cursor.new result }
    {
        if cursor.is(TokenKind::Word) {
            cursor.expect(TokenKind::Word)?;
            Ok(Kind::Word)
        } else {
            cursor.expect(TokenKind::Bool)?;
            Ok(Kind::Bool)
        }
    }

    /// NAME ":" kind
    pub(crate) fn typed(&self, cursor: &mut Cursor) -> Result<(Ident, Kind), Refusal>
        ensures { Parses typed_rule (typed_of self.now.text.now) cursor.old cursor.new result }
    {
        let name = self.ident(cursor)?;
        cursor.expect(TokenKind::Colon)?;
        let kind = self.kind(cursor)?;
        Ok((name, kind))
    }
}
