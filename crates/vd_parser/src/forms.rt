ghost use Rattle.std.specs.Prelude.{◌≡◌, ◌<◌, length, IfOk};
ghost use Rattle.vd_source_lexer.specs.Grammar.{Sym, optional};
ghost use Rattle.vd_parser.specs.Language.{LABEL, FORM, CONJ, FATOM};
ghost use Rattle.vd_parser.specs.Syntax.{either_of, both_of, form_of, conj_of, fatom_of, label_of, label_option_of};
ghost use Rattle.vd_parser.specs.Parsing.{Parses};

use crate::cursor::{Cursor, Refusal};
use crate::parser::Parser;
use std::alloc::AllocError;
use vd_base::Items;
use vd_core::{WrittenForm, WrittenLabel};
use vd_source_lexer::TokenKind;

/// A part alone is itself.
fn either(first: WrittenForm, mut rest: Items<WrittenForm>) -> Result<WrittenForm, AllocError>
    ensures { IfOk result (λ form. form ≡ either_of first rest) }
{
    if rest.is_empty() {
        Ok(first)
    } else {
        rest.put_first(first)?;
        Ok(WrittenForm::Either(rest))
    }
}

/// A part alone is itself.
fn both(first: WrittenForm, mut rest: Items<WrittenForm>) -> Result<WrittenForm, AllocError>
    ensures { IfOk result (λ form. form ≡ both_of first rest) }
{
    if rest.is_empty() {
        Ok(first)
    } else {
        rest.put_first(first)?;
        Ok(WrittenForm::Both(rest))
    }
}

impl<'a> Parser<'a> {
    /// conj {"|" conj}
    #[cycle(form)]
    pub fn form(&self, cursor: &mut Cursor) -> Result<WrittenForm, Refusal>
        ensures { Parses (Sym FORM) (form_of self.now.text.now) cursor.old cursor.new result }
    {
        let first = self.conj(cursor)?;
        let mut rest = Items::new(self.alloc);
        'parts: while cursor.is(TokenKind::Pipe) {
            let _pipe = cursor.advance();
            let part = self.conj(cursor)?;
            rest.push(part)?;
        }
        let form = either(first, rest)?;
        Ok(form)
    }

    /// fatom {"&" fatom}
    #[cycle(form)]
    fn conj(&self, cursor: &mut Cursor) -> Result<WrittenForm, Refusal>
        ensures { Parses (Sym CONJ) (conj_of self.now.text.now) cursor.old cursor.new result }
    {
        let first = self.fatom(cursor)?;
        let mut rest = Items::new(self.alloc);
        'parts: while cursor.is(TokenKind::Ampersand) {
            let _ampersand = cursor.advance();
            let part = self.fatom(cursor)?;
            rest.push(part)?;
        }
        let form = both(first, rest)?;
        Ok(form)
    }

    /// "any" | "none" | NAME | "(" form ")"
    #[cycle(form)]
    fn fatom(&self, cursor: &mut Cursor) -> Result<WrittenForm, Refusal>
        ensures { Parses (Sym FATOM) (fatom_of self.now.text.now) cursor.old cursor.new result }
    {
        if cursor.is(TokenKind::Any) {
            cursor.expect(TokenKind::Any)?;
            Ok(WrittenForm::Any)
        } else if cursor.is(TokenKind::Nothing) {
            cursor.expect(TokenKind::Nothing)?;
            Ok(WrittenForm::Never)
        } else if cursor.is(TokenKind::Name) {
            let name = self.ident(cursor)?;
            Ok(WrittenForm::Name(name))
        } else {
            cursor.expect(TokenKind::OpenParen)?;
            let form = self.form(cursor)?;
            cursor.expect(TokenKind::CloseParen)?;
            Ok(form)
        }
    }

    /// "{" form ";" form "}": confidentiality, then integrity.
    pub fn label(&self, cursor: &mut Cursor) -> Result<WrittenLabel, Refusal>
        ensures { Parses (Sym LABEL) (label_of self.now.text.now) cursor.old cursor.new result }
    {
        cursor.expect(TokenKind::OpenBrace)?;
        let conf = self.form(cursor)?;
        cursor.expect(TokenKind::Semicolon)?;
        let integ = self.form(cursor)?;
        cursor.expect(TokenKind::CloseBrace)?;
        Ok(WrittenLabel { conf, integ })
    }

    /// [label]
    pub(crate) fn label_option(&self, cursor: &mut Cursor) -> Result<Option<WrittenLabel>, Refusal>
        ensures { Parses (optional (Sym LABEL)) (label_option_of self.now.text.now) cursor.old cursor.new result }
    {
        if cursor.is(TokenKind::OpenBrace) {
            let label = self.label(cursor)?;
            Ok(Some(label))
        } else {
            Ok(None)
        }
    }
}
