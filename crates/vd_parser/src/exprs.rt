ghost use Rattle.std.specs.Prelude.{◌≡◌, ◌≢◌, length, IfOk};
ghost use Rattle.vd_source_lexer.specs.Grammar.{Sym};
ghost use Rattle.vd_source_lexer.specs.Kinds.{code_of};
ghost use Rattle.vd_parser.specs.Language.{EXPR, SHIFT, UNARY, ATOM, commas, word_atom_rule, other_atom_rule, named_rule, arguments_rule, index_rule, two_rule, three_rule, relabel_rule, host_rule};
ghost use Rattle.vd_parser.specs.Syntax.{bracketed, is_bracketed, chained, expr_of, shift_of, unary_of, atom_of, word_atom_of, other_atom_of, named_of, arguments_of, exprs_of, between_of, two_of, three_of, relabelled_of, host_name_of};
ghost use Rattle.vd_parser.specs.Levels.{symbol_of, operand_symbol, level_of, operand_of};
ghost use Rattle.vd_parser.specs.Parsing.{Parses};

use crate::cursor::{Cursor, Refusal};
use crate::operators::{Level, comparison, direction, infix};
use crate::parser::Parser;
use std::alloc::AllocError;
use vd_base::{Boxed, Items};
use vd_core::{Expr, Ident, Segment, WrittenForm};
use vd_source_lexer::TokenKind;

/// Whether an expression stands in brackets.
fn is_bracketed(expr: &Expr) -> bool
    ensures { result ≡ is_bracketed expr.now }
{
    match expr {
        Expr::Brackets(_) => true,
        Expr::Number(_)
        | Expr::Truth(_)
        | Expr::Value(_)
        | Expr::Element(_, _)
        | Expr::Input(_)
        | Expr::Call(_, _)
        | Expr::Min(_, _, _)
        | Expr::Max(_, _, _)
        | Expr::Mux(_, _, _, _)
        | Expr::Declassify(_, _)
        | Expr::Endorse(_, _)
        | Expr::Unary(_, _)
        | Expr::Chain(_, _) => false,
    }
}

/// An expression in brackets. What stands in brackets already gets no others.
fn bracketed(value: Boxed<Expr>) -> Expr
    ensures { result ≡ bracketed value }
{
    if is_bracketed(&value) {
        value.into_inner()
    } else {
        Expr::Brackets(value)
    }
}

impl<'a> Parser<'a> {
    /// An operand alone is itself.
    fn chained(&self, operand: Expr, segments: Items<Segment>) -> Result<Expr, AllocError>
        ensures { IfOk result (λ expr. expr ≡ chained operand segments) }
    {
        if segments.is_empty() {
            Ok(operand)
        } else {
            let operand = Boxed::new(self.alloc, operand)?;
            Ok(Expr::Chain(operand, segments))
        }
    }

    /// Operands with a comparison between them, or one alone.
    #[cycle(expr)]
    pub fn expr(&self, cursor: &mut Cursor) -> Result<Expr, Refusal>
        ensures { Parses (Sym EXPR) (expr_of self.now.text.now) cursor.old cursor.new result }
    {
        let left = self.chain(cursor, Level::Or)?;
        if let Some(op) = comparison(cursor.kind()) {
            let token = cursor.advance();
            let right = self.chain(cursor, Level::Or)?;
            let mut segments = Items::new(self.alloc);
            segments.push(Segment::Infix(op, token.span, right))?;
            let left = Boxed::new(self.alloc, left)?;
            Ok(Expr::Chain(left, segments))
        } else {
            Ok(left)
        }
    }

    #[cycle(expr)]
    fn boxed(&self, cursor: &mut Cursor) -> Result<Boxed<Expr>, Refusal>
        ensures { Parses (Sym EXPR) (expr_of self.now.text.now) cursor.old cursor.new result }
    {
        let expr = self.expr(cursor)?;
        let boxed = Boxed::new(self.alloc, expr)?;
        Ok(boxed)
    }

    /// Operands with a level's operators between them.
    #[cycle(expr)]
    fn chain(&self, cursor: &mut Cursor, level: Level) -> Result<Expr, Refusal>
        ensures { Parses (Sym (symbol_of level)) (level_of level self.now.text.now) cursor.old cursor.new result }
    {
        let first = self.operand(cursor, level)?;
        let mut segments = Items::new(self.alloc);
        'segments: while let Some(op) = infix(level, cursor.kind()) {
            let token = cursor.advance();
            let right = self.operand(cursor, level)?;
            segments.push(Segment::Infix(op, token.span, right))?;
        }
        let expr = self.chained(first, segments)?;
        Ok(expr)
    }

    /// An operand of a level, which is of the next tighter one.
    #[cycle(expr)]
    fn operand(&self, cursor: &mut Cursor, level: Level) -> Result<Expr, Refusal>
        ensures { Parses (Sym (operand_symbol level)) (operand_of level self.now.text.now) cursor.old cursor.new result }
    {
        match level {
            Level::Or => self.chain(cursor, Level::Xor),
            Level::Xor => self.chain(cursor, Level::And),
            Level::And => self.shift(cursor),
            Level::Sum => self.chain(cursor, Level::Product),
            Level::Product => self.unary(cursor),
        }
    }

    /// A sum, and then shifts by literal numbers of bits.
    #[cycle(expr)]
    fn shift(&self, cursor: &mut Cursor) -> Result<Expr, Refusal>
        ensures { Parses (Sym SHIFT) (shift_of self.now.text.now) cursor.old cursor.new result }
    {
        let first = self.chain(cursor, Level::Sum)?;
        let mut segments = Items::new(self.alloc);
        'segments: while let Some(way) = direction(cursor.kind()) {
            let token = cursor.advance();
            let bits = cursor.expect(TokenKind::Number)?;
            segments.push(Segment::Shift(way, token.span, bits.value))?;
        }
        let expr = self.chained(first, segments)?;
        Ok(expr)
    }

    /// {"!" | "~"} atom
    #[cycle(expr)]
    fn unary(&self, cursor: &mut Cursor) -> Result<Expr, Refusal>
        ensures { Parses (Sym UNARY) (unary_of self.now.text.now) cursor.old cursor.new result }
    {
        let signs = self.signs(cursor)?;
        let atom = self.atom(cursor)?;
        let expr = self.signed(atom, signs)?;
        Ok(expr)
    }

    /// An atom. The first of the functions for atoms has the literals.
    #[cycle(expr)]
    fn atom(&self, cursor: &mut Cursor) -> Result<Expr, Refusal>
        ensures { Parses (Sym ATOM) (atom_of self.now.text.now) cursor.old cursor.new result }
    {
        if cursor.is(TokenKind::Number) {
            let number = cursor.expect(TokenKind::Number)?;
            Ok(Expr::Number(number.value))
        } else if cursor.is(TokenKind::True) {
            cursor.expect(TokenKind::True)?;
            Ok(Expr::Truth(true))
        } else if cursor.is(TokenKind::False) {
            cursor.expect(TokenKind::False)?;
            Ok(Expr::Truth(false))
        } else {
            self.word_atom(cursor)
        }
    }

    /// What begins with a name, `min` or `max`, or any other atom but a literal.
    #[cycle(expr)]
    fn word_atom(&self, cursor: &mut Cursor) -> Result<Expr, Refusal>
        ensures { Parses word_atom_rule (word_atom_of self.now.text.now) cursor.old cursor.new result }
    {
        if cursor.is(TokenKind::Name) {
            self.named(cursor)
        } else if cursor.is(TokenKind::Min) {
            let token = cursor.expect(TokenKind::Min)?;
            let (left, right) = self.two(cursor)?;
            Ok(Expr::Min(token.span, left, right))
        } else if cursor.is(TokenKind::Max) {
            let token = cursor.expect(TokenKind::Max)?;
            let (left, right) = self.two(cursor)?;
            Ok(Expr::Max(token.span, left, right))
        } else {
            self.other_atom(cursor)
        }
    }

    /// What begins with another word of the language, or an expression in brackets.
    #[cycle(expr)]
    fn other_atom(&self, cursor: &mut Cursor) -> Result<Expr, Refusal>
        ensures { Parses other_atom_rule (other_atom_of self.now.text.now) cursor.old cursor.new result }
    {
        if cursor.is(TokenKind::Mux) {
            let token = cursor.expect(TokenKind::Mux)?;
            let (guard, left, right) = self.three(cursor)?;
            Ok(Expr::Mux(token.span, guard, left, right))
        } else if cursor.is(TokenKind::Input) {
            cursor.expect(TokenKind::Input)?;
            let host = self.host_name(cursor, TokenKind::OpenParen, TokenKind::CloseParen)?;
            Ok(Expr::Input(host))
        } else if cursor.is(TokenKind::Declassify) {
            cursor.expect(TokenKind::Declassify)?;
            let (value, form) = self.relabelled(cursor)?;
            Ok(Expr::Declassify(value, form))
        } else if cursor.is(TokenKind::Endorse) {
            cursor.expect(TokenKind::Endorse)?;
            let (value, form) = self.relabelled(cursor)?;
            Ok(Expr::Endorse(value, form))
        } else {
            cursor.expect(TokenKind::OpenParen)?;
            let value = self.boxed(cursor)?;
            cursor.expect(TokenKind::CloseParen)?;
            Ok(bracketed(value))
        }
    }

    /// A name with arguments, with an index, or alone.
    #[cycle(expr)]
    fn named(&self, cursor: &mut Cursor) -> Result<Expr, Refusal>
        ensures { Parses named_rule (named_of self.now.text.now) cursor.old cursor.new result }
    {
        let name = self.ident(cursor)?;
        if cursor.is(TokenKind::OpenParen) {
            let arguments = self.arguments(cursor)?;
            Ok(Expr::Call(name, arguments))
        } else if cursor.is(TokenKind::OpenBracket) {
            let index = self.index(cursor)?;
            let index = Boxed::new(self.alloc, index)?;
            Ok(Expr::Element(name, index))
        } else {
            Ok(Expr::Value(name))
        }
    }

    /// "(" [expr {"," expr}] ")"
    #[cycle(expr)]
    fn arguments(&self, cursor: &mut Cursor) -> Result<Items<Expr>, Refusal>
        ensures { Parses arguments_rule (arguments_of self.now.text.now) cursor.old cursor.new result }
    {
        cursor.expect(TokenKind::OpenParen)?;
        if cursor.is(TokenKind::CloseParen) {
            cursor.expect(TokenKind::CloseParen)?;
            Ok(Items::new(self.alloc))
        } else {
            let arguments = self.exprs(cursor)?;
            cursor.expect(TokenKind::CloseParen)?;
            Ok(arguments)
        }
    }

    /// expr {"," expr}
    #[cycle(expr)]
    fn exprs(&self, cursor: &mut Cursor) -> Result<Items<Expr>, Refusal>
        ensures { Parses (commas (Sym EXPR)) (exprs_of self.now.text.now) cursor.old cursor.new result }
    {
        let mut exprs = Items::new(self.alloc);
        let first = self.expr(cursor)?;
        exprs.push(first)?;
        'rest: while cursor.is(TokenKind::Comma) {
            let _comma = cursor.advance();
            let expr = self.expr(cursor)?;
            exprs.push(expr)?;
        }
        Ok(exprs)
    }

    /// "[" expr "]"
    #[cycle(expr)]
    pub fn index(&self, cursor: &mut Cursor) -> Result<Expr, Refusal>
        ensures { Parses index_rule (between_of self.now.text.now) cursor.old cursor.new result }
    {
        cursor.expect(TokenKind::OpenBracket)?;
        let index = self.expr(cursor)?;
        cursor.expect(TokenKind::CloseBracket)?;
        Ok(index)
    }

    /// "(" expr "," expr ")"
    #[cycle(expr)]
    fn two(&self, cursor: &mut Cursor) -> Result<(Boxed<Expr>, Boxed<Expr>), Refusal>
        ensures { Parses two_rule (two_of self.now.text.now) cursor.old cursor.new result }
    {
        cursor.expect(TokenKind::OpenParen)?;
        let left = self.boxed(cursor)?;
        cursor.expect(TokenKind::Comma)?;
        let right = self.boxed(cursor)?;
        cursor.expect(TokenKind::CloseParen)?;
        Ok((left, right))
    }

    /// "(" expr "," expr "," expr ")"
    #[cycle(expr)]
    fn three(&self, cursor: &mut Cursor) -> Result<(Boxed<Expr>, Boxed<Expr>, Boxed<Expr>), Refusal>
        ensures { Parses three_rule (three_of self.now.text.now) cursor.old cursor.new result }
    {
        cursor.expect(TokenKind::OpenParen)?;
        let first = self.boxed(cursor)?;
        cursor.expect(TokenKind::Comma)?;
        let second = self.boxed(cursor)?;
        cursor.expect(TokenKind::Comma)?;
        let third = self.boxed(cursor)?;
        cursor.expect(TokenKind::CloseParen)?;
        Ok((first, second, third))
    }

    /// "(" expr "," "{" form "}" ")"
    #[cycle(expr)]
    fn relabelled(&self, cursor: &mut Cursor) -> Result<(Boxed<Expr>, WrittenForm), Refusal>
        ensures { Parses relabel_rule (relabelled_of self.now.text.now) cursor.old cursor.new result }
    {
        cursor.expect(TokenKind::OpenParen)?;
        let value = self.boxed(cursor)?;
        cursor.expect(TokenKind::Comma)?;
        cursor.expect(TokenKind::OpenBrace)?;
        let form = self.form(cursor)?;
        cursor.expect(TokenKind::CloseBrace)?;
        cursor.expect(TokenKind::CloseParen)?;
        Ok((value, form))
    }

    /// A host's name between two tokens.
    pub(crate) fn host_name(
        &self,
        cursor: &mut Cursor,
        before: TokenKind,
        behind: TokenKind,
    ) -> Result<Ident, Refusal>
        requires starts { code_of before ≢ 0 }
        requires ends { code_of behind ≢ 0 }
        ensures { Parses (host_rule before behind) (host_name_of self.now.text.now) cursor.old cursor.new result }
    {
        cursor.expect(before)?;
        let name = self.ident(cursor)?;
        cursor.expect(behind)?;
        Ok(name)
    }
}
