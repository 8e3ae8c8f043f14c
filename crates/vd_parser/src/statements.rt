ghost use Rattle.std.specs.Prelude.{◌≡◌, ◌≢◌};
ghost use Rattle.vd_source_lexer.specs.Grammar.{Sym, Star, optional};
ghost use Rattle.vd_source_lexer.specs.Kinds.{code_of};
ghost use Rattle.vd_parser.specs.Language.{BLOCK, STMT, between_rule, let_rule, var_rule, array_rule, assign_rule, length_rule, output_rule, if_rule, else_rule, for_rule, index_rule};
ghost use Rattle.vd_parser.specs.Syntax.{between_of, let_of, var_of, array_of, length_of, assign_of, assigned, index_option_of, output_of, if_of, else_of, for_of, block_of, statements_of, statement_of};
ghost use Rattle.vd_parser.specs.Levels.{begins_statement};
ghost use Rattle.vd_parser.specs.Parsing.{Parses};

use crate::cursor::{Cursor, Refusal};
use crate::operators::is;
use crate::parser::Parser;
use vd_base::Items;
use vd_core::{Expr, Ident, Statement};
use vd_source_lexer::TokenKind;

fn begins_statement(kind: TokenKind) -> bool
    ensures { result ≡ begins_statement kind }
{
    is(kind, TokenKind::Let)
        || is(kind, TokenKind::Var)
        || is(kind, TokenKind::Array)
        || is(kind, TokenKind::Name)
        || is(kind, TokenKind::Output)
        || is(kind, TokenKind::If)
        || is(kind, TokenKind::For)
}

/// A value stored to a variable, or put into an array at an index.
fn assigned(name: Ident, index: Option<Expr>, value: Expr) -> Statement
    ensures { result ≡ assigned name index value }
{
    match index {
        None => Statement::Store { name, value },
        Some(index) => Statement::Put { name, index, value },
    }
}

impl<'a> Parser<'a> {
    /// "{" {stmt} "}"
    #[cycle(statement)]
    pub fn block(&self, cursor: &mut Cursor) -> Result<Items<Statement>, Refusal>
        ensures { Parses (Sym BLOCK) (block_of self.now.text.now) cursor.old cursor.new result }
    {
        cursor.expect(TokenKind::OpenBrace)?;
        let statements = self.statements(cursor)?;
        cursor.expect(TokenKind::CloseBrace)?;
        Ok(statements)
    }

    /// {stmt}
    #[cycle(statement)]
    pub fn statements(&self, cursor: &mut Cursor) -> Result<Items<Statement>, Refusal>
        ensures { Parses (Star (Sym STMT)) (statements_of self.now.text.now) cursor.old cursor.new result }
    {
        let mut statements = Items::new(self.alloc);
        'all: while begins_statement(cursor.kind()) {
            let statement = self.statement(cursor)?;
            statements.push(statement)?;
        }
        Ok(statements)
    }

    #[cycle(statement)]
    fn statement(&self, cursor: &mut Cursor) -> Result<Statement, Refusal>
        ensures { Parses (Sym STMT) (statement_of self.now.text.now) cursor.old cursor.new result }
    {
        if cursor.is(TokenKind::Let) {
            self.let_statement(cursor)
        } else if cursor.is(TokenKind::Var) {
            self.var_statement(cursor)
        } else if cursor.is(TokenKind::Array) {
            self.array_statement(cursor)
        } else if cursor.is(TokenKind::Name) {
            self.assignment(cursor)
        } else if cursor.is(TokenKind::Output) {
            self.output_statement(cursor)
        } else if cursor.is(TokenKind::If) {
            self.if_statement(cursor)
        } else {
            self.for_statement(cursor)
        }
    }

    /// An expression between two tokens.
    fn between(
        &self,
        cursor: &mut Cursor,
        before: TokenKind,
        behind: TokenKind,
    ) -> Result<Expr, Refusal>
        requires starts { code_of before ≢ 0 }
        requires ends { code_of behind ≢ 0 }
        ensures { Parses (between_rule before behind) (between_of self.now.text.now) cursor.old cursor.new result }
    {
        cursor.expect(before)?;
        let value = self.expr(cursor)?;
        cursor.expect(behind)?;
        Ok(value)
    }

    /// "let" NAME [label] "=" expr ";"
    fn let_statement(&self, cursor: &mut Cursor) -> Result<Statement, Refusal>
        ensures { Parses let_rule (let_of self.now.text.now) cursor.old cursor.new result }
    {
        let first = cursor.expect(TokenKind::Let)?;
        let name = self.ident(cursor)?;
        let label = self.label_option(cursor)?;
        let value = self.between(cursor, TokenKind::Equal, TokenKind::Semicolon)?;
        Ok(Statement::Let {
            at: first.span,
            name,
            label,
            value,
        })
    }

    /// "var" NAME ":" kind [label] "=" expr ";"
    fn var_statement(&self, cursor: &mut Cursor) -> Result<Statement, Refusal>
        ensures { Parses var_rule (var_of self.now.text.now) cursor.old cursor.new result }
    {
        let first = cursor.expect(TokenKind::Var)?;
        let (name, kind) = self.typed(cursor)?;
        let label = self.label_option(cursor)?;
        let value = self.between(cursor, TokenKind::Equal, TokenKind::Semicolon)?;
        Ok(Statement::Var {
            at: first.span,
            name,
            kind,
            label,
            value,
        })
    }

    /// "[" NUM "]"
    fn length(&self, cursor: &mut Cursor) -> Result<u32, Refusal>
        ensures { Parses length_rule length_of cursor.old cursor.new result }
    {
        cursor.expect(TokenKind::OpenBracket)?;
        let length = cursor.expect(TokenKind::Number)?;
        cursor.expect(TokenKind::CloseBracket)?;
        Ok(length.value)
    }

    /// "array" NAME ":" kind "[" NUM "]" [label] ";"
    fn array_statement(&self, cursor: &mut Cursor) -> Result<Statement, Refusal>
        ensures { Parses array_rule (array_of self.now.text.now) cursor.old cursor.new result }
    {
        let first = cursor.expect(TokenKind::Array)?;
        let (name, kind) = self.typed(cursor)?;
        let length = self.length(cursor)?;
        let label = self.label_option(cursor)?;
        cursor.expect(TokenKind::Semicolon)?;
        Ok(Statement::Array {
            at: first.span,
            name,
            kind,
            length,
            label,
        })
    }

    /// NAME ["[" expr "]"] ":=" expr ";"
    fn assignment(&self, cursor: &mut Cursor) -> Result<Statement, Refusal>
        ensures { Parses assign_rule (assign_of self.now.text.now) cursor.old cursor.new result }
    {
        let name = self.ident(cursor)?;
        let index = self.index_option(cursor)?;
        let value = self.between(cursor, TokenKind::Assign, TokenKind::Semicolon)?;
        Ok(assigned(name, index, value))
    }

    /// ["[" expr "]"]
    fn index_option(&self, cursor: &mut Cursor) -> Result<Option<Expr>, Refusal>
        ensures { Parses (optional index_rule) (index_option_of self.now.text.now) cursor.old cursor.new result }
    {
        if cursor.is(TokenKind::OpenBracket) {
            let index = self.index(cursor)?;
            Ok(Some(index))
        } else {
            Ok(None)
        }
    }

    /// "output" expr "to" NAME ";"
    fn output_statement(&self, cursor: &mut Cursor) -> Result<Statement, Refusal>
        ensures { Parses output_rule (output_of self.now.text.now) cursor.old cursor.new result }
    {
        let first = cursor.expect(TokenKind::Output)?;
        let value = self.expr(cursor)?;
        let host = self.host_name(cursor, TokenKind::To, TokenKind::Semicolon)?;
        Ok(Statement::Output {
            at: first.span,
            value,
            host,
        })
    }

    /// "if" "(" expr ")" block ["else" block]
    #[cycle(statement)]
    fn if_statement(&self, cursor: &mut Cursor) -> Result<Statement, Refusal>
        ensures { Parses if_rule (if_of self.now.text.now) cursor.old cursor.new result }
    {
        let first = cursor.expect(TokenKind::If)?;
        let guard = self.between(cursor, TokenKind::OpenParen, TokenKind::CloseParen)?;
        let then_block = self.block(cursor)?;
        let else_block = self.else_block(cursor)?;
        Ok(Statement::If {
            at: first.span,
            guard,
            then_block,
            else_block,
        })
    }

    /// ["else" block]
    #[cycle(statement)]
    fn else_block(&self, cursor: &mut Cursor) -> Result<Items<Statement>, Refusal>
        ensures { Parses (optional else_rule) (else_of self.now.text.now) cursor.old cursor.new result }
    {
        if cursor.is(TokenKind::Else) {
            cursor.expect(TokenKind::Else)?;
            let block = self.block(cursor)?;
            Ok(block)
        } else {
            Ok(Items::new(self.alloc))
        }
    }

    /// "for" NAME "to" NUM block
    #[cycle(statement)]
    fn for_statement(&self, cursor: &mut Cursor) -> Result<Statement, Refusal>
        ensures { Parses for_rule (for_of self.now.text.now) cursor.old cursor.new result }
    {
        let first = cursor.expect(TokenKind::For)?;
        let name = self.ident(cursor)?;
        cursor.expect(TokenKind::To)?;
        let count = cursor.expect(TokenKind::Number)?;
        let body = self.block(cursor)?;
        Ok(Statement::For {
            at: first.span,
            name,
            count: count.value,
            body,
        })
    }
}
