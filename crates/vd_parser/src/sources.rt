ghost use Rattle.std.specs.Prelude.{◌≡◌};
ghost use Rattle.vd_source_lexer.specs.Grammar.{Sym, Star};
ghost use Rattle.vd_parser.specs.Language.{SOURCE, HOST, FUN, PARAM, commas, principals_rule, hosts_rule, parameters_rule, body_rule, return_rule};
ghost use Rattle.vd_parser.specs.Syntax.{source_of, principals_of, host_of, host_list_of, function_of, functions_of, whole_body_of, last_line_of, parameter_of, parameter_list_of, parameters_of};
ghost use Rattle.vd_parser.specs.Parsing.{Parses};

use crate::cursor::{Cursor, Refusal};
use crate::parser::Parser;
use vd_base::{Items, Span};
use vd_core::{Expr, Function, Host, Ident, Parameter, Source, Statement};
use vd_source_lexer::TokenKind;

impl<'a> Parser<'a> {
    /// The whole of a source but the end of the text.
    pub fn source(&self, cursor: &mut Cursor) -> Result<Source, Refusal>
        ensures { Parses (Sym SOURCE) (source_of self.now.text.now) cursor.old cursor.new result }
    {
        let principals = self.principals(cursor)?;
        let hosts = self.hosts(cursor)?;
        let functions = self.functions(cursor)?;
        cursor.expect(TokenKind::Main)?;
        let main = self.block(cursor)?;
        Ok(Source {
            principals,
            hosts,
            functions,
            main,
        })
    }

    /// "principals" NAME {"," NAME} ";"
    fn principals(&self, cursor: &mut Cursor) -> Result<Items<Ident>, Refusal>
        ensures { Parses principals_rule (principals_of self.now.text.now) cursor.old cursor.new result }
    {
        cursor.expect(TokenKind::Principals)?;
        let names = self.idents(cursor)?;
        cursor.expect(TokenKind::Semicolon)?;
        Ok(names)
    }

    /// "host" NAME label ";"
    fn host(&self, cursor: &mut Cursor) -> Result<Host, Refusal>
        ensures { Parses (Sym HOST) (host_of self.now.text.now) cursor.old cursor.new result }
    {
        cursor.expect(TokenKind::Host)?;
        let name = self.ident(cursor)?;
        let label = self.label(cursor)?;
        cursor.expect(TokenKind::Semicolon)?;
        Ok(Host { name, label })
    }

    /// host {host}
    fn hosts(&self, cursor: &mut Cursor) -> Result<Items<Host>, Refusal>
        ensures { Parses hosts_rule (host_list_of self.now.text.now) cursor.old cursor.new result }
    {
        let mut hosts = Items::new(self.alloc);
        let first = self.host(cursor)?;
        hosts.push(first)?;
        'rest: while cursor.is(TokenKind::Host) {
            let host = self.host(cursor)?;
            hosts.push(host)?;
        }
        Ok(hosts)
    }

    /// {fun}
    fn functions(&self, cursor: &mut Cursor) -> Result<Items<Function>, Refusal>
        ensures { Parses (Star (Sym FUN)) (functions_of self.now.text.now) cursor.old cursor.new result }
    {
        let mut functions = Items::new(self.alloc);
        'all: while cursor.is(TokenKind::Fun) {
            let function = self.function(cursor)?;
            functions.push(function)?;
        }
        Ok(functions)
    }

    /// "fun" NAME parameters ":" kind body
    fn function(&self, cursor: &mut Cursor) -> Result<Function, Refusal>
        ensures { Parses (Sym FUN) (function_of self.now.text.now) cursor.old cursor.new result }
    {
        cursor.expect(TokenKind::Fun)?;
        let name = self.ident(cursor)?;
        let parameters = self.parameters(cursor)?;
        cursor.expect(TokenKind::Colon)?;
        let kind = self.kind(cursor)?;
        let (body, at_return, gives) = self.body(cursor)?;
        Ok(Function {
            name,
            parameters,
            kind,
            body,
            at_return,
            gives,
        })
    }

    /// "{" {stmt} "return" expr ";" "}"
    fn body(&self, cursor: &mut Cursor) -> Result<(Items<Statement>, Span, Expr), Refusal>
        ensures { Parses body_rule (whole_body_of self.now.text.now) cursor.old cursor.new result }
    {
        cursor.expect(TokenKind::OpenBrace)?;
        let statements = self.statements(cursor)?;
        let (at_return, gives) = self.last_line(cursor)?;
        Ok((statements, at_return, gives))
    }

    /// "return" expr ";" "}"
    fn last_line(&self, cursor: &mut Cursor) -> Result<(Span, Expr), Refusal>
        ensures { Parses return_rule (last_line_of self.now.text.now) cursor.old cursor.new result }
    {
        let first = cursor.expect(TokenKind::Return)?;
        let gives = self.expr(cursor)?;
        cursor.expect(TokenKind::Semicolon)?;
        cursor.expect(TokenKind::CloseBrace)?;
        Ok((first.span, gives))
    }

    /// "(" [param {"," param}] ")"
    fn parameters(&self, cursor: &mut Cursor) -> Result<Items<Parameter>, Refusal>
        ensures { Parses parameters_rule (parameters_of self.now.text.now) cursor.old cursor.new result }
    {
        cursor.expect(TokenKind::OpenParen)?;
        if cursor.is(TokenKind::CloseParen) {
            cursor.expect(TokenKind::CloseParen)?;
            Ok(Items::new(self.alloc))
        } else {
            let parameters = self.parameter_list(cursor)?;
            cursor.expect(TokenKind::CloseParen)?;
            Ok(parameters)
        }
    }

    /// param {"," param}
    fn parameter_list(&self, cursor: &mut Cursor) -> Result<Items<Parameter>, Refusal>
        ensures { Parses (commas (Sym PARAM)) (parameter_list_of self.now.text.now) cursor.old cursor.new result }
    {
        let mut parameters = Items::new(self.alloc);
        let first = self.parameter(cursor)?;
        parameters.push(first)?;
        'rest: while cursor.is(TokenKind::Comma) {
            let _comma = cursor.advance();
            let parameter = self.parameter(cursor)?;
            parameters.push(parameter)?;
        }
        Ok(parameters)
    }

    fn parameter(&self, cursor: &mut Cursor) -> Result<Parameter, Refusal>
        ensures { Parses (Sym PARAM) (parameter_of self.now.text.now) cursor.old cursor.new result }
    {
        let (name, kind) = self.typed(cursor)?;
        Ok(Parameter { name, kind })
    }
}
