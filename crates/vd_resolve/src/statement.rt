//! Statements: the values in sight after them, and sizes.

ghost use Rattle.std.specs.Prelude.{◌≡◌, map, length, take, Ok, OnOk, IfErr, IfOk};
ghost use Rattle.vd_resolve.specs.Causes.{block_passing, in_order, passing, where_meet};
ghost use Rattle.vd_resolve.specs.Faults.{Kinds};
ghost use Rattle.vd_resolve.specs.Rules.{checking, in_sequence, block_check, is_kind};
ghost use Rattle.vd_resolve.specs.Sizes.{IsCapped, statement_size, statements_after, block_size, nothing};
ghost use Rattle.vd_resolve.specs.Tables.{names, places};
ghost use Rattle.vd_resolve.specs.Walks.{IsCauseOf, IsFaultOf, IsSized, variables};
ghost use Rattle.vd_resolve.specs.Scopes.{scope_of, sizes_of};

use crate::declarations::Declarations;
use crate::expression::Values;
use crate::fault::NameFault;
use crate::met::Met;
use crate::names::declare;
use crate::size::Size;
use crate::symbol::Symbol;
use vd_base::{Kind, Span};
use vd_core::Statement;

/// Whether a value has the kind that its place wants; else it is said what met there.
pub(crate) fn expect_kind(at: Span, met: Met, wanted: Kind, kind: Kind) -> Result<(), NameFault>
    ensures ok { OnOk result (is_kind at wanted kind ≡ Ok tt) }
    ensures fault { IfErr result (IsFaultOf (is_kind at wanted kind)) }
    ensures cause { IfErr result (IsCauseOf (where_meet (Kinds met) (is_kind at wanted kind))) }
{
    if wanted == kind {
        Ok(())
    } else {
        Err(NameFault::Kind(at, met))
    }
}

impl<'a> Declarations<'a> {
    /// Statements in order; the values that they declare stay in sight.
    #[cycle(checking)]
    pub fn statements(
        &self,
        values: &mut Values<'a>,
        statements: &'a [Statement],
    ) -> Result<Size, NameFault>
        ensures checked { OnOk result (in_sequence (map checking statements.now)
            (scope_of self.now) (names values.old) ≡ Ok (names values.new)) }
        ensures told { OnOk result (in_order (map passing statements.now) (scope_of self.now) values.old ≡ Ok values.new) }
        ensures sized { IfOk result (λ size. IsSized size (names values.new)
            (statements_after nothing (map statement_size statements.now) (sizes_of self.now) (variables (names values.old)))) }
        ensures kept { OnOk result (take (length (names values.old)) (names values.new) ≡ names values.old) }
        ensures placed { OnOk result (take (length (places values.old)) (places values.new) ≡ places values.old) }
        ensures fault { IfErr result (IsFaultOf (in_sequence (map checking statements.now) (scope_of self.now) (names values.old))) }
        ensures cause { IfErr result (IsCauseOf (in_order (map passing statements.now) (scope_of self.now) values.old)) }
    {
        let mut size = Size::nothing();
        for statement in statements {
            let next = self.statement(values, statement)?;
            size = size.also(next);
        }
        Ok(size)
    }

    /// A block, whose names end with it.
    #[cycle(checking)]
    pub fn block(&self, values: &mut Values<'a>, body: &'a [Statement]) -> Result<Size, NameFault>
        ensures checked { OnOk result (block_check (map checking body.now) (scope_of self.now) (names values.old) ≡ Ok (names values.new)) }
        ensures told { OnOk result (block_passing (map passing body.now) (scope_of self.now) values.old ≡ Ok values.new) }
        ensures sized { IfOk result (λ size. IsCapped size (block_size (map statement_size body.now) (sizes_of self.now)
            (variables (names values.old)))) }
        ensures kept { OnOk result (values.new ≡ values.old) }
        ensures fault { IfErr result (IsFaultOf (block_check (map checking body.now) (scope_of self.now) (names values.old))) }
        ensures cause { IfErr result (IsCauseOf (block_passing (map passing body.now) (scope_of self.now) values.old)) }
    {
        let outer = values.len();
        let size = self.statements(values, body)?;
        values.truncate(outer);
        Ok(size)
    }

    /// One statement; a value that it declares stays in sight.
    #[cycle(checking)]
    fn statement(
        &self,
        values: &mut Values<'a>,
        statement: &'a Statement,
    ) -> Result<Size, NameFault>
        ensures checked { OnOk result (checking statement.now (scope_of self.now) (names values.old) ≡ Ok (names values.new)) }
        ensures told { OnOk result (passing statement.now (scope_of self.now) values.old ≡ Ok values.new) }
        ensures sized { IfOk result (λ size. IsSized size (names values.new) (statement_size statement.now (sizes_of self.now)
            (variables (names values.old)))) }
        ensures kept { OnOk result (take (length (names values.old)) (names values.new) ≡ names values.old) }
        ensures placed { OnOk result (take (length (places values.old)) (places values.new) ≡ places values.old) }
        ensures fault { IfErr result (IsFaultOf (checking statement.now (scope_of self.now) (names values.old))) }
        ensures cause { IfErr result (IsCauseOf (passing statement.now (scope_of self.now) values.old)) }
    {
        match statement {
            Statement::Let {
                at: _,
                name,
                label,
                value,
            } => self.let_statement(values, name, label, value),
            Statement::Var {
                at: _,
                name,
                kind,
                label,
                value,
            } => self.var_statement(values, name, *kind, label, value),
            Statement::Array {
                at: _,
                name,
                kind,
                length,
                label,
            } => self.array_statement(values, name, *kind, *length, label),
            Statement::Store { name, value } => self.store_statement(values, name, value),
            Statement::Put { name, index, value } => self.put_statement(values, name, index, value),
            Statement::Output { at: _, value, host } => self.output_statement(values, value, host),
            Statement::If {
                at,
                guard,
                then_block,
                else_block,
            } => {
                let guard = self.expr(values, guard)?;
                expect_kind(*at, Met::Guard(guard.kind), Kind::Bool, guard.kind)?;
                let then_size = self.block(values, then_block.as_slice())?;
                let else_size = self.block(values, else_block.as_slice())?;
                Ok(guard.size.also(Size::one()).also(then_size).also(else_size))
            }
            Statement::For {
                at: _,
                name,
                count,
                body,
            } => {
                let outer = values.len();
                declare(values, name, Symbol::Constant(Kind::Word))?;
                let inner = self.block(values, body.as_slice())?;
                values.truncate(outer);
                Ok(Size::one().also(Size::one().also(inner).repeated(*count)))
            }
        }
    }
}
