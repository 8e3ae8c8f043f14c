//! Statements without blocks: the values in sight after them, and sizes.

ghost use Rattle.std.specs.Prelude.{◌≡◌, length, take, Ok, OnOk, IfErr, IfOk};
ghost use Rattle.vd_base.specs.Names.{at_name};
ghost use Rattle.vd_resolve.specs.Causes.{put_telling, statement_passing, store_met, where_meet};
ghost use Rattle.vd_resolve.specs.Faults.{Kinds};
ghost use Rattle.vd_resolve.specs.Rules.{statement_check, is_stored, is_put};
ghost use Rattle.vd_resolve.specs.Scopes.{scope_of, sizes_of};
ghost use Rattle.vd_resolve.specs.Simple.{a_let, a_var, an_array, a_store, a_put, an_output};
ghost use Rattle.vd_resolve.specs.Sizes.{statement_sizing};
ghost use Rattle.vd_resolve.specs.Tables.{names, places};
ghost use Rattle.vd_resolve.specs.Walks.{IsCauseOf, IsFaultOf, IsSized, variables};

use crate::declarations::Declarations;
use crate::expression::{Values, element, is_plain};
use crate::fault::NameFault;
use crate::met::Met;
use crate::names::{check_written_label, declare, known};
use crate::size::Size;
use crate::statement::expect_kind;
use crate::symbol::Symbol;
use vd_base::Kind;
use vd_core::{Expr, Ident, WrittenLabel};

/// Whether a value of this kind may be stored under the name.
fn expect_variable(values: &Values<'_>, name: &Ident, kind: Kind) -> Result<(), NameFault>
    ensures ok { OnOk result (is_stored name.now.span kind (at_name (names values.now) name.now.name) ≡ Ok tt) }
    ensures fault { IfErr result (IsFaultOf (is_stored name.now.span kind (at_name (names values.now) name.now.name))) }
    ensures cause { IfErr result (IsCauseOf (where_meet (Kinds (store_met kind (at_name (names values.now) name.now.name)))
        (is_stored name.now.span kind (at_name (names values.now) name.now.name)))) }
{
    match values.get(name.name.as_slice()) {
        None => Err(NameFault::Unknown(name.span)),
        Some(Symbol::Variable(wanted)) => {
            expect_kind(name.span, Met::Value(kind), kind, *wanted)
        }
        Some(Symbol::Constant(_) | Symbol::Array(_)) => {
            Err(NameFault::Kind(name.span, Met::NoVariable))
        }
    }
}

/// Whether a value of this kind may be stored in the array of the name, at an index of that kind.
fn expect_array(values: &Values<'_>, name: &Ident, index: Kind, kind: Kind) -> Result<(), NameFault>
    ensures ok { OnOk result (is_put name.now.span index kind (at_name (names values.now) name.now.name) ≡ Ok tt) }
    ensures told { OnOk result (put_telling name.now.span index kind (at_name (names values.now) name.now.name) ≡ Ok tt) }
    ensures fault { IfErr result (IsFaultOf (is_put name.now.span index kind (at_name (names values.now) name.now.name))) }
    ensures cause { IfErr result (IsCauseOf (put_telling name.now.span index kind (at_name (names values.now) name.now.name))) }
{
    let wanted = element(values, name, index)?;
    expect_kind(name.span, Met::Value(kind), kind, wanted)
}

impl<'a> Declarations<'a> {
    /// A constant, whose name stays in sight.
    pub(crate) fn let_statement(
        &self,
        values: &mut Values<'a>,
        name: &'a Ident,
        label: &Option<WrittenLabel>,
        value: &Expr,
    ) -> Result<Size, NameFault>
        ensures checked { OnOk result (statement_check (a_let name.now label.now value.now)
            (scope_of self.now) (names values.old) ≡ Ok (names values.new)) }
        ensures told { OnOk result (statement_passing (a_let name.now label.now value.now) (scope_of self.now) values.old ≡ Ok values.new) }
        ensures sized { IfOk result (λ size. IsSized size (names values.new)
            (statement_sizing (a_let name.now label.now value.now) (sizes_of self.now) (variables (names values.old)))) }
        ensures kept { OnOk result (take (length (names values.old)) (names values.new) ≡ names values.old) }
        ensures placed { OnOk result (take (length (places values.old)) (places values.new) ≡ places values.old) }
        ensures fault { IfErr result (IsFaultOf (statement_check (a_let name.now label.now value.now)
            (scope_of self.now) (names values.old))) }
        ensures cause { IfErr result (IsCauseOf (statement_passing (a_let name.now label.now value.now) (scope_of self.now) values.old)) }
    {
        let typed = self.expr(values, value)?;
        let plain = is_plain(values, value);
        declare(values, name, Symbol::Constant(typed.kind))?;
        check_written_label(self.principals, label)?;
        Ok(if plain {
            typed.size.also(Size::one())
        } else {
            typed.size
        })
    }

    /// A variable, whose name stays in sight.
    pub(crate) fn var_statement(
        &self,
        values: &mut Values<'a>,
        name: &'a Ident,
        kind: Kind,
        label: &Option<WrittenLabel>,
        value: &Expr,
    ) -> Result<Size, NameFault>
        ensures checked { OnOk result (statement_check (a_var name.now kind label.now value.now)
            (scope_of self.now) (names values.old) ≡ Ok (names values.new)) }
        ensures told { OnOk result (statement_passing (a_var name.now kind label.now value.now)
            (scope_of self.now) values.old ≡ Ok values.new) }
        ensures sized { IfOk result (λ size. IsSized size (names values.new)
            (statement_sizing (a_var name.now kind label.now value.now) (sizes_of self.now) (variables (names values.old)))) }
        ensures kept { OnOk result (take (length (names values.old)) (names values.new) ≡ names values.old) }
        ensures placed { OnOk result (take (length (places values.old)) (places values.new) ≡ places values.old) }
        ensures fault { IfErr result (IsFaultOf
            (statement_check (a_var name.now kind label.now value.now) (scope_of self.now) (names values.old))) }
        ensures cause { IfErr result (IsCauseOf (statement_passing (a_var name.now kind label.now value.now)
            (scope_of self.now) values.old)) }
    {
        let typed = self.expr(values, value)?;
        declare(values, name, Symbol::Variable(kind))?;
        expect_kind(name.span, Met::Value(typed.kind), kind, typed.kind)?;
        check_written_label(self.principals, label)?;
        Ok(typed.size.also(Size::one()))
    }

    /// An array, whose name stays in sight.
    pub(crate) fn array_statement(
        &self,
        values: &mut Values<'a>,
        name: &'a Ident,
        kind: Kind,
        cells: u32,
        label: &Option<WrittenLabel>,
    ) -> Result<Size, NameFault>
        ensures checked { OnOk result (statement_check (an_array name.now kind cells label.now)
            (scope_of self.now) (names values.old) ≡ Ok (names values.new)) }
        ensures told { OnOk result (statement_passing (an_array name.now kind cells label.now)
            (scope_of self.now) values.old ≡ Ok values.new) }
        ensures sized { IfOk result (λ size. IsSized size (names values.new)
            (statement_sizing (an_array name.now kind cells label.now) (sizes_of self.now) (variables (names values.old)))) }
        ensures kept { OnOk result (take (length (names values.old)) (names values.new) ≡ names values.old) }
        ensures placed { OnOk result (take (length (places values.old)) (places values.new) ≡ places values.old) }
        ensures fault { IfErr result (IsFaultOf (statement_check (an_array name.now kind cells label.now)
            (scope_of self.now) (names values.old))) }
        ensures cause { IfErr result (IsCauseOf (statement_passing (an_array name.now kind cells label.now)
            (scope_of self.now) values.old)) }
    {
        declare(values, name, Symbol::Array(kind))?;
        check_written_label(self.principals, label)?;
        Ok(Size::array_of(cells))
    }

    /// A value that is stored to a variable.
    pub(crate) fn store_statement(
        &self,
        values: &mut Values<'a>,
        name: &Ident,
        value: &Expr,
    ) -> Result<Size, NameFault>
        ensures checked { OnOk result (statement_check (a_store name.now value.now)
            (scope_of self.now) (names values.old) ≡ Ok (names values.new)) }
        ensures told { OnOk result (statement_passing (a_store name.now value.now) (scope_of self.now) values.old ≡ Ok values.new) }
        ensures sized { IfOk result (λ size. IsSized size (names values.new)
            (statement_sizing (a_store name.now value.now) (sizes_of self.now) (variables (names values.old)))) }
        ensures kept { OnOk result (take (length (names values.old)) (names values.new) ≡ names values.old) }
        ensures placed { OnOk result (take (length (places values.old)) (places values.new) ≡ places values.old) }
        ensures fault { IfErr result (IsFaultOf (statement_check (a_store name.now value.now) (scope_of self.now) (names values.old))) }
        ensures cause { IfErr result (IsCauseOf (statement_passing (a_store name.now value.now) (scope_of self.now) values.old)) }
    {
        let typed = self.expr(values, value)?;
        expect_variable(values, name, typed.kind)?;
        Ok(typed.size.also(Size::one()))
    }

    /// A value that is put into an array.
    pub(crate) fn put_statement(
        &self,
        values: &mut Values<'a>,
        name: &Ident,
        index: &Expr,
        value: &Expr,
    ) -> Result<Size, NameFault>
        ensures checked { OnOk result (statement_check (a_put name.now index.now value.now)
            (scope_of self.now) (names values.old) ≡ Ok (names values.new)) }
        ensures told { OnOk result (statement_passing (a_put name.now index.now value.now) (scope_of self.now) values.old ≡ Ok values.new) }
        ensures sized { IfOk result (λ size. IsSized size (names values.new)
            (statement_sizing (a_put name.now index.now value.now) (sizes_of self.now) (variables (names values.old)))) }
        ensures kept { OnOk result (take (length (names values.old)) (names values.new) ≡ names values.old) }
        ensures placed { OnOk result (take (length (places values.old)) (places values.new) ≡ places values.old) }
        ensures fault { IfErr result (IsFaultOf (statement_check (a_put name.now index.now value.now)
            (scope_of self.now) (names values.old))) }
        ensures cause { IfErr result (IsCauseOf (statement_passing (a_put name.now index.now value.now) (scope_of self.now) values.old)) }
    {
        let index = self.expr(values, index)?;
        let typed = self.expr(values, value)?;
        expect_array(values, name, index.kind, typed.kind)?;
        Ok(index.size.also(typed.size).also(Size::one()))
    }

    /// A value that is given to a host.
    pub(crate) fn output_statement(
        &self,
        values: &mut Values<'a>,
        value: &Expr,
        host: &Ident,
    ) -> Result<Size, NameFault>
        ensures checked { OnOk result (statement_check (an_output value.now host.now)
            (scope_of self.now) (names values.old) ≡ Ok (names values.new)) }
        ensures told { OnOk result (statement_passing (an_output value.now host.now) (scope_of self.now) values.old ≡ Ok values.new) }
        ensures sized { IfOk result (λ size. IsSized size (names values.new)
            (statement_sizing (an_output value.now host.now) (sizes_of self.now) (variables (names values.old)))) }
        ensures kept { OnOk result (take (length (names values.old)) (names values.new) ≡ names values.old) }
        ensures placed { OnOk result (take (length (places values.old)) (places values.new) ≡ places values.old) }
        ensures fault { IfErr result (IsFaultOf (statement_check (an_output value.now host.now) (scope_of self.now) (names values.old))) }
        ensures cause { IfErr result (IsCauseOf (statement_passing (an_output value.now host.now) (scope_of self.now) values.old)) }
    {
        let typed = self.expr(values, value)?;
        known(self.hosts, host)?;
        Ok(typed.size.also(Size::one()))
    }
}
