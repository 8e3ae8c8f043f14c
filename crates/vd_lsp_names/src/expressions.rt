//! The names in expressions.

ghost use Rattle.std.specs.Prelude.{◌≡◌, map, OnOk};
ghost use Rattle.vd_lsp_names.specs.Uses as uses;
ghost use Rattle.vd_lsp_names.specs.Uses.{naming, naming_of_segment};

use crate::forms::{form, mention};
use crate::kinds::{Declared, Outer, Use};
use std::alloc::AllocError;
use vd_base::{Items, Scope};
use vd_core::{Expr, Ident, Segment, WrittenForm};

impl Outer {
    /// The names in an expression, where these values are in sight.
    #[cycle(naming)]
    pub fn expr(
        &self,
        values: &Scope<Declared>,
        expr: &Expr,
        found: &mut Items<Use>,
    ) -> Result<(), AllocError>
        ensures { OnOk result (found.new ≡ naming expr.now self.now values.now found.old) }
    {
        match expr {
            Expr::Number(_) | Expr::Truth(_) => Ok(()),
            Expr::Value(name) => mention(values, name, found),
            Expr::Element(name, index) => self.element(values, name, index, found),
            Expr::Input(host) => mention(&self.hosts, host, found),
            Expr::Call(name, arguments) => self.call(values, name, arguments.as_slice(), found),
            Expr::Min(_, left, right) | Expr::Max(_, left, right) => {
                self.expr(values, left, found)?;
                self.expr(values, right, found)
            }
            Expr::Mux(_, test, left, right) => {
                self.expr(values, test, found)?;
                self.expr(values, left, found)?;
                self.expr(values, right, found)
            }
            Expr::Declassify(inner, to) | Expr::Endorse(inner, to) => {
                self.relabelled(values, inner, to, found)
            }
            Expr::Unary(inner, _) | Expr::Brackets(inner) => self.expr(values, inner, found),
            Expr::Chain(first, segments) => {
                self.expr(values, first, found)?;
                self.segments(values, segments.as_slice(), found)
            }
        }
    }

    /// The names in an element of an array.
    #[cycle(naming)]
    fn element(
        &self,
        values: &Scope<Declared>,
        name: &Ident,
        index: &Expr,
        found: &mut Items<Use>,
    ) -> Result<(), AllocError>
        ensures { OnOk result (found.new ≡ naming index.now self.now values.now (uses.mention name.now values.now found.old)) }
    {
        mention(values, name, found)?;
        self.expr(values, index, found)
    }

    /// The names in expressions, from left to right.
    #[cycle(naming)]
    fn exprs(
        &self,
        values: &Scope<Declared>,
        exprs: &[Expr],
        found: &mut Items<Use>,
    ) -> Result<(), AllocError>
        ensures { OnOk result (found.new ≡ uses.in_turn (map naming exprs.now) self.now values.now found.old) }
    {
        for expr in exprs {
            self.expr(values, expr, found)?;
        }
        Ok(())
    }

    /// The names in a call.
    #[cycle(naming)]
    fn call(
        &self,
        values: &Scope<Declared>,
        name: &Ident,
        arguments: &[Expr],
        found: &mut Items<Use>,
    ) -> Result<(), AllocError>
        ensures { OnOk result (found.new ≡ uses.in_turn (map naming arguments.now) self.now values.now
            (uses.mention name.now self.now.functions found.old)) }
    {
        mention(&self.functions, name, found)?;
        self.exprs(values, arguments, found)
    }

    /// The names in a value with another label.
    #[cycle(naming)]
    fn relabelled(
        &self,
        values: &Scope<Declared>,
        inner: &Expr,
        to: &WrittenForm,
        found: &mut Items<Use>,
    ) -> Result<(), AllocError>
        ensures { OnOk result (found.new ≡ uses.form_naming to.now self.now.principals (naming inner.now self.now values.now found.old)) }
    {
        self.expr(values, inner, found)?;
        form(&self.principals, to, found)
    }

    /// The names in the steps of a chain.
    #[cycle(naming)]
    fn segments(
        &self,
        values: &Scope<Declared>,
        segments: &[Segment],
        found: &mut Items<Use>,
    ) -> Result<(), AllocError>
        ensures { OnOk result (found.new ≡ uses.in_turn (map naming_of_segment segments.now) self.now values.now found.old) }
    {
        for segment in segments {
            self.segment(values, segment, found)?;
        }
        Ok(())
    }

    /// The names in one step of a chain.
    #[cycle(naming)]
    fn segment(
        &self,
        values: &Scope<Declared>,
        segment: &Segment,
        found: &mut Items<Use>,
    ) -> Result<(), AllocError>
        ensures { OnOk result (found.new ≡ naming_of_segment segment.now self.now values.now found.old) }
    {
        match segment {
            Segment::Infix(_, _, right) => self.expr(values, right, found),
            Segment::Shift(_, _, _) => Ok(()),
        }
    }
}
