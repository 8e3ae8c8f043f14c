//! Expressions by the kinds and sizes of their parts.

ghost use Rattle.std.specs.Prelude.{◌≡◌, if◌then◌else◌, Ok, IfErr, IfOk};
ghost use Rattle.vd_base.specs.Names.{at_name};
ghost use Rattle.vd_base.specs.declared.operations.Kind.TheVariants.{Word};
ghost use Rattle.vd_resolve.specs.Causes.{go_on, index_met, plain, where_meet};
ghost use Rattle.vd_resolve.specs.Faults.{Kinds};
ghost use Rattle.vd_resolve.specs.Rules.{and_then, element_kind, form_check, kind_or, known as known_name, mux_kind, of_words, value_kind};
ghost use Rattle.vd_resolve.specs.Sizes.{IsCapped, also, is_variable, nothing, one};
ghost use Rattle.vd_resolve.specs.Tables.{names};
ghost use Rattle.vd_resolve.specs.Walks.{IsCauseOf, IsFaultOf, variables};
ghost use Rattle.vd_resolve.specs.declared.met.Met.TheVariants as met;

use crate::expression::{Typed, Values, element, is_variable, kind_at, value};
use crate::fault::NameFault;
use crate::kinds::{of_mux, on_words};
use crate::met::Met;
use crate::names::{check_form, known};
use crate::size::Size;
use crate::table::NameTable;
use vd_base::{Kind, Span};
use vd_core::{Ident, WrittenForm};

/// The value of a name.
pub(crate) fn named(values: &Values<'_>, name: &Ident) -> Result<Typed, NameFault>
    ensures kind { IfOk result (λ typed. value_kind name.now.span (at_name (names values.now) name.now.name) ≡ Ok typed.kind) }
    ensures size { IfOk result (λ typed. IsCapped typed.size
        (if is_variable (variables (names values.now)) name.now.name then one else nothing)) }
    ensures fault { IfErr result (IsFaultOf (value_kind name.now.span (at_name (names values.now) name.now.name))) }
    ensures cause { IfErr result (IsCauseOf (where_meet (Kinds met.WholeArray)
        (value_kind name.now.span (at_name (names values.now) name.now.name)))) }
{
    let kind = value(values, name)?;
    let size = if is_variable(values, name.name.as_slice()) {
        Size::one()
    } else {
        Size::nothing()
    };
    Ok(Typed { kind, size })
}

/// An element of an array, by its index.
pub(crate) fn of_element(
    values: &Values<'_>,
    name: &Ident,
    index: Typed,
) -> Result<Typed, NameFault>
    ensures kind { IfOk result (λ typed. element_kind name.now.span index.kind (at_name (names values.now) name.now.name) ≡
        Ok typed.kind) }
    ensures size { IfOk result (λ typed. (exact : Size) → IsCapped index.size exact → IsCapped typed.size (also exact one)) }
    ensures fault { IfErr result (IsFaultOf (element_kind name.now.span index.kind (at_name (names values.now) name.now.name))) }
    ensures cause { IfErr result (IsCauseOf (where_meet (Kinds (index_met (at_name (names values.now) name.now.name)))
        (element_kind name.now.span index.kind (at_name (names values.now) name.now.name)))) }
{
    let kind = element(values, name, index.kind)?;
    Ok(Typed {
        kind,
        size: index.size.also(Size::one()),
    })
}

/// An input of a host.
pub(crate) fn of_input(hosts: &NameTable<'_, ()>, host: &Ident) -> Result<Typed, NameFault>
    ensures kind { IfOk result (λ typed. and_then (known_name (names hosts.now) host.now) (λ done. Ok Word) ≡ Ok typed.kind) }
    ensures told { IfOk result (λ typed. go_on (plain (known_name (names hosts.now) host.now)) (λ done. Ok Word) ≡ Ok typed.kind) }
    ensures size { IfOk result (λ typed. IsCapped typed.size one) }
    ensures fault { IfErr result (IsFaultOf (known_name (names hosts.now) host.now)) }
    ensures cause { IfErr result (IsCauseOf (go_on (plain (known_name (names hosts.now) host.now)) (λ done. Ok Word))) }
{
    known(hosts, host)?;
    Ok(Typed {
        kind: Kind::Word,
        size: Size::one(),
    })
}

/// The smaller or the greater of two values.
pub(crate) fn of_two(at: Span, left: Typed, right: Typed) -> Result<Typed, NameFault>
    ensures kind { IfOk result (λ typed. kind_or at (of_words Word left.kind right.kind) ≡ Ok typed.kind) }
    ensures size { IfOk result (λ typed. (x y : Size) → IsCapped left.size x → IsCapped right.size y →
        IsCapped typed.size (also (also x y) one)) }
    ensures fault { IfErr result (IsFaultOf (kind_or at (of_words Word left.kind right.kind))) }
    ensures cause { IfErr result (IsCauseOf (where_meet (Kinds (met.Given left.kind right.kind))
        (kind_or at (of_words Word left.kind right.kind)))) }
{
    let met = Met::Given(left.kind, right.kind);
    let kind = kind_at(at, met, on_words(Kind::Word, left.kind, right.kind))?;
    Ok(Typed {
        kind,
        size: left.size.also(right.size).also(Size::one()),
    })
}

/// One of two values, as a test says.
pub(crate) fn of_three(at: Span, test: Typed, left: Typed, right: Typed) -> Result<Typed, NameFault>
    ensures kind { IfOk result (λ typed. kind_or at (mux_kind test.kind left.kind right.kind) ≡ Ok typed.kind) }
    ensures size { IfOk result (λ typed. (c x y : Size) → IsCapped test.size c → IsCapped left.size x → IsCapped right.size y →
        IsCapped typed.size (also (also (also c x) y) one)) }
    ensures fault { IfErr result (IsFaultOf (kind_or at (mux_kind test.kind left.kind right.kind))) }
    ensures cause { IfErr result (IsCauseOf (where_meet (Kinds (met.Chosen test.kind left.kind right.kind))
        (kind_or at (mux_kind test.kind left.kind right.kind)))) }
{
    let met = Met::Chosen(test.kind, left.kind, right.kind);
    let kind = kind_at(at, met, of_mux(test.kind, left.kind, right.kind))?;
    Ok(Typed {
        kind,
        size: test.size.also(left.size).also(right.size).also(Size::one()),
    })
}

/// A value with another label, whose form names principals.
pub(crate) fn relabelled(
    principals: &NameTable<'_, ()>,
    inner: Typed,
    to: &WrittenForm,
) -> Result<Typed, NameFault>
    ensures kind { IfOk result (λ typed. and_then (form_check to.now (names principals.now)) (λ done. Ok inner.kind) ≡ Ok typed.kind) }
    ensures told { IfOk result (λ typed. go_on (plain (form_check to.now (names principals.now))) (λ done. Ok inner.kind) ≡ Ok typed.kind) }
    ensures size { IfOk result (λ typed. (exact : Size) → IsCapped inner.size exact → IsCapped typed.size (also exact one)) }
    ensures fault { IfErr result (IsFaultOf (form_check to.now (names principals.now))) }
    ensures cause { IfErr result (IsCauseOf (go_on (plain (form_check to.now (names principals.now))) (λ done. Ok inner.kind))) }
{
    check_form(principals, to)?;
    Ok(Typed {
        kind: inner.kind,
        size: inner.size.also(Size::one()),
    })
}
