//! Expressions: kinds and sizes.

ghost use Rattle.std.specs.Prelude.{◌≡◌, [], map, Ok, OnOk, IfErr, IfOk};
ghost use Rattle.vd_resolve.specs.Rules.{typing, typing_of_segment, typings, chain_typing, signs_typing, value_kind, element_kind, call_kind, kind_or, and_then, function_names};
ghost use Rattle.vd_base.specs.Names.{at_name, is_among};
ghost use Rattle.vd_resolve.specs.Causes.{call_met, chain_telling, go_on, index_met, signs_telling, telling, telling_of_segment, tellings, where_meet};
ghost use Rattle.vd_resolve.specs.Faults.{Kinds};
ghost use Rattle.vd_resolve.specs.declared.met.Met.TheVariants as meets;
ghost use Rattle.vd_resolve.specs.Sizes.{IsCapped, expr_size, sizing, sizing_of_segment, segments_after, signs_after, sizes_after, is_variable, is_scale, call_size, nothing, also};
ghost use Rattle.vd_resolve.specs.Tables.{names};
ghost use Rattle.vd_resolve.specs.Walks.{IsCauseOf, IsFaultOf, variables};
ghost use Rattle.vd_resolve.specs.Scopes.{scope_of, sizes_of};

use crate::arguments::check_arguments;
use crate::declarations::Declarations;
use crate::fault::NameFault;
use crate::kinds::{of_infix, of_prefix, of_shift};
use crate::met::Met;
use crate::parts::{named, of_element, of_input, of_three, of_two, relabelled};
use crate::size::Size;
use crate::symbol::Symbol;
use crate::table::NameTable;
use vd_base::{Items, Kind, Span};
use vd_core::{Expr, Function, Ident, Infix, Segment, Sign};

/// The values in sight.
pub(crate) type Values<'a> = NameTable<'a, Symbol>;

/// The kind of an expression, and its size.
#[derive(Clone, Copy)]
pub(crate) struct Typed {
    pub kind: Kind,
    pub size: Size,
}

/// The kinds of arguments, and their sizes together.
#[derive(Drop)]
struct Arguments {
    kinds: Items<Kind>,
    size: Size,
}

/// The kind of an operation, or what met where it has none.
pub(crate) fn kind_at(at: Span, met: Met, kind: Option<Kind>) -> Result<Kind, NameFault>
    ensures ok { IfOk result (λ given. kind_or at kind ≡ Ok given) }
    ensures fault { IfErr result (IsFaultOf (kind_or at kind)) }
    ensures cause { IfErr result (IsCauseOf (where_meet (Kinds met) (kind_or at kind))) }
{
    kind.ok_or(NameFault::Kind(at, met))
}

/// The operators before an operand, the nearest first.
fn with_signs(operand: Typed, signs: &[Sign]) -> Result<Typed, NameFault>
    ensures kind { IfOk result (λ typed. signs_typing signs.now operand.kind ≡ Ok typed.kind) }
    ensures told { IfOk result (λ typed. signs_telling signs.now operand.kind ≡ Ok typed.kind) }
    ensures size { IfOk result (λ typed. (exact : Size) → IsCapped operand.size exact → IsCapped typed.size (signs_after exact signs.now)) }
    ensures fault { IfErr result (IsFaultOf (signs_typing signs.now operand.kind)) }
    ensures cause { IfErr result (IsCauseOf (signs_telling signs.now operand.kind)) }
{
    let mut typed = operand;
    for sign in signs {
        let met = Met::Behind(typed.kind);
        let kind = kind_at(sign.span, met, of_prefix(sign.prefix, typed.kind))?;
        let size = typed.size.also(Size::one());
        typed = Typed { kind, size };
    }
    Ok(typed)
}

#[tactic(auto, using(crate::proofs::Lookups::variable_at))]
pub(crate) fn is_variable(values: &Values<'_>, name: &[u8]) -> bool
    ensures { result ≡ is_variable (variables (names values.now)) name.now }
{
    matches!(values.get(name), Some(Symbol::Variable(_)))
}

pub(crate) fn value(values: &Values<'_>, name: &Ident) -> Result<Kind, NameFault>
    ensures ok { IfOk result (λ kind. value_kind name.now.span (at_name (names values.now) name.now.name) ≡ Ok kind) }
    ensures fault { IfErr result (IsFaultOf (value_kind name.now.span (at_name (names values.now) name.now.name))) }
    ensures cause { IfErr result (IsCauseOf (where_meet (Kinds meets.WholeArray)
        (value_kind name.now.span (at_name (names values.now) name.now.name)))) }
{
    match values.get(name.name.as_slice()) {
        None => Err(NameFault::Unknown(name.span)),
        Some(Symbol::Constant(kind) | Symbol::Variable(kind)) => Ok(*kind),
        Some(Symbol::Array(_)) => Err(NameFault::Kind(name.span, Met::WholeArray)),
    }
}

/// An element of an array, by an index of this kind.
pub(crate) fn element(values: &Values<'_>, name: &Ident, index: Kind) -> Result<Kind, NameFault>
    ensures ok { IfOk result (λ kind. element_kind name.now.span index (at_name (names values.now) name.now.name) ≡ Ok kind) }
    ensures fault { IfErr result (IsFaultOf (element_kind name.now.span index (at_name (names values.now) name.now.name))) }
    ensures cause { IfErr result (IsCauseOf (where_meet (Kinds (index_met (at_name (names values.now) name.now.name)))
        (element_kind name.now.span index (at_name (names values.now) name.now.name)))) }
{
    match (values.get(name.name.as_slice()), index) {
        (None, _) => Err(NameFault::Unknown(name.span)),
        (Some(Symbol::Array(kind)), Kind::Word) => Ok(*kind),
        (Some(Symbol::Array(_)), Kind::Bool) => Err(NameFault::Kind(name.span, Met::BoolIndex)),
        (Some(_), _) => Err(NameFault::Kind(name.span, Met::NoArray)),
    }
}

/// Whether a `let` of the expression copies a binding that there is or that a call gives.
pub(crate) fn is_plain(values: &Values<'_>, expr: &Expr) -> bool
    ensures { result ≡ (sizing expr.now).plain (variables (names values.now)) }
{
    match expr {
        Expr::Value(name) => !is_variable(values, name.name.as_slice()),
        Expr::Call(_, _) => true,
        Expr::Unary(inner, signs) => signs.as_slice().is_empty() && is_plain(values, inner),
        Expr::Chain(first, segments) => segments.as_slice().is_empty() && is_plain(values, first),
        Expr::Brackets(inner) => is_plain(values, inner),
        _ => false,
    }
}

/// Whether a `*` with this right operand is an operation with a number.
fn is_scale(operator: Infix, right: &Expr) -> bool
    ensures { result ≡ is_scale operator (sizing right.now).bare }
{
    match operator {
        Infix::Mul => is_bare(right),
        _ => false,
    }
}

fn is_bare(expr: &Expr) -> bool
    ensures { result ≡ (sizing expr.now).bare }
{
    matches!(expr, Expr::Number(_))
}

impl<'a> Declarations<'a> {
    /// The kind and size of an expression.
    #[cycle(typing)]
    pub fn expr(&self, values: &Values<'a>, expr: &Expr) -> Result<Typed, NameFault>
        ensures kind { IfOk result (λ typed. typing expr.now (scope_of self.now) (names values.now) ≡ Ok typed.kind) }
        ensures told { IfOk result (λ typed. telling expr.now (scope_of self.now) (names values.now) ≡ Ok typed.kind) }
        ensures size { IfOk result (λ typed. IsCapped typed.size (expr_size expr.now (sizes_of self.now) (variables (names values.now)))) }
        ensures fault { IfErr result (IsFaultOf (typing expr.now (scope_of self.now) (names values.now))) }
        ensures cause { IfErr result (IsCauseOf (telling expr.now (scope_of self.now) (names values.now))) }
    {
        match expr {
            Expr::Number(_) => Ok(Typed {
                kind: Kind::Word,
                size: Size::one(),
            }),
            Expr::Truth(_) => Ok(Typed {
                kind: Kind::Bool,
                size: Size::one(),
            }),
            Expr::Value(name) => named(values, name),
            Expr::Element(name, index) => {
                let index = self.expr(values, index)?;
                of_element(values, name, index)
            }
            Expr::Input(host) => of_input(self.hosts, host),
            Expr::Min(at, left, right) | Expr::Max(at, left, right) => {
                let left = self.expr(values, left)?;
                let right = self.expr(values, right)?;
                of_two(*at, left, right)
            }
            Expr::Mux(at, test, left, right) => {
                let test = self.expr(values, test)?;
                let left = self.expr(values, left)?;
                let right = self.expr(values, right)?;
                of_three(*at, test, left, right)
            }
            Expr::Declassify(inner, to) | Expr::Endorse(inner, to) => {
                let inner = self.expr(values, inner)?;
                relabelled(self.principals, inner, to)
            }
            Expr::Unary(inner, signs) => {
                let inner = self.expr(values, inner)?;
                with_signs(inner, signs.as_slice())
            }
            Expr::Brackets(inner) => self.expr(values, inner),
            Expr::Chain(first, segments) => {
                let first = self.expr(values, first)?;
                let rest = self.chain(values, first.kind, segments.as_slice())?;
                Ok(Typed {
                    kind: rest.kind,
                    size: first.size.also(rest.size),
                })
            }
            Expr::Call(name, arguments) => self.call(values, name, arguments.as_slice()),
        }
    }

    /// The steps of a chain from the left, on an operand of this kind.
    #[cycle(typing)]
    fn chain(
        &self,
        values: &Values<'a>,
        first: Kind,
        segments: &[Segment],
    ) -> Result<Typed, NameFault>
        ensures kind { IfOk result (λ typed. chain_typing (map typing_of_segment segments.now) (scope_of self.now) (names values.now) first ≡
            Ok typed.kind) }
        ensures told { IfOk result (λ typed. chain_telling (map telling_of_segment segments.now) (scope_of self.now) (names values.now) first ≡
            Ok typed.kind) }
        ensures size { IfOk result (λ typed. IsCapped typed.size
            (segments_after nothing (map sizing_of_segment segments.now) (sizes_of self.now) (variables (names values.now)))) }
        ensures fault { IfErr result (IsFaultOf (chain_typing (map typing_of_segment segments.now)
            (scope_of self.now) (names values.now) first)) }
        ensures cause { IfErr result (IsCauseOf (chain_telling (map telling_of_segment segments.now)
            (scope_of self.now) (names values.now) first)) }
    {
        let mut kind = first;
        let mut size = Size::nothing();
        for segment in segments {
            let step = self.segment(values, kind, segment)?;
            kind = step.kind;
            size = size.also(step.size);
        }
        Ok(Typed { kind, size })
    }

    /// One step of a chain, on an operand of this kind.
    #[cycle(typing)]
    fn segment(
        &self,
        values: &Values<'a>,
        left: Kind,
        segment: &Segment,
    ) -> Result<Typed, NameFault>
        ensures kind { IfOk result (λ typed. typing_of_segment segment.now (scope_of self.now) (names values.now) left ≡ Ok typed.kind) }
        ensures told { IfOk result (λ typed. telling_of_segment segment.now (scope_of self.now) (names values.now) left ≡ Ok typed.kind) }
        ensures size { IfOk result (λ typed. IsCapped typed.size (sizing_of_segment segment.now (sizes_of self.now)
            (variables (names values.now)))) }
        ensures fault { IfErr result (IsFaultOf (typing_of_segment segment.now (scope_of self.now) (names values.now) left)) }
        ensures cause { IfErr result (IsCauseOf (telling_of_segment segment.now (scope_of self.now) (names values.now) left)) }
    {
        match segment {
            Segment::Infix(operator, at, operand) => {
                let right = self.expr(values, operand)?;
                let met = Met::Sides(left, right.kind);
                let kind = kind_at(*at, met, of_infix(*operator, left, right.kind))?;
                let size = if is_scale(*operator, operand) {
                    Size::one()
                } else {
                    right.size.also(Size::one())
                };
                Ok(Typed { kind, size })
            }
            Segment::Shift(_, at, bits) => {
                let met = Met::Shifted(left, *bits);
                let kind = kind_at(*at, met, of_shift(left, *bits))?;
                Ok(Typed {
                    kind,
                    size: Size::one(),
                })
            }
        }
    }

    /// The arguments of a call, from left to right.
    #[cycle(typing)]
    fn arguments(&self, values: &Values<'a>, exprs: &[Expr]) -> Result<Arguments, NameFault>
        ensures kinds { IfOk result (λ given. typings [] (map typing exprs.now) (scope_of self.now) (names values.now) ≡ Ok given.kinds) }
        ensures told { IfOk result (λ given. tellings [] (map telling exprs.now) (scope_of self.now) (names values.now) ≡ Ok given.kinds) }
        ensures size { IfOk result (λ given. IsCapped given.size (sizes_after nothing (map sizing exprs.now) (sizes_of self.now)
            (variables (names values.now)))) }
        ensures fault { IfErr result (IsFaultOf (typings [] (map typing exprs.now) (scope_of self.now) (names values.now))) }
        ensures cause { IfErr result (IsCauseOf (tellings [] (map telling exprs.now) (scope_of self.now) (names values.now))) }
    {
        let mut kinds = Items::new(self.alloc);
        let mut size = Size::nothing();
        for expr in exprs {
            let argument = self.expr(values, expr)?;
            kinds.push(argument.kind)?;
            size = size.also(argument.size);
        }
        Ok(Arguments { kinds, size })
    }

    /// A call of a function that is declared before.
    #[cycle(typing)]
    fn call(&self, values: &Values<'a>, name: &Ident, exprs: &[Expr]) -> Result<Typed, NameFault>
        ensures kind { IfOk result (λ typed. and_then (typings [] (map typing exprs.now) (scope_of self.now) (names values.now))
            (λ kinds. call_kind name.now.span kinds (is_among (scope_of self.now).later name.now.name)
            (at_name (scope_of self.now).functions name.now.name)) ≡ Ok typed.kind) }
        ensures told { IfOk result (λ typed. go_on (tellings [] (map telling exprs.now) (scope_of self.now) (names values.now))
            (λ kinds. where_meet (call_met kinds (at_name (scope_of self.now).functions name.now.name))
            (call_kind name.now.span kinds (is_among (scope_of self.now).later name.now.name)
            (at_name (scope_of self.now).functions name.now.name))) ≡ Ok typed.kind) }
        ensures size { IfOk result (λ typed. IsCapped typed.size
            (also (sizes_after nothing (map sizing exprs.now) (sizes_of self.now) (variables (names values.now)))
            (call_size (at_name (sizes_of self.now) name.now.name)))) }
        ensures fault { IfErr result (IsFaultOf (and_then (typings [] (map typing exprs.now) (scope_of self.now) (names values.now))
            (λ kinds. call_kind name.now.span kinds (is_among (scope_of self.now).later name.now.name)
            (at_name (scope_of self.now).functions name.now.name)))) }
        ensures cause { IfErr result (IsCauseOf (go_on (tellings [] (map telling exprs.now) (scope_of self.now) (names values.now))
            (λ kinds. where_meet (call_met kinds (at_name (scope_of self.now).functions name.now.name))
            (call_kind name.now.span kinds (is_among (scope_of self.now).later name.now.name)
            (at_name (scope_of self.now).functions name.now.name))))) }
    {
        let arguments = self.arguments(values, exprs)?;
        let inlined = self.callee(name, arguments.kinds.as_slice())?;
        Ok(Typed {
            kind: inlined.kind,
            size: arguments.size.also(inlined.size),
        })
    }

    /// What a call with arguments of these kinds gives, and the size of what is put in its place.
    #[tactic(auto, using(crate::proofs::Lookups::signature_at))]
    fn callee(&self, name: &Ident, kinds: &[Kind]) -> Result<Typed, NameFault>
        ensures kind { IfOk result (λ typed. call_kind name.now.span kinds.now (is_among (scope_of self.now).later name.now.name)
            (at_name (scope_of self.now).functions name.now.name) ≡ Ok typed.kind) }
        ensures size { IfOk result (λ typed. IsCapped typed.size (call_size (at_name (sizes_of self.now) name.now.name))) }
        ensures fault { IfErr result (IsFaultOf (call_kind name.now.span kinds.now (is_among (scope_of self.now).later name.now.name)
            (at_name (scope_of self.now).functions name.now.name))) }
        ensures cause { IfErr result (IsCauseOf (where_meet (call_met kinds.now (at_name (scope_of self.now).functions name.now.name))
            (call_kind name.now.span kinds.now (is_among (scope_of self.now).later name.now.name)
            (at_name (scope_of self.now).functions name.now.name)))) }
    {
        match self.callees.get(name.name.as_slice()) {
            None => {
                if is_declared(self.later, name.name.as_slice()) {
                    Err(NameFault::Recursive(name.span))
                } else {
                    Err(NameFault::Unknown(name.span))
                }
            }
            Some(callee) => {
                let parameters = callee.signature.parameters.as_slice();
                if kinds.len() != parameters.len() {
                    return Err(NameFault::Arity(name.span));
                }
                check_arguments(name.span, kinds, parameters)?;
                Ok(Typed {
                    kind: callee.signature.result,
                    size: callee.size.inlined(),
                })
            }
        }
    }
}

/// Whether one of the functions has the name.
fn is_declared(functions: &[Function], name: &[u8]) -> bool
    ensures { result ≡ is_among (function_names functions.now) name.now }
{
    for function in functions {
        if function.name.name.as_slice() == name {
            return true;
        }
    }
    false
}
