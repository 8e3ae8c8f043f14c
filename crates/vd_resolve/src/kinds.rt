//! The kinds of operations. None: the operands are of wrong kinds.

ghost use Rattle.std.specs.Prelude.{◌≡◌};
ghost use Rattle.vd_resolve.specs.Rules.{prefix_kind, of_words, of_one_kind, infix_kind, shift_kind, mux_kind};

use vd_base::Kind;
use vd_core::{Infix, Prefix};

pub(crate) fn of_prefix(operator: Prefix, kind: Kind) -> Option<Kind>
    ensures { result ≡ prefix_kind operator kind }
{
    match (operator, kind) {
        (Prefix::Flip, Kind::Bool) => Some(Kind::Bool),
        (Prefix::Not, Kind::Word) => Some(Kind::Word),
        _ => None,
    }
}

/// An operation on two words.
pub(crate) fn on_words(gives: Kind, left: Kind, right: Kind) -> Option<Kind>
    ensures { result ≡ of_words gives left right }
{
    match (left, right) {
        (Kind::Word, Kind::Word) => Some(gives),
        _ => None,
    }
}

/// An operation on two words or on two bools.
pub(crate) fn on_one_kind(left: Kind, right: Kind) -> Option<Kind>
    ensures { result ≡ of_one_kind left right }
{
    if left == right { Some(left) } else { None }
}

pub(crate) fn of_infix(operator: Infix, left: Kind, right: Kind) -> Option<Kind>
    ensures { result ≡ infix_kind operator left right }
{
    match operator {
        Infix::Equal
        | Infix::NotEqual
        | Infix::Less
        | Infix::LessEqual
        | Infix::Greater
        | Infix::GreaterEqual => on_words(Kind::Bool, left, right),
        Infix::Or | Infix::Xor | Infix::And => on_one_kind(left, right),
        Infix::Add | Infix::Sub | Infix::Mul | Infix::Div | Infix::Rem => {
            on_words(Kind::Word, left, right)
        }
    }
}

pub(crate) fn of_shift(kind: Kind, bits: u32) -> Option<Kind>
    ensures { result ≡ shift_kind kind bits }
{
    match kind {
        Kind::Word if bits <= 31 => Some(Kind::Word),
        _ => None,
    }
}

pub(crate) fn of_mux(test: Kind, left: Kind, right: Kind) -> Option<Kind>
    ensures { result ≡ mux_kind test left right }
{
    match test {
        Kind::Bool => on_one_kind(left, right),
        Kind::Word => None,
    }
}
