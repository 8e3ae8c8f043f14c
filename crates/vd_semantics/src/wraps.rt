//! Operators whose result by words is not that by integers.

ghost use Rattle.std.specs.Prelude.{◌≡◌, OnOk};
ghost use Rattle.vd_semantics.specs.Wraps.{is_other, with_wrap};

use std::alloc::AllocError;
use vd_base::{Items, Span};
use vd_core::Infix;

/// An operator that wrapped once.
#[derive(Clone, Copy)]
pub struct Wrap {
    pub operator: Infix,
    /// Where in the source the operator stands.
    pub at: Span,
}

/// Whether the result by integers is another than this word.
fn is_other(operator: Infix, x: u32, y: u32, word: u32) -> bool
    ensures { result ≡ is_other operator x y word }
{
    match operator {
        Infix::Add => u64::from(x) + u64::from(y) != u64::from(word),
        Infix::Sub => u64::from(word) + u64::from(y) != u64::from(x),
        Infix::Mul => u64::from(x) * u64::from(y) != u64::from(word),
        Infix::Equal
        | Infix::NotEqual
        | Infix::Less
        | Infix::LessEqual
        | Infix::Greater
        | Infix::GreaterEqual
        | Infix::Or
        | Infix::Xor
        | Infix::And
        | Infix::Div
        | Infix::Rem => false,
    }
}

/// Notes an operator that gave this word, where it wrapped.
pub(crate) fn note(
    wraps: &mut Items<Wrap>,
    operator: Infix,
    at: Span,
    x: u32,
    y: u32,
    word: u32,
) -> Result<(), AllocError>
    ensures { OnOk result (wraps.new ≡ with_wrap operator at x y word wraps.old) }
{
    if is_other(operator, x, y, word) {
        wraps.push(Wrap { operator, at })?;
    }
    Ok(())
}
