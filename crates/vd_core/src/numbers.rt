//! The numbers of a program are words: a fact of their types, which the clause hands out. Nothing is computed here.

ghost use Rattle.std.specs.Prelude.{◌≡◌, true};
ghost use Rattle.vd_core.specs.Facts.{all_meet, meets};
ghost use Rattle.vd_core.specs.Numbers.{NumbersFit, factor_fits, number_fits, numbers_fit as fit};

use crate::normal::{NormalForm, Right, Stmt};
use vd_base::{Op, word_fits};

fn factor_fits(op: Op)
    ensures { factor_fits op ≡ true }
{
    match op {
        Op::Scale(factor) => word_fits(factor),
        _ => {}
    }
}

fn number_fits(right: &Right)
    ensures { number_fits right.now ≡ true }
{
    match right {
        Right::Lit(word) => word_fits(*word),
        Right::Apply(op, _) => factor_fits(*op),
        _ => {}
    }
}

#[cycle(numbers)]
fn statement_fits(stmt: &Stmt)
    ensures { meets fit stmt.now ≡ true }
{
    match stmt {
        Stmt::Let(_, right) => number_fits(right),
        Stmt::If(_, first, other, _) => {
            block_fits(first.as_slice());
            block_fits(other.as_slice());
        }
        Stmt::For(count, body) => {
            word_fits(*count);
            block_fits(body.as_slice());
        }
        _ => {}
    }
}

#[cycle(numbers)]
fn block_fits(body: &[Stmt])
    ensures { all_meet fit body.now ≡ true }
{
    for stmt in body {
        statement_fits(stmt);
    }
}

/// The numbers of a let-normal form are words.
pub(crate) fn numbers_are_words(form: &NormalForm)
    ensures { NumbersFit form.now }
{
    block_fits(form.body.as_slice())
}
