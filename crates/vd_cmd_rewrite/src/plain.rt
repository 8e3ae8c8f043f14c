//! Whether there is anything to rewrite in a program.

ghost use Rattle.std.specs.Prelude.{◌≡◌};
ghost use Rattle.vd_cmd_rewrite.specs.Plain as plain;

use vd_base::Op;
use vd_core::{Right, Stmt};

/// Whether a branch stands in a statement.
#[cycle(branch)]
fn holds_branch(stmt: &Stmt) -> bool
    ensures { result ≡ plain.holds_branch stmt.now }
{
    match stmt {
        Stmt::If(_, _, _, _) => true,
        Stmt::For(_, body) => some_branch(body.as_slice()),
        _ => false,
    }
}

/// Whether a branch stands in these statements.
#[cycle(branch)]
pub(crate) fn some_branch(body: &[Stmt]) -> bool
    ensures { result ≡ plain.some_branch body.now }
{
    for stmt in body {
        if holds_branch(stmt) {
            return true;
        }
    }
    false
}

fn divides(right: &Right) -> bool
    ensures { result ≡ plain.right_divides right.now }
{
    match right {
        Right::Apply(Op::Div, _) => true,
        Right::Apply(Op::Rem, _) => true,
        _ => false,
    }
}

/// Whether a division stands in a statement.
#[cycle(division)]
fn holds_division(stmt: &Stmt) -> bool
    ensures { result ≡ plain.holds_division stmt.now }
{
    match stmt {
        Stmt::Let(_, right) => divides(right),
        Stmt::If(_, then_block, else_block, _) => {
            some_division(then_block.as_slice()) || some_division(else_block.as_slice())
        }
        Stmt::For(_, body) => some_division(body.as_slice()),
        _ => false,
    }
}

/// Whether a division stands in these statements.
#[cycle(division)]
pub(crate) fn some_division(body: &[Stmt]) -> bool
    ensures { result ≡ plain.some_division body.now }
{
    for stmt in body {
        if holds_division(stmt) {
            return true;
        }
    }
    false
}
