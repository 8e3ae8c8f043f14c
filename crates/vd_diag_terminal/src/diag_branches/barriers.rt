//! What in a branch keeps it from becoming a selection.

ghost use Rattle.std.specs.Prelude.{◌≡◌};
ghost use Rattle.vd_diag_terminal.specs.Barriers.{barrier_of, first_in, right_barrier as barrier_of_the_right};

use vd_core::{Right, Stmt};

/// What is done in a branch that would tell that it is taken, or that has no selection.
#[derive(Clone, Copy, PartialEq, Eq)]
pub(crate) enum Barrier {
    Loop,
    Array,
    Input,
    Output,
    Declassify,
    Endorse,
}

fn right_barrier(right: &Right) -> Option<Barrier>
    ensures { result ≡ barrier_of_the_right right.now }
{
    match right {
        Right::Lit(_) => None,
        Right::Turn => Some(Barrier::Loop),
        Right::Copy(_) => None,
        Right::Apply(_, _) => None,
        Right::Input(_) => Some(Barrier::Input),
        Right::Declassify(_, _) => Some(Barrier::Declassify),
        Right::Endorse(_, _) => Some(Barrier::Endorse),
        Right::Load(_) => None,
        Right::Get(_, _) => Some(Barrier::Array),
    }
}

/// The first barrier in a statement, if it has one.
#[cycle(barrier)]
fn barrier_in(stmt: &Stmt) -> Option<Barrier>
    ensures { result ≡ barrier_of stmt.now }
{
    match stmt {
        Stmt::Let(_, right) => right_barrier(right),
        Stmt::NewVar(_, _) => None,
        Stmt::NewArray(_, _) => Some(Barrier::Array),
        Stmt::Store(_, _) => None,
        Stmt::Put(_, _, _) => Some(Barrier::Array),
        Stmt::Output(_, _, _) => Some(Barrier::Output),
        Stmt::If(_, then_block, else_block, _) => match first_barrier(then_block.as_slice()) {
            Some(barrier) => Some(barrier),
            None => first_barrier(else_block.as_slice()),
        },
        Stmt::For(_, _) => Some(Barrier::Loop),
    }
}

/// The first barrier in these statements, if they have one.
#[cycle(barrier)]
pub(crate) fn first_barrier(body: &[Stmt]) -> Option<Barrier>
    ensures { result ≡ first_in body.now }
{
    for stmt in body {
        let found = barrier_in(stmt);
        if found.is_some() {
            return found;
        }
    }
    None
}
