//! Branches on what no host may read.

ghost use Rattle.std.specs.Prelude.{◌≡◌};
ghost use Rattle.vd_diag_terminal.specs.Barriers.{branch_at, branch_of, first_branch as the_first_branch};
ghost use Rattle.vd_rewrite.specs.Rewriting.{marked};

use crate::diag_branches::barriers::{Barrier, first_barrier};
use vd_base::SlotId;
use vd_core::Stmt;
use vd_rewrite::is_marked;

/// A branch that cannot be hidden: the offset of its If, and the first thing that stands in the way.
#[derive(Clone, Copy, PartialEq, Eq)]
pub(crate) struct Branch {
    pub offset: u32,
    pub barrier: Barrier,
}

/// Such a branch of an If with this guard, if it has one.
fn own_branch(
    hidden: &[bool],
    guard: SlotId,
    then_block: &[Stmt],
    else_block: &[Stmt],
    offset: u32,
) -> Option<Branch>
    ensures { result ≡ branch_at (marked hidden.now guard) then_block.now else_block.now offset }
{
    if !is_marked(hidden, guard) {
        return None;
    }
    let found = match first_barrier(then_block) {
        Some(barrier) => Some(barrier),
        None => first_barrier(else_block),
    };
    match found {
        Some(barrier) => Some(Branch { offset, barrier }),
        None => None,
    }
}

/// The first such branch in a statement, if it has one. `hidden` marks the slots that no host may read.
#[cycle(branch)]
fn branch_in(hidden: &[bool], stmt: &Stmt) -> Option<Branch>
    ensures { result ≡ branch_of (marked hidden.now) stmt.now }
{
    match stmt {
        Stmt::If(guard, then_block, else_block, offset) => {
            let then_block = then_block.as_slice();
            let else_block = else_block.as_slice();
            match own_branch(hidden, *guard, then_block, else_block, *offset) {
                Some(branch) => Some(branch),
                None => match first_branch(hidden, then_block) {
                    Some(branch) => Some(branch),
                    None => first_branch(hidden, else_block),
                },
            }
        }
        Stmt::For(_, body) => first_branch(hidden, body.as_slice()),
        _ => None,
    }
}

/// The first such branch in these statements, if they have one.
#[cycle(branch)]
pub(crate) fn first_branch(hidden: &[bool], body: &[Stmt]) -> Option<Branch>
    ensures { result ≡ the_first_branch (marked hidden.now) body.now }
{
    for stmt in body {
        let found = branch_in(hidden, stmt);
        if found.is_some() {
            return found;
        }
    }
    None
}
