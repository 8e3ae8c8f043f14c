//! How deep loops stand in each other.

ghost use Rattle.std.specs.Prelude.{◌≡◌, nat_le};
ghost use Rattle.vd_core.specs.Facts.{nesting, nesting_of};

use vd_core::Stmt;

/// Whether loops stand in each other no deeper than that in a statement.
#[cycle(nesting)]
fn nests_within(stmt: &Stmt, most: u32) -> bool
    ensures { result ≡ nat_le (nesting_of stmt.now) most }
{
    match stmt {
        Stmt::If(_, then_block, else_block, _) => {
            nest_within(then_block.as_slice(), most) && nest_within(else_block.as_slice(), most)
        }
        Stmt::For(_, body) => match most.checked_sub(1) {
            Some(inner) => nest_within(body.as_slice(), inner),
            None => false,
        },
        _ => true,
    }
}

/// Whether loops stand in each other no deeper than that in these statements.
#[cycle(nesting)]
pub(crate) fn nest_within(body: &[Stmt], most: u32) -> bool
    ensures { result ≡ nat_le (nesting body.now) most }
{
    for stmt in body {
        if !nests_within(stmt, most) {
            return false;
        }
    }
    true
}
