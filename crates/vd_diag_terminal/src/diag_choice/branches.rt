//! Where in the source the branches of a program stand.

ghost use Rattle.std.specs.Prelude.{◌≡◌, ◌++◌, IfOk, OnOk};
ghost use Rattle.vd_diag_terminal.specs.StuckSentences as spec;

use std::alloc::{AllocError, Global};
use vd_base::Items;
use vd_core::{NormalForm, Stmt};

/// Adds the offsets of the Ifs in a statement.
#[cycle(ifs)]
fn add_ifs(offsets: &mut Items<u32>, stmt: &Stmt) -> Result<(), AllocError>
    ensures { OnOk result (offsets.new ≡ offsets.old ++ spec.ifs_of stmt.now) }
{
    match stmt {
        Stmt::Let(_, _)
        | Stmt::NewVar(_, _)
        | Stmt::NewArray(_, _)
        | Stmt::Store(_, _)
        | Stmt::Put(_, _, _)
        | Stmt::Output(_, _, _) => Ok(()),
        Stmt::If(_, then_block, else_block, offset) => {
            offsets.push(*offset)?;
            add_all_ifs(offsets, then_block.as_slice())?;
            add_all_ifs(offsets, else_block.as_slice())
        }
        Stmt::For(_, body) => add_all_ifs(offsets, body.as_slice()),
    }
}

/// Adds the offsets of the Ifs in statements.
#[cycle(ifs)]
fn add_all_ifs(offsets: &mut Items<u32>, body: &[Stmt]) -> Result<(), AllocError>
    ensures { OnOk result (offsets.new ≡ offsets.old ++ spec.ifs_in body.now) }
{
    for stmt in body {
        add_ifs(offsets, stmt)?;
    }
    Ok(())
}

/// The offset of each If of a program, in program order.
pub(crate) fn if_offsets(alloc: Global, form: &NormalForm) -> Result<Items<u32>, AllocError>
    ensures { IfOk result (λ offsets. offsets ≡ spec.ifs_in form.now.body) }
{
    let mut offsets = Items::new(alloc);
    add_all_ifs(&mut offsets, form.body.as_slice())?;
    Ok(offsets)
}
