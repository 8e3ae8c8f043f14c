//! Where in the source the indexes of a program stand.

ghost use Rattle.std.specs.Prelude.{◌≡◌, ◌++◌, IfOk, OnOk};
ghost use Rattle.vd_diag_terminal.specs.StuckSentences as spec;

use crate::diag_choice::texts::{later_slot, slot_offset};
use std::alloc::{AllocError, Global};
use vd_base::Items;
use vd_core::{NormalForm, Right, Stmt};

/// Adds the place of a right side that reads an element.
fn add_right_sites(sites: &mut Items<u32>, offset: u32, right: &Right) -> Result<(), AllocError>
    ensures { OnOk result (sites.new ≡ sites.old ++ spec.right_sites offset right.now) }
{
    match right {
        Right::Get(_, _) => sites.push(offset),
        Right::Lit(_)
        | Right::Turn
        | Right::Copy(_)
        | Right::Apply(_, _)
        | Right::Input(_)
        | Right::Declassify(_, _)
        | Right::Endorse(_, _)
        | Right::Load(_) => Ok(()),
    }
}

/// Adds the places of the indexes in a statement.
#[cycle(sites)]
fn add_sites(sites: &mut Items<u32>, form: &NormalForm, stmt: &Stmt) -> Result<(), AllocError>
    ensures { OnOk result (sites.new ≡ sites.old ++ spec.sites_of form.now stmt.now) }
{
    match stmt {
        Stmt::Let(slot, right) => add_right_sites(
            sites,
            slot_offset(form, usize::from(slot.0)),
            right,
        ),
        Stmt::NewVar(_, _) | Stmt::NewArray(_, _) | Stmt::Store(_, _) | Stmt::Output(_, _, _) => Ok(
            (),
        ),
        Stmt::Put(_, index, value) => sites.push(later_slot(form, *index, *value)),
        Stmt::If(_, then_block, else_block, _) => {
            add_all_sites(sites, form, then_block.as_slice())?;
            add_all_sites(sites, form, else_block.as_slice())
        }
        Stmt::For(_, body) => add_all_sites(sites, form, body.as_slice()),
    }
}

/// Adds the places of the indexes in statements.
#[cycle(sites)]
fn add_all_sites(sites: &mut Items<u32>, form: &NormalForm, body: &[Stmt]) -> Result<(), AllocError>
    ensures { OnOk result (sites.new ≡ sites.old ++ spec.sites_in form.now body.now) }
{
    for stmt in body {
        add_sites(sites, form, stmt)?;
    }
    Ok(())
}

/// The places of the indexes of a program, in program order.
pub(crate) fn index_sites(alloc: Global, form: &NormalForm) -> Result<Items<u32>, AllocError>
    ensures { IfOk result (λ sites. sites ≡ spec.sites_in form.now form.now.body) }
{
    let mut sites = Items::new(alloc);
    add_all_sites(&mut sites, form, form.body.as_slice())?;
    Ok(sites)
}
