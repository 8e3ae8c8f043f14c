//! The program that is run.

ghost use Rattle.std.specs.Prelude.{IfOk};
ghost use Rattle.vd_constraints.specs.Rules.{system_of};
ghost use Rattle.vd_constraints.specs.Satisfies.{IsLeast};
ghost use Rattle.vd_long.specs.Marks.{lengthen_of};
ghost use Rattle.vd_mux.specs.Hidden.{turn_of};
ghost use Rattle.vd_cmd_rewrite.specs.RunPrograms.{IsFound, IsLabelledOr, IsRunForm, IsRunProgram, Rewrites, TellsAs};

use crate::plain::{some_branch, some_division};
use std::alloc::{AllocError, Global};
use vd_cmd_labels::normal_program;
use vd_constraints::{Labels, constraints};
use vd_core::Program;
use vd_long::lengthen_labelled;
use vd_mux::turn_labelled;
use vd_resolve::Resolved;
use vd_solver::solve;

/// The least labels of a program, or none where it has no labels.
fn labels_if_any(alloc: Global, program: &Program) -> Result<Option<Labels>, AllocError>
    ensures { IfOk result (IsFound program.now) }
{
    let collected = constraints(alloc, program)?;
    let solved = solve(alloc, &collected.system)?;
    match solved {
        Ok(labels) => Ok(Some(labels)),
        Err(_check) => Ok(None),
    }
}

/// The new program where it has labels, and the old one elsewhere.
fn labelled_or(alloc: Global, new: Program, old: Program) -> Result<Program, AllocError>
    ensures { IfOk result (IsLabelledOr new old) }
{
    let found = labels_if_any(alloc, &new)?;
    match found {
        Some(_) => Ok(new),
        None => Ok(old),
    }
}

/// The program with selections in the place of the branches that are hidden under its least labels, where that has labels.
fn selected(alloc: Global, program: Program, labels: &Labels) -> Result<Program, AllocError>
    requires { IsLeast (system_of program) labels.now }
    ensures { IfOk result (Rewrites turn_of program) }
{
    let turned = turn_labelled(alloc, &program, labels)?;
    match turned {
        Some(new) => labelled_or(alloc, new, program),
        None => Ok(program),
    }
}

/// The same of a program whose labels are not known yet. One without labels stays as it is.
fn with_selections(alloc: Global, program: Program) -> Result<Program, AllocError>
    ensures { IfOk result (Rewrites turn_of program) }
{
    if !some_branch(program.form().body.as_slice()) {
        return Ok(program);
    }
    let found = labels_if_any(alloc, &program)?;
    match found {
        Some(labels) => selected(alloc, program, &labels),
        None => Ok(program),
    }
}

/// The program with loops in the place of the divisions that no protocol computes under its least labels, where that has labels.
fn looped(alloc: Global, program: Program, labels: &Labels) -> Result<Program, AllocError>
    requires { IsLeast (system_of program) labels.now }
    ensures { IfOk result (Rewrites lengthen_of program) }
{
    let long = lengthen_labelled(alloc, &program, labels)?;
    match long {
        Some(new) => labelled_or(alloc, new, program),
        None => Ok(program),
    }
}

/// The same of a program whose labels are not known yet. One without labels stays as it is.
fn with_loops(alloc: Global, program: Program) -> Result<Program, AllocError>
    ensures { IfOk result (Rewrites lengthen_of program) }
{
    if !some_division(program.form().body.as_slice()) {
        return Ok(program);
    }
    let found = labels_if_any(alloc, &program)?;
    match found {
        Some(labels) => looped(alloc, program, &labels),
        None => Ok(program),
    }
}

/// The program of a source that protocols are chosen for and that is run. It fails only where memory runs out.
pub fn executed_program(alloc: Global, source: Resolved) -> Result<Program, AllocError>
    ensures form { IfOk result (IsRunForm source) }
    ensures made { IfOk result (IsRunProgram source) }
    ensures tells { IfOk result (TellsAs source) }
{
    let program = normal_program(alloc, source)?;
    let _form = program.form();
    let turned = with_selections(alloc, program)?;
    let _turned_form = turned.form();
    with_loops(alloc, turned)
}
