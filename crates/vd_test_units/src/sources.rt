//! What is made of a source, step by step.

use std::alloc::Global;
use std::test::Fail;
use vd_constraints::{Collected, Labels, System, constraints};
use vd_core::Program;
use vd_elaborate::elaborate;
use vd_parser::parse;
use vd_resolve::{Resolved, resolve};
use vd_solver::solve;

/// The source of a text, with its names resolved.
fn resolved_of(alloc: Global, text: &[u8]) -> Result<Resolved, Fail> {
    let Ok(source) = parse(alloc, text) else {
        return Err("no source".into());
    };
    match resolve(alloc, source) {
        Ok(resolved) => Ok(resolved),
        Err(_) => Err("not resolved".into()),
    }
}

/// The let-normal program of a text.
pub(crate) fn program_of(alloc: Global, text: &[u8]) -> Result<Program, Fail> {
    let resolved = resolved_of(alloc, text)?;
    Ok(elaborate(alloc, &resolved)?)
}

/// The flow rules of a program.
pub(crate) fn system_of(alloc: Global, program: &Program) -> Result<System, Fail> {
    let Collected { system, .. } = constraints(alloc, program)?;
    Ok(system)
}

/// The least labels of a system.
pub(crate) fn least_labels(alloc: Global, system: &System) -> Result<Labels, Fail> {
    match solve(alloc, system)? {
        Ok(labels) => Ok(labels),
        Err(_check) => Err("no labels".into()),
    }
}
