//! The least labelling of a system.

ghost use Rattle.std.specs.Prelude.{◌≡◌, IfOk};
ghost use Rattle.vd_constraints.specs.Outcomes.{IsLabelled};
ghost use Rattle.vd_constraints.specs.Satisfies.{IsLeastSolution};
ghost use Rattle.vd_solver.specs.Free.{free};

use crate::checking::first_failing;
use crate::raising::raise;
use crate::readers::{number, readers};
use crate::waiting::Waiting;
use std::alloc::{AllocError, Global};
use vd_base::Items;
use vd_constraints::{Labels, System};
use vd_formula::{Formula, Label};

/// The least labelling that satisfies the system, or, where none does, the first check that fails at the least solution
/// of its rules.
pub fn solve(alloc: Global, system: &System) -> Result<Result<Labels, u32>, AllocError>
    ensures { IfOk result (IsLabelled system.now) }
{
    let labels = solve_rules(alloc, system)?;
    match first_failing(system, &labels) {
        Some(check) => Ok(Err(check)),
        None => Ok(Ok(labels)),
    }
}

/// The least labelling at which all rules hold, whatever becomes of the checks.
///
/// Every part starts at the formula that is true at every set, and is raised by the rules that fail. A rule is
/// visited again only where a part that it reads was raised.
pub fn solve_rules(alloc: Global, system: &System) -> Result<Labels, AllocError>
    ensures { IfOk result (IsLeastSolution system.now) }
{
    let rules = system.lower();
    let readers = readers(alloc, system)?;
    let mut labels = free_labels(alloc, system)?;
    let mut waiting = Waiting::all(alloc, rules.len() as u32)?;
    while let Some(place) = waiting.take() {
        let rule = &rules[place as usize];
        if raise(&mut labels, rule) {
            waiting.add(readers[number(system.slots(), rule.part)].as_slice())?;
        }
    }
    Ok(labels)
}

/// The labelling that gives every part the formula that is true at every set.
fn free_labels(alloc: Global, system: &System) -> Result<Labels, AllocError>
    ensures { IfOk result (λ labels. labels ≡ free system.now) }
{
    let any = Formula::any(system.principals().as_slice().len() as u8);
    let free = Label {
        conf: any,
        integ: any,
    };
    Ok(Labels {
        slots: Items::from_vec(vec![in alloc; free; system.slots() as usize]?),
        blocks: Items::from_vec(vec![in alloc; free; system.blocks() as usize]?),
    })
}
