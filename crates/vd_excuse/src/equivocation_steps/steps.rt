//! The steps of a plan.

ghost use Rattle.std.specs.Prelude.{◌≡◌, [], IfOk};
ghost use Rattle.vd_execution.specs.Gadgets.{Gadget};
ghost use Rattle.vd_execution.specs.Plans.{Plan, joint_of};
ghost use Rattle.vd_execution.specs.Text.{flat};
ghost use Rattle.vd_excuse.specs.Claims.{CanBeStepped, LeadTo};
ghost use Rattle.vd_excuse.specs.Reading.{nothing_read, read};

use crate::equivocation_steps::reader::Reader;
use std::alloc::{AllocError, Global};
use vd_base::Items;
use vd_excuse_walk::{Step, walks_excuse};
use vd_execution::Line;

/// The steps of the joint code with these lines, for who goes along two runs of it at once. Along them the deal of the first run
/// becomes the one that explains the second.
///
/// It fails only where memory runs out.
pub fn steps_of(alloc: Global, lines: &Items<Line>) -> Result<Items<Step>, AllocError>
    ensures { (plan : Plan Gadget) → lines.now ≡ flat (joint_of plan) [] → CanBeStepped plan → IfOk result (λ steps. LeadTo steps plan) }
{
    walks_excuse();
    read_all(alloc, lines.as_slice())
}

fn read_all(alloc: Global, lines: &[Line]) -> Result<Items<Step>, AllocError>
    ensures { IfOk result (λ steps. steps ≡ (read lines.now nothing_read).steps) }
{
    let mut reader = Reader::new(alloc);
    for at in 0..lines.len() {
        reader.line(&lines[at], &lines[at + 1..])?;
    }
    Ok(reader.into_steps())
}
