//! One run along steps.

ghost use Rattle.std.specs.Prelude.{◌≡◌, OnOk};
ghost use Rattle.vd_excuse_walk.specs.Data.{all_alone, data_walk, data_walks, either_alone};

use crate::equivocation_laws::Step;
use std::alloc::AllocError;
use vd_excuse_runs::Run;

/// A run does a step.
#[cycle(alone)]
fn step_alone(run: &mut Run, step: &Step) -> Result<(), AllocError>
    ensures { OnOk result (run.new ≡ (data_walk step.now).alone run.old) }
{
    match step {
        Step::Hide(_) => Ok(()),
        Step::Act(act) => run.act(act),
        Step::Branch(parts, first, other) => {
            let parts = parts.as_slice();
            let first = first.as_slice();
            let other = other.as_slice();
            if run.is_other(parts) {
                steps_alone(run, other)
            } else {
                steps_alone(run, first)
            }
        }
        Step::Loop(parts, count, body) => {
            for turn in 0..*count {
                run.begin(parts.as_slice(), turn)?;
                steps_alone(run, body.as_slice())?;
            }
            Ok(())
        }
    }
}

/// A run goes along steps.
#[cycle(alone)]
fn steps_alone(run: &mut Run, steps: &[Step]) -> Result<(), AllocError>
    ensures { OnOk result (run.new ≡ all_alone (data_walks steps.now) run.old) }
{
    for step in steps {
        step_alone(run, step)?;
    }
    Ok(())
}

/// A run takes a branch by its own guards.
pub(crate) fn either_alone(
    run: &mut Run,
    parts: &[(u8, u32)],
    first: &[Step],
    other: &[Step],
) -> Result<(), AllocError>
    ensures { OnOk result (run.new ≡ either_alone parts.now (data_walks first.now) (data_walks other.now) run.old) }
{
    if run.is_other(parts) {
        steps_alone(run, other)
    } else {
        steps_alone(run, first)
    }
}
