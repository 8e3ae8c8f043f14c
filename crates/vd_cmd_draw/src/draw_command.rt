//! The command `draw`.

ghost use Rattle.std.specs.Prelude.{◌≤◌};
ghost use Rattle.vd_base.specs.Limits.{most_search_budget};
ghost use Rattle.vd_constraints.specs.Rules.{system_of};
ghost use Rattle.vd_constraints.specs.Satisfies.{IsLeast};
ghost use Rattle.vd_cmd_plan.specs.Plans.{Computes};
ghost use Rattle.vd_cmd_choice.specs.Choice.{chosen_of};
ghost use Rattle.vd_cmd_draw.specs.Drawing.{ExecutesDraw, drawn_answer, drawn_for};

use std::alloc::Global;
use vd_base::Items;
use vd_cmd_choice::{Choice, ChosenSource, choice_of, load_source_program, no_assignment};
use vd_cmd_plan::{Answer, Status};
use vd_draw_picture::drawing;
use vd_outside::Files;
use vd_search_stages::Assignment;

/// Prints the drawing of an assignment of protocols.
fn draw_at(
    alloc: Global,
    choice: &Choice,
    assignment: &Assignment,
    name: &str,
    text: &[u8],
) -> Result<Answer, Status>
    ensures { Computes (drawn_answer name.now text.now choice.now.program choice.now.labels assignment.now) result }
{
    let protocols = assignment.protocols.as_slice();
    let printed = drawing(
        alloc,
        name.as_bytes(),
        text,
        &choice.program,
        &choice.labels,
        protocols,
    )?;
    Ok(Answer {
        status: Status::Ended,
        stores: Items::new(alloc),
        printed,
    })
}

/// What `draw` comes to with what was found for a source.
fn draw_choice(alloc: Global, name: &str, found: ChosenSource) -> Result<Answer, Status>
    requires { IsLeast (system_of found.choice.program) found.choice.labels }
    ensures { Computes (drawn_for name.now found.text (chosen_of found.choice)) result }
{
    let ChosenSource { text, choice } = found;
    match &choice.assignment {
        Some(assignment) => draw_at(alloc, &choice, assignment, name, text.as_slice()),
        None => Ok(no_assignment(alloc, choice.program, choice.labels)),
    }
}

/// The command `draw`: prints the drawing of the choice of protocols for a source, which is found with a search of at most so
/// many prefixes.
pub fn draw<F: Files>(
    alloc: Global,
    files: &mut F,
    source: &str,
    budget: u32,
) -> Result<Answer, Status>
    requires { budget ≤ most_search_budget }
    ensures { ExecutesDraw source.now budget (F.view files.old) (F.view files.new) result }
{
    let loaded = load_source_program(alloc, files, source)?;
    let choice = choice_of(alloc, loaded.program, budget)?;
    let found = ChosenSource {
        text: loaded.text,
        choice,
    };
    draw_choice(alloc, source, found)
}
