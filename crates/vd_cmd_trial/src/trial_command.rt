//! The command `trial`.

ghost use Rattle.std.specs.Prelude.{◌≡◌, ◌++◌, ◌≤◌, [], IfOk};
ghost use Rattle.vd_core.specs.Facts.{weight_sum};
ghost use Rattle.vd_elaborate.specs.Normal.{normal_form};
ghost use Rattle.vd_gen.specs.Sizes.{most_coordinates};
ghost use Rattle.vd_cmd_plan.specs.Plans.{Computes, ended};
ghost use Rattle.vd_report.specs.ChoiceLines.{cost_line};
ghost use Rattle.vd_cmd_choice.specs.Choice.{IsSelected};
ghost use Rattle.vd_deal_needs.specs.Items.{most_executed};
ghost use Rattle.vd_cmd_trial.specs.Telling.{AnswersTrial, TellsProgram, TellsSource, TellsTrial};
ghost use Rattle.vd_cmd_trial.specs.Trial.{ExecutesProgram, ExecutesSource, ExecutesTrial, headed_by, trial_text};

use crate::asking::asked_at;
use itoa::Buffer;
use std::alloc::{AllocError, Global};
use vd_base::Bytes;
use vd_base::limits::SEARCH_BUDGET;
use vd_cmd_choice::{choice_of, no_assignment};
use vd_cmd_labels::{normal_program, read_source, resolve_source};
use vd_cmd_plan::{Answer, Status};
use vd_cmd_replay::replay_at;
use vd_core::Program;
use vd_gen::generate;
use vd_resolve::Resolved;
use vd_search_stages::Assignment;

/// The line of a cost, and a report behind it.
fn report_with_cost(alloc: Global, cost: u32, report: &[u8]) -> Result<Bytes, AllocError>
    ensures { IfOk result (λ text. text ≡ cost_line cost ++ report.now) }
{
    let mut text = Bytes::new(alloc);
    text.extend_from_slice(b"cost ")?;
    text.extend_from_slice(Buffer::new().format(cost).as_bytes())?;
    text.extend_from_slice(b"\n")?;
    text.extend_from_slice(report)?;
    Ok(text)
}

/// An answer, with the line of a cost before what it prints.
fn headed_by(alloc: Global, cost: u32, answer: Answer) -> Result<Answer, AllocError>
    ensures { IfOk result (λ headed. headed ≡ headed_by cost answer) }
{
    let printed = report_with_cost(alloc, cost, answer.printed.as_slice())?;
    let Answer {
        status,
        stores,
        printed: _,
    } = answer;
    Ok(Answer {
        status,
        stores,
        printed,
    })
}

/// Runs a program at its choice of protocols, on as many inputs and items as its hosts take there, and prints the cost and the
/// report.
fn trial_at(
    alloc: Global,
    program: &Program,
    assignment: &Assignment,
    coordinates: u32,
) -> Result<Answer, Status>
    requires few { weight_sum program.now.body ≤ most_executed }
    requires selected { IsSelected program.now assignment.now }
    ensures computes { Computes (ended [] (trial_text coordinates program.now assignment.now)) result }
    ensures tells { TellsProgram coordinates program.now result }
{
    program.form();
    let asked = asked_at(alloc, program, assignment, coordinates)?;
    let report = replay_at(alloc, program, assignment, asked)?;
    Ok(headed_by(alloc, assignment.cost, report)?)
}

/// What `trial` does with a program.
fn trial_program(alloc: Global, program: Program, coordinates: u32) -> Result<Answer, Status>
    requires { weight_sum program.body ≤ most_executed }
    ensures executes { ExecutesProgram coordinates program result }
    ensures tells { TellsProgram coordinates program result }
{
    let choice = choice_of(alloc, program, SEARCH_BUDGET)?;
    match &choice.assignment {
        Some(assignment) => trial_at(alloc, &choice.program, assignment, coordinates),
        None => Ok(no_assignment(alloc, choice.program, choice.labels)),
    }
}

/// What `trial` does with a source that meets every rule.
fn trial_source(alloc: Global, source: Resolved, coordinates: u32) -> Result<Answer, Status>
    requires { weight_sum (normal_form source).body ≤ most_executed }
    ensures executes { ExecutesSource coordinates source result }
    ensures tells { TellsSource coordinates source result }
{
    let program = normal_program(alloc, source)?;
    trial_program(alloc, program, coordinates)
}

/// The command `trial`: the generated source for points with so many coordinates is run by all its hosts in one process, each
/// step in turn until none can step. The first host's inputs are the numbers from 0 on, and all others are 0; of inputs and dealt
/// items there are as many as the hosts take at the choice of protocols. So all hosts end. It prints the cost of the choice and
/// how each host stands, and uses no files. The source is never refused for its text, its names, its kinds or its limits; only
/// its flows, the choice of protocols and memory are left to refuse it for.
pub fn trial(alloc: Global, coordinates: u32) -> Result<Answer, Status>
    requires some { 1 ≤ coordinates }
    requires most { coordinates ≤ most_coordinates }
    ensures executes { ExecutesTrial coordinates result }
    ensures tells { TellsTrial coordinates result }
    ensures ends { AnswersTrial result }
{
    let text = generate(alloc, coordinates)?;
    let tree = read_source(alloc, text.as_slice())?;
    let source = resolve_source(alloc, tree)?;
    trial_source(alloc, source, coordinates)
}
