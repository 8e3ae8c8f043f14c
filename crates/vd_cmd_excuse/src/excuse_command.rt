//! The command `excuse`.

ghost use Rattle.std.specs.Prelude.{◌≤◌, length};
ghost use Rattle.vd_base.specs.Limits.{most_search_budget};
ghost use Rattle.vd_constraints.specs.declared.labels.Labels.{Labels};
ghost use Rattle.vd_space.specs.Cheapest.{IsAssignment};
ghost use Rattle.vd_cmd_choice.specs.Choice.{IsChoiceFor, IsSelected, chosen_of};
ghost use Rattle.vd_space.specs.Reading.{problem_of};
ghost use Rattle.vd_cmd_excuse.specs.Excusing.{ExecutesAt, ExecutesChoice, ExecutesExcuse, ExecutesRuns};
ghost use Rattle.vd_cmd_excuse.specs.Runs.{AreRead, IsHostOfTwo};
ghost use Rattle.vd_cmd_excuse.specs.Telling.{TellsAt, TellsExcuse, TellsOf};

use crate::answer::answer;
use crate::checks::{excused, expect_free, expect_two};
use crate::dealing::Dealing;
use crate::runs::{Runs, load_runs};
use std::alloc::Global;
use vd_base::HostId;
use vd_cmd::ExcuseWords;
use vd_cmd_choice::{Choice, choice_of, load_program, no_assignment};
use vd_cmd_depends::host_named;
use vd_cmd_files::expect_consistent;
use vd_cmd_plan::{Answer, Status};
use vd_core::Program;
use vd_outside::Files;
use vd_search_stages::Assignment;

/// Explains the second inputs at the choice of protocols for a program, where none of them is a commitment.
fn excuse_at(
    alloc: Global,
    program: &Program,
    assignment: &Assignment,
    host: HostId,
    runs: Runs,
    out: &str,
) -> Result<Answer, Status>
    requires host { IsHostOfTwo program.now host.0 }
    requires selected { IsSelected program.now assignment.now }
    requires read { AreRead 2 runs }
    ensures executes { (l : Labels) → IsAssignment (problem_of program.now l) assignment.now.protocols →
        ExecutesAt program.now l host runs out.now assignment.now result }
    ensures tells { TellsAt host program.now out.now runs result }
{
    let _form = program.form();
    let protocols = assignment.protocols.as_slice();
    expect_free(protocols)?;
    expect_consistent(&runs.dealing.deals)?;
    let stored = excused(alloc, program, protocols, host, &runs)?;
    let Runs {
        first,
        second: _,
        dealing,
    } = runs;
    let Dealing { deals, secrets } = dealing;
    let answer = answer(
        alloc,
        program,
        protocols,
        host,
        &first,
        deals,
        &secrets,
        stored.as_slice(),
        out,
    )?;
    Ok(answer)
}

/// What `excuse` does with the choice for a program of two hosts, and both runs.
fn excuse_choice(
    alloc: Global,
    choice: Choice,
    host: HostId,
    runs: Runs,
    out: &str,
) -> Result<Answer, Status>
    requires host { IsHostOfTwo choice.program host.0 }
    requires found { IsChoiceFor choice.program choice }
    requires read { AreRead 2 runs }
    ensures executes { ExecutesChoice host runs out.now (chosen_of choice) result }
    ensures tells { TellsAt host choice.program out.now runs result }
{
    match &choice.assignment {
        Some(assignment) => excuse_at(alloc, &choice.program, assignment, host, runs, out),
        None => Ok(no_assignment(alloc, choice.program, choice.labels)),
    }
}

/// What `excuse` does with a program, and both runs.
fn excuse_runs(
    alloc: Global,
    words: &ExcuseWords,
    program: Program,
    runs: Runs,
) -> Result<Answer, Status>
    requires budget { words.now.budget ≤ most_search_budget }
    requires read { AreRead (length program.hosts) runs }
    ensures executes { ExecutesRuns words.now program runs result }
    ensures tells { TellsOf words.now.host words.now.out program runs result }
{
    let names = &program.form().hosts;
    let host = host_named(alloc, names, words.host.as_str())?;
    expect_two(names)?;
    let choice = choice_of(alloc, program, words.budget)?;
    excuse_choice(alloc, choice, host, runs, words.out.as_str())
}

/// The command `excuse`: deals by which a host of a source of two hosts sees of the second inputs what it saw of the first by the deals
/// that are there, and what the other host sends it in both runs.
///
/// It is refused where no host has the name, where there are not two hosts, where the choice has a commitment, where the deals do not
/// reach for the first run, and where the host knows other words of the second inputs.
pub fn excuse<F: Files>(alloc: Global, files: &mut F, words: &ExcuseWords) -> Result<Answer, Status>
    requires { words.now.budget ≤ most_search_budget }
    ensures executes { ExecutesExcuse words.now (F.view files.old) (F.view files.new) result }
    ensures tells { TellsExcuse words.now (F.view files.old) result }
{
    let program = load_program(alloc, files, words.source.as_str())?;
    let runs = load_runs(alloc, files, words, &program.form().hosts)?;
    excuse_runs(alloc, words, program, runs)
}
