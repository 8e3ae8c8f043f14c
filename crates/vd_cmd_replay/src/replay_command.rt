//! The command `replay`.

ghost use Rattle.std.specs.Prelude.{◌≡◌, ◌≤◌, [], Some, length, IfOk, OnOk};
ghost use Rattle.vd_base.specs.Limits.{most_search_budget};
ghost use Rattle.vd_tape.specs.Validity.{IsConsistent};
ghost use Rattle.vd_semantics.specs.ProgramMeaning.{program_outputs};
ghost use Rattle.vd_cmd_plan.specs.Plans.{Computes, ended};
ghost use Rattle.vd_cmd_choice.specs.Choice.{IsChoiceFor, IsSelected, chosen_of};
ghost use Rattle.vd_cmd_files.specs.Asking.{AreAsked};
ghost use Rattle.vd_cmd_replay.specs.Counting.{CountsOf, CountsReplay, packets_for};
ghost use Rattle.vd_cmd_replay.specs.Replaying.{ExecutesChoice, ExecutesReplay, report_for};
ghost use Rattle.vd_cmd_replay.specs.Telling.{IsReport, TellsHeadline, TellsOf};

use std::alloc::Global;
use vd_base::{Bytes, Items};
use vd_cmd::ReplayWords;
use vd_cmd_choice::{Choice, choice_of, load_program, no_assignment};
use vd_cmd_files::{RunFiles, expect_consistent, load_run_files};
use vd_cmd_plan::{Answer, Status};
use vd_core::Program;
use vd_outside::Files;
use vd_projection::split;
use vd_search_stages::Assignment;
use vd_world::{play, report};

/// The answer that prints this and stores nothing.
fn printing(alloc: Global, printed: Bytes) -> Answer
    ensures { result ≡ ended [] printed }
{
    Answer {
        status: Status::Ended,
        stores: Items::new(alloc),
        printed,
    }
}

/// Runs a program at its choice of protocols, keeps how many packets its hosts sent, and prints the report.
fn replay_counted(
    alloc: Global,
    program: &Program,
    assignment: &Assignment,
    asked: RunFiles,
    packets: &mut Option<u64>,
) -> Result<Answer, Status>
    requires selected { IsSelected program.now assignment.now }
    requires asked { AreAsked (length program.now.hosts) asked }
    requires consistent { IsConsistent asked.deals }
    ensures computes { Computes (ended [] (report_for program.now assignment.now.protocols asked)) result }
    ensures tells { IfOk result (λ answer. IsReport program.now (program_outputs program.now asked.inputs) asked answer.printed) }
    ensures counts { OnOk result (packets.new ≡ Some (packets_for program.now assignment.now.protocols asked)) }
{
    let hosts = &program.form().hosts;
    let RunFiles {
        inputs,
        deals,
        schedule,
        messages,
    } = asked;
    let protocols = assignment.protocols.as_slice();
    let codes = split(alloc, program, protocols)?;
    let world = play(alloc, codes, inputs, deals, &schedule)?;
    *packets = Some(world.packets_sent());
    let printed = report(alloc, hosts, &world, messages)?;
    Ok(printing(alloc, printed))
}

/// Runs a program at its choice of protocols, and prints the report.
pub fn replay_at(
    alloc: Global,
    program: &Program,
    assignment: &Assignment,
    asked: RunFiles,
) -> Result<Answer, Status>
    requires selected { IsSelected program.now assignment.now }
    requires asked { AreAsked (length program.now.hosts) asked }
    requires consistent { IsConsistent asked.deals }
    ensures computes { Computes (ended [] (report_for program.now assignment.now.protocols asked)) result }
    ensures tells { IfOk result (λ answer. IsReport program.now (program_outputs program.now asked.inputs) asked answer.printed) }
{
    let mut packets = None;
    replay_counted(alloc, program, assignment, asked, &mut packets)
}

/// What `replay` does with the choice for a program, and all that it is to run on.
fn replay_choice(
    alloc: Global,
    choice: Choice,
    asked: RunFiles,
    packets: &mut Option<u64>,
) -> Result<Answer, Status>
    requires found { IsChoiceFor choice.program choice }
    requires asked { AreAsked (length choice.program.hosts) asked }
    ensures executes { ExecutesChoice asked (chosen_of choice) result }
    ensures tells { TellsOf choice.program asked result }
    ensures counts { CountsOf choice.program asked packets.new result }
{
    match &choice.assignment {
        Some(assignment) => {
            expect_consistent(&asked.deals)?;
            replay_counted(alloc, &choice.program, assignment, asked, packets)
        }
        None => Ok(no_assignment(alloc, choice.program, choice.labels)),
    }
}

/// The command `replay`: all hosts of a source run over a schedule, and how each stands then. Where they ran, it is kept how many
/// packets they sent to one another.
pub fn replay<F: Files>(
    alloc: Global,
    files: &mut F,
    words: &ReplayWords,
    packets: &mut Option<u64>,
) -> Result<Answer, Status>
    requires { words.now.budget ≤ most_search_budget }
    ensures executes { ExecutesReplay words.now (F.view files.old) (F.view files.new) result }
    ensures tells { TellsHeadline words.now (F.view files.old) result }
    ensures counts { CountsReplay words.now (F.view files.old) packets.new result }
{
    let program = load_program(alloc, files, words.source.as_str())?;
    let asked = load_run_files(alloc, files, words, &program.form().hosts)?;
    let choice = choice_of(alloc, program, words.budget)?;
    replay_choice(alloc, choice, asked, packets)
}
