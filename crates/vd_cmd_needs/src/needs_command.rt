//! The command `needs`.

ghost use Rattle.std.specs.Prelude.{◌≡◌, ◌≤◌, [], length, IfErr, IfOk, IfSome};
ghost use Rattle.vd_base.specs.Limits.{most_search_budget, most_source_bytes};
ghost use Rattle.vd_constraints.specs.Rules.{system_of};
ghost use Rattle.vd_constraints.specs.Satisfies.{IsLeast};
ghost use Rattle.vd_cmd.specs.declared.command.NeedsKind.TheVariants.{Each, Rounds, Sizes};
ghost use Rattle.vd_cmd_plan.specs.Plans.{Computes, ended};
ghost use Rattle.vd_projection.specs.Programs.{CanRunAt};
ghost use Rattle.vd_cmd_choice.specs.Choice.{IsSelected, chosen_of};
ghost use Rattle.vd_cmd_needs.specs.Needing.{ExecutesBytes, ExecutesNeeds, ExecutesText, IsNoSource, needs_answer, needs_text};
ghost use Rattle.vd_cmd_needs.specs.Telling.{IsNeedsOf, TellsBytes, TellsNeeds, TellsProgram, TellsText};

use crate::lines::{each_text, sizes_text};
use crate::program::{is_program, needs_in_host};
use crate::rounds_lines::rounds_text;
use std::alloc::{AllocError, Global};
use vd_base::limits::{HOST_FILE_BYTES, SOURCE_BYTES};
use vd_base::{Bytes, Items, Proto, Text};
use vd_cmd::{NeedsKind, NeedsWords};
use vd_cmd_choice::{Choice, choice_of, no_assignment, program_of};
use vd_cmd_plan::{Answer, Status, load};
use vd_core::Program;
use vd_deal_needs::{needs_of_program, sizes};
use vd_outside::Files;
use vd_projection::split;
use vd_search_stages::Assignment;

/// The answer that prints this and stores nothing.
pub(crate) fn printing(alloc: Global, printed: Bytes) -> Answer
    ensures { result ≡ ended [] printed }
{
    Answer {
        status: Status::Ended,
        stores: Items::new(alloc),
        printed,
    }
}

/// How much to deal for the hosts of a program at an assignment of protocols.
fn sizes_at(alloc: Global, program: &Program, protocols: &[Proto]) -> Result<Bytes, AllocError>
    requires { CanRunAt program.now protocols.now }
    ensures { IfOk result (λ text. text ≡ needs_text Sizes program.now protocols.now) }
{
    let needs = needs_of_program(alloc, program, protocols)?;
    let list = needs.as_slice();
    sizes_text(alloc, sizes(list))
}

/// What each host and each two hosts of a program take at an assignment of protocols.
fn each_at(alloc: Global, program: &Program, protocols: &[Proto]) -> Result<Bytes, AllocError>
    requires { CanRunAt program.now protocols.now }
    ensures { IfOk result (λ text. text ≡ needs_text Each program.now protocols.now) }
{
    let needs = needs_of_program(alloc, program, protocols)?;
    let list = needs.as_slice();
    each_text(alloc, &program.form().hosts, list)
}

/// What each host of a program tells each other one at an assignment of protocols.
fn rounds_at(alloc: Global, program: &Program, protocols: &[Proto]) -> Result<Bytes, AllocError>
    requires { CanRunAt program.now protocols.now }
    ensures { IfOk result (λ text. text ≡ needs_text Rounds program.now protocols.now) }
{
    let codes = split(alloc, program, protocols)?;
    let list = codes.as_slice();
    let form = program.form();
    rounds_text(alloc, &form.hosts, list)
}

/// The text of what the hosts of a program need at an assignment of protocols.
fn needs_text(
    alloc: Global,
    program: &Program,
    protocols: &[Proto],
    kind: NeedsKind,
) -> Result<Bytes, AllocError>
    requires { CanRunAt program.now protocols.now }
    ensures { IfOk result (λ text. text ≡ needs_text kind program.now protocols.now) }
{
    match kind {
        NeedsKind::Sizes => sizes_at(alloc, program, protocols),
        NeedsKind::Each => each_at(alloc, program, protocols),
        NeedsKind::Rounds => rounds_at(alloc, program, protocols),
    }
}

/// Prints what the hosts of a program take at its choice of protocols.
fn needs_at(
    alloc: Global,
    program: &Program,
    assignment: &Assignment,
    kind: NeedsKind,
) -> Result<Answer, Status>
    requires { IsSelected program.now assignment.now }
    ensures computes { Computes (ended [] (needs_text kind program.now assignment.now.protocols)) result }
    ensures tells { IfOk result (λ answer. IsNeedsOf kind program.now answer.printed) }
{
    let _form = program.form();
    let protocols = assignment.protocols.as_slice();
    let printed = needs_text(alloc, program, protocols, kind)?;
    Ok(printing(alloc, printed))
}

/// What `needs` comes to with what was found for a source.
fn needs_choice(alloc: Global, choice: Choice, kind: NeedsKind) -> Result<Answer, Status>
    requires least { IsLeast (system_of choice.program) choice.labels }
    requires selected { IfSome choice.assignment (IsSelected choice.program) }
    ensures computes { Computes (needs_answer kind (chosen_of choice)) result }
    ensures tells { TellsProgram kind choice.program result }
{
    match &choice.assignment {
        Some(assignment) => needs_at(alloc, &choice.program, assignment, kind),
        None => Ok(no_assignment(alloc, choice.program, choice.labels)),
    }
}

/// Refuses a text that is too long for a source: the program of a host may be longer.
fn expect_short(alloc: Global, name: &str, bytes: &[u8]) -> Result<(), Status>
    ensures refused { IfErr result (IsNoSource name.now bytes.now) }
    ensures short { IfOk result (λ done. length bytes.now ≤ most_source_bytes) }
{
    if bytes.len() > SOURCE_BYTES as usize {
        let name = Text::copy_of(alloc, name)?;
        return Err(Status::TooLong(name, SOURCE_BYTES));
    }
    Ok(())
}

/// What `needs` does with the text of a source.
fn needs_in_text(alloc: Global, words: &NeedsWords, bytes: &[u8]) -> Result<Answer, Status>
    requires { words.now.budget ≤ most_search_budget }
    ensures executes { ExecutesText words.now bytes.now result }
    ensures tells { TellsText words.now bytes.now result }
{
    expect_short(alloc, words.file.as_str(), bytes)?;
    let program = program_of(alloc, bytes)?;
    let choice = choice_of(alloc, program, words.budget)?;
    needs_choice(alloc, choice, words.kind)
}

/// What `needs` does with the bytes of a file.
fn needs_in_bytes(alloc: Global, words: &NeedsWords, bytes: &[u8]) -> Result<Answer, Status>
    requires { words.now.budget ≤ most_search_budget }
    ensures executes { ExecutesBytes words.now bytes.now result }
    ensures tells { TellsBytes words.now bytes.now result }
{
    if is_program(bytes) {
        needs_in_host(alloc, bytes, words.kind)
    } else {
        needs_in_text(alloc, words, bytes)
    }
}

/// The commands `needs` and `rounds`: how much to deal for a source at its choice of protocols; with `each` how many inputs and items
/// each host and each two hosts take at most; or how much each host tells each other one. Of the program of a host, which is told by its
/// first word, it prints what that host takes, or tells; `each` and the budget make no difference there.
pub fn needs<F: Files>(alloc: Global, files: &mut F, words: &NeedsWords) -> Result<Answer, Status>
    requires { words.now.budget ≤ most_search_budget }
    ensures executes { ExecutesNeeds words.now (F.view files.old) (F.view files.new) result }
    ensures tells { TellsNeeds words.now (F.view files.old) result }
{
    let bytes = load(alloc, files, words.file.as_str(), HOST_FILE_BYTES)?;
    needs_in_bytes(alloc, words, bytes.as_slice())
}
