//! The command `compile SOURCE PREFIX early`.

ghost use Rattle.std.specs.Prelude.{◌≡◌, ◌≤◌, ◌++◌, codes, IfOk};
ghost use Rattle.vd_base.specs.Limits.{most_search_budget};
ghost use Rattle.vd_cmd_plan.specs.Plans.{Computes};
ghost use Rattle.vd_cmd_choice.specs.Choice.{IsChoiceIn, IsSelected, chosen_of};
ghost use Rattle.vd_cmd_compile_early.specs.Compiling.{ExecutesEarly, SomeOrder, early_at, early_for};
ghost use Rattle.vd_cmd.specs.Commands.{IsBudget};
ghost use Rattle.vd_cmd_compile_early.specs.Running.{KeepsOrder, RunsEarly};
ghost use Rattle.vd_cmd_compile_early.specs.Telling.{TellsPrograms, TellsSource, TellsText};

use std::alloc::{AllocError, Global};
use vd_base::Bytes;
use vd_cmd::EarlyWords;
use vd_cmd_choice::{ChosenSource, assignment_text, choice_of, load_source_program, no_assignment};
use vd_cmd_compile::files_of;
use vd_cmd_plan::{Answer, Status, finish};
use vd_core::Program;
use vd_hostcode::plan_of;
use vd_outside::{Files, Sink};
use vd_projection::split_early;
use vd_search_stages::Assignment;

/// What is printed, with the word for this order behind it.
fn marked(alloc: Global, printed: &[u8]) -> Result<Bytes, AllocError>
    ensures { IfOk result (λ text. text ≡ printed.now ++ codes "early by round\n") }
{
    let mut text = Bytes::from_slice(alloc, printed)?;
    text.extend_from_slice(b"early by round\n")?;
    Ok(text)
}

/// Stores the programs of all hosts in an order that waits less, and prints the choice.
fn compile_at(
    alloc: Global,
    program: &Program,
    assignment: &Assignment,
    text: &[u8],
    prefix: &str,
) -> Result<Answer, Status>
    requires { IsSelected program.now assignment.now }
    ensures computes { SomeOrder (λ joint. Computes (early_at program.now joint assignment.now text.now prefix.now) result) }
    ensures tells { TellsPrograms program.now text.now prefix.now result }
{
    let hosts = &program.form().hosts;
    let printed = assignment_text(alloc, program, assignment)?;
    let protocols = assignment.protocols.as_slice();
    let codes = split_early(alloc, program, protocols)?;
    let told = marked(alloc, printed.as_slice())?;
    let plan = plan_of(text, told.as_slice());
    let stores = files_of(alloc, hosts, prefix, plan, codes)?;
    Ok(Answer {
        status: Status::Ended,
        stores,
        printed,
    })
}

/// What `compile early` comes to with what was found for a source.
fn compile_choice(alloc: Global, found: ChosenSource, prefix: &str) -> Result<Answer, Status>
    requires { IsChoiceIn found.text found.choice }
    ensures computes { SomeOrder (λ joint. Computes (early_for joint found.text prefix.now (chosen_of found.choice)) result) }
    ensures tells { TellsText found.text prefix.now result }
{
    let ChosenSource { text, choice } = found;
    match &choice.assignment {
        Some(assignment) => compile_at(alloc, &choice.program, assignment, text.as_slice(), prefix),
        None => Ok(no_assignment(alloc, choice.program, choice.labels)),
    }
}

/// The command `compile` with the word `early`: the programs of all hosts of a source in an order that waits less, at its choice of
/// protocols, which is found with a search of at most so many prefixes.
fn compile_early<F: Files>(
    alloc: Global,
    files: &mut F,
    source: &str,
    prefix: &str,
    budget: u32,
) -> Result<Answer, Status>
    requires { budget ≤ most_search_budget }
    ensures executes { ExecutesEarly source.now prefix.now budget (F.view files.old) (F.view files.new) result }
    ensures tells { TellsSource source.now prefix.now (F.view files.old) result }
{
    let loaded = load_source_program(alloc, files, source)?;
    let choice = choice_of(alloc, loaded.program, budget)?;
    let found = ChosenSource {
        text: loaded.text,
        choice,
    };
    compile_choice(alloc, found, prefix)
}

/// Runs `compile SOURCE PREFIX early`: it stores the programs of all hosts in an order that waits less, and prints the choice.
pub fn run_early<F: Files, O: Sink>(
    alloc: Global,
    files: &mut F,
    out: &mut O,
    words: &EarlyWords,
) -> Status
    requires { IsBudget words.now.budget }
    ensures runs { RunsEarly words.now (F.view files.old) (F.view files.new) (O.view out.old) (O.view out.new) result }
    ensures keeps { KeepsOrder words.now (F.view files.old) (F.view files.new) (O.view out.old) (O.view out.new) result }
{
    let came = compile_early(
        alloc,
        files,
        words.source.as_str(),
        words.prefix.as_str(),
        words.budget,
    );
    finish(came, files, out)
}
