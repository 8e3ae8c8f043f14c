//! The command `compile`.

ghost use Rattle.std.specs.Prelude.{◌≡◌, ◌≤◌, length, IfOk};
ghost use Rattle.vd_base.specs.Limits.{most_hosts, most_search_budget};
ghost use Rattle.vd_cmd_plan.specs.Plans.{Computes};
ghost use Rattle.vd_cmd_choice.specs.Choice.{IsChoiceIn, IsSelected, chosen_of};
ghost use Rattle.vd_cmd_compile.specs.Compiling.{ExecutesCompile, compiled_at, compiled_for, host_file, host_files};
ghost use Rattle.vd_cmd_compile.specs.Telling.{TellsPrograms, TellsSource, TellsText};

use std::alloc::{AllocError, Global};
use vd_base::{HostId, Items, Names};
use vd_cmd_choice::{ChosenSource, assignment_text, choice_of, load_source_program, no_assignment};
use vd_cmd_plan::{Answer, Status, file_name};
use vd_core::Program;
use vd_execution::Instr;
use vd_hostcode::{Digest, host_file, plan_of};
use vd_outside::{Files, Stored};
use vd_projection::split;
use vd_search_stages::Assignment;

/// The file of a host's program, `PREFIX.i.host` for host i, where these are the names of all hosts.
fn file_of(
    alloc: Global,
    hosts: &Names,
    prefix: &str,
    plan: Digest,
    number: u8,
    code: Items<Instr>,
) -> Result<Stored, AllocError>
    ensures { IfOk result (λ file. file ≡ host_file prefix.now hosts.now plan number code) }
{
    let name = file_name(alloc, prefix, usize::from(number), ".host")?;
    let content = host_file(alloc, hosts, HostId(number), plan, code)?;
    Ok(Stored { name, content })
}

/// The files of the hosts' programs, in host order.
pub fn files_of(
    alloc: Global,
    hosts: &Names,
    prefix: &str,
    plan: Digest,
    mut codes: Items<Items<Instr>>,
) -> Result<Items<Stored>, AllocError>
    requires { length codes ≤ most_hosts }
    ensures { IfOk result (λ files. files ≡ host_files prefix.now hosts.now plan 0 codes) }
{
    let count = codes.as_slice().len() as u8;
    let mut files = Items::new(alloc);
    for number in 0..count {
        let code = codes.remove(0);
        let file = file_of(alloc, hosts, prefix, plan, number, code)?;
        files.push(file)?;
    }
    Ok(files)
}

/// Stores the programs of all hosts, and prints the choice.
fn compile_at(
    alloc: Global,
    program: &Program,
    assignment: &Assignment,
    text: &[u8],
    prefix: &str,
) -> Result<Answer, Status>
    requires { IsSelected program.now assignment.now }
    ensures computes { Computes (compiled_at program.now assignment.now text.now prefix.now) result }
    ensures tells { TellsPrograms program.now text.now prefix.now result }
{
    let hosts = &program.form().hosts;
    let printed = assignment_text(alloc, program, assignment)?;
    let protocols = assignment.protocols.as_slice();
    let codes = split(alloc, program, protocols)?;
    let plan = plan_of(text, printed.as_slice());
    let stores = files_of(alloc, hosts, prefix, plan, codes)?;
    Ok(Answer {
        status: Status::Ended,
        stores,
        printed,
    })
}

/// What `compile` comes to with what was found for a source.
pub fn compile_choice(alloc: Global, found: ChosenSource, prefix: &str) -> Result<Answer, Status>
    requires { IsChoiceIn found.text found.choice }
    ensures computes { Computes (compiled_for found.text prefix.now (chosen_of found.choice)) result }
    ensures tells { TellsText found.text prefix.now result }
{
    let ChosenSource { text, choice } = found;
    match &choice.assignment {
        Some(assignment) => compile_at(alloc, &choice.program, assignment, text.as_slice(), prefix),
        None => Ok(no_assignment(alloc, choice.program, choice.labels)),
    }
}

/// The command `compile`: the programs of all hosts of a source, at its choice of protocols, which is found with a search of
/// at most so many prefixes.
pub fn compile<F: Files>(
    alloc: Global,
    files: &mut F,
    source: &str,
    prefix: &str,
    budget: u32,
) -> Result<Answer, Status>
    requires { budget ≤ most_search_budget }
    ensures executes { ExecutesCompile source.now prefix.now budget (F.view files.old) (F.view files.new) result }
    ensures tells { TellsSource source.now prefix.now (F.view files.old) result }
{
    let loaded = load_source_program(alloc, files, source)?;
    let choice = choice_of(alloc, loaded.program, budget)?;
    let found = ChosenSource {
        text: loaded.text,
        choice,
    };
    compile_choice(alloc, found, prefix)
}
