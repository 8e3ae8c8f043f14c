//! The hosts of a source, and what compiling it comes to.

ghost use Rattle.std.specs.Prelude.{◌≡◌, ◌≤◌, length, IfOk};
ghost use Rattle.vd_base.specs.Limits.{most_hosts};
ghost use Rattle.vd_cmd_plan.specs.Held.{Finds};
ghost use Rattle.vd_cmd_plan.specs.Plans.{IsGiven};
ghost use Rattle.vd_cmd_run.specs.Compiled.{AreHostsOf, CompilesFor};

use crate::compiled::Compiled;
use std::alloc::{AllocError, Global};
use vd_base::limits::SEARCH_BUDGET;
use vd_base::{Name, Names};
use vd_cmd_choice::{ChosenSource, choice_of, load_source_program};
use vd_cmd_compile::compile_choice;
use vd_cmd_plan::Status;
use vd_core::Program;
use vd_outside::Files;

/// The names of a program's hosts, in order.
fn names_of(alloc: Global, program: &Program) -> Result<Names, AllocError>
    ensures same { IfOk result (λ names. names ≡ program.now.hosts) }
    ensures few { IfOk result (λ names. length names ≤ most_hosts) }
{
    let hosts = &program.form().hosts;
    let mut names = Names::new(alloc);
    for host in hosts.as_slice() {
        names.push(Name::from_slice(alloc, host.as_slice())?)?;
    }
    Ok(names)
}

/// Fetches a source, and compiles it with the greatest budget of the search.
pub(crate) fn compile_for<F: Files>(
    alloc: Global,
    files: &mut F,
    source: &str,
    prefix: &str,
) -> Result<Compiled, Status>
    ensures compiles { CompilesFor source.now prefix.now (F.view files.old) (F.view files.new) result }
    ensures hosts { Finds (F.view files.old) result (λ contents compiled. AreHostsOf source.now contents compiled.names) }
    ensures few { IfOk result (λ compiled. length compiled.names ≤ most_hosts) }
    ensures given { IfOk result (λ compiled. IsGiven compiled.answer.status compiled.answer.printed) }
{
    let loaded = load_source_program(alloc, files, source)?;
    let choice = choice_of(alloc, loaded.program, SEARCH_BUDGET)?;
    let names = names_of(alloc, &choice.program)?;
    let found = ChosenSource {
        text: loaded.text,
        choice,
    };
    let answer = compile_choice(alloc, found, prefix)?;
    Ok(Compiled { names, answer })
}
