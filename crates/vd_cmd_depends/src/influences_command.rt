//! The command `influences`.

ghost use Rattle.std.specs.Prelude.{◌≤◌, [], length};
ghost use Rattle.vd_base.specs.Limits.{most_hosts};
ghost use Rattle.vd_cmd_depends.specs.Influencing.{ExecutesInfluences, ExecutesProgram, ExecutesSource, TellsInfluence, TellsProgram, TellsSource, influence_line};
ghost use Rattle.vd_cmd_plan.specs.Plans.{Computes, ended};

use crate::depends_command::host_named;
use crate::line::influence_text;
use std::alloc::Global;
use vd_base::{HostId, HostSet, Items, Names};
use vd_cmd_labels::{least_labels, load_source};
use vd_cmd_plan::{Answer, Status};
use vd_cmd_rewrite::executed_program;
use vd_core::Program;
use vd_noninter::influences as hosts_that_bear;
use vd_outside::Files;
use vd_resolve::Resolved;

/// Prints the line of a host and the hosts whose inputs bear on its outputs.
fn influence_answer(
    alloc: Global,
    hosts: &Names,
    host: HostId,
    all: HostSet,
    direct: HostSet,
) -> Result<Answer, Status>
    requires { length hosts.now ≤ most_hosts }
    ensures { Computes (ended [] (influence_line hosts.now host all direct)) result }
{
    let printed = influence_text(alloc, hosts, host, all, direct)?;
    Ok(Answer {
        status: Status::Ended,
        stores: Items::new(alloc),
        printed,
    })
}

/// What `influences` does with a program.
fn influences_in_program(alloc: Global, program: &Program, name: &str) -> Result<Answer, Status>
    ensures executes { ExecutesProgram name.now program.now result }
    ensures tells { TellsProgram name.now program.now result }
{
    let hosts = &program.form().hosts;
    let host = host_named(alloc, hosts, name)?;
    let labels = least_labels(alloc, program)?;
    drop(labels);
    let all = hosts_that_bear(alloc, program, host, true)?;
    let direct = hosts_that_bear(alloc, program, host, false)?;
    influence_answer(alloc, hosts, host, all, direct)
}

/// What `influences` does with a source that meets every rule.
fn influences_in_source(alloc: Global, source: Resolved, name: &str) -> Result<Answer, Status>
    ensures executes { ExecutesSource name.now source result }
    ensures tells { TellsSource name.now source result }
{
    let program = executed_program(alloc, source)?;
    influences_in_program(alloc, &program, name)
}

/// The command `influences`: the hosts whose inputs can bear on the outputs to the host of this name, and those among them whose
/// inputs do so through endorsements alone. A name that no host of the source has is refused before the flow rules are
/// looked at.
pub fn influences<F: Files>(
    alloc: Global,
    files: &mut F,
    source: &str,
    host: &str,
) -> Result<Answer, Status>
    ensures executes { ExecutesInfluences source.now host.now (F.view files.old) (F.view files.new) result }
    ensures tells { TellsInfluence source.now host.now (F.view files.old) result }
{
    let resolved = load_source(alloc, files, source)?;
    influences_in_source(alloc, resolved, host)
}
