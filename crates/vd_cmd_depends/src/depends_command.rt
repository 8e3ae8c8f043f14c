//! The command `depends`.

ghost use Rattle.std.specs.Prelude.{◌≤◌, [], IfOk, length};
ghost use Rattle.vd_base.specs.Limits.{most_hosts};
ghost use Rattle.vd_cmd_depends.specs.Depending.{ExecutesDepends, ExecutesProgram, ExecutesSource, as_host, as_hosts, hosts_line};
ghost use Rattle.vd_cmd_depends.specs.Telling.{AreFound, EachOne, TellsDependence, TellsProgram, TellsSource};
ghost use Rattle.vd_constraints.specs.Rules.{system_of};
ghost use Rattle.vd_constraints.specs.Satisfies.{Satisfies};
ghost use Rattle.vd_noninter.specs.Hosts.{members};
ghost use Rattle.vd_cmd_plan.specs.Plans.{Checks, Computes, ended};

use crate::line::hosts_text;
use std::alloc::{AllocError, Global};
use vd_base::{HostId, HostSet, Items, Names, Text, Texts};
use vd_cmd_labels::{least_labels, load_source};
use vd_cmd_plan::{Answer, Status};
use vd_cmd_rewrite::executed_program;
use vd_constraints::Labels;
use vd_core::Program;
use vd_noninter::depends as hosts_that_matter;
use vd_outside::Files;
use vd_report::host_of;
use vd_resolve::Resolved;

/// The host of this name.
pub fn host_named(alloc: Global, hosts: &Names, name: &str) -> Result<HostId, Status>
    requires { length hosts.now ≤ most_hosts }
    ensures { Checks (as_host hosts.now name.now) result }
{
    match host_of(hosts, name.as_bytes()) {
        Some(place) => {
            let number = place as u8;
            Ok(HostId(number))
        }
        None => {
            let copy = Text::copy_of(alloc, name)?;
            Err(Status::NoHost(copy))
        }
    }
}

/// The hosts of these names, up to the first that no host has.
fn hosts_named(alloc: Global, hosts: &Names, names: &[Text]) -> Result<Items<HostId>, Status>
    requires { length hosts.now ≤ most_hosts }
    ensures { Checks (as_hosts hosts.now names.now) result }
{
    let mut group = Items::new(alloc);
    for name in names {
        let host = host_named(alloc, hosts, name.as_str())?;
        group.push(host)?;
    }
    Ok(group)
}

/// Of each of these hosts the set of those on which it depends.
fn sets_of(
    alloc: Global,
    program: &Program,
    labels: &Labels,
    group: &[HostId],
) -> Result<Items<HostSet>, AllocError>
    requires { Satisfies (system_of program.now) labels.now }
    ensures { IfOk result (λ sets. EachOne (λ h set. AreFound program.now labels.now h (members set)) group.now sets) }
{
    let mut sets = Items::new(alloc);
    for host in group {
        let set = hosts_that_matter(alloc, program, labels, *host)?;
        sets.push(set)?;
    }
    Ok(sets)
}

/// Prints the line of a group of hosts and the hosts on which some of them depends.
fn line_answer(
    alloc: Global,
    hosts: &Names,
    group: &[HostId],
    sets: &[HostSet],
) -> Result<Answer, Status>
    requires { length hosts.now ≤ most_hosts }
    ensures { Computes (ended [] (hosts_line hosts.now group.now sets.now)) result }
{
    let printed = hosts_text(alloc, hosts, group, sets)?;
    Ok(Answer {
        status: Status::Ended,
        stores: Items::new(alloc),
        printed,
    })
}

/// What `depends` does with a program.
fn depends_in_program(alloc: Global, program: &Program, names: &[Text]) -> Result<Answer, Status>
    ensures executes { ExecutesProgram names.now program.now result }
    ensures tells { TellsProgram names.now program.now result }
{
    let hosts = &program.form().hosts;
    let group = hosts_named(alloc, hosts, names)?;
    let labels = least_labels(alloc, program)?;
    let sets = sets_of(alloc, program, &labels, group.as_slice())?;
    line_answer(alloc, hosts, group.as_slice(), sets.as_slice())
}

/// What `depends` does with a source that meets every rule.
fn depends_in_source(alloc: Global, source: Resolved, names: &[Text]) -> Result<Answer, Status>
    ensures executes { ExecutesSource names.now source result }
    ensures tells { TellsSource names.now source result }
{
    let program = executed_program(alloc, source)?;
    depends_in_program(alloc, &program, names)
}

/// The command `depends`: the hosts whose inputs can bear on the outputs to some host of these names, and on the clear words that
/// come to it at any valid assignment of protocols, outside of what is declassified to it. The first name that no host of the
/// source has is refused before the flow rules are looked at.
pub fn depends<F: Files>(
    alloc: Global,
    files: &mut F,
    source: &str,
    names: &Texts,
) -> Result<Answer, Status>
    ensures executes { ExecutesDepends source.now names.now (F.view files.old) (F.view files.new) result }
    ensures tells { TellsDependence source.now names.now (F.view files.old) result }
{
    let resolved = load_source(alloc, files, source)?;
    depends_in_source(alloc, resolved, names.as_slice())
}
