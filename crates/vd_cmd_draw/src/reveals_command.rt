//! The command `reveals`.

ghost use Rattle.std.specs.Prelude.{◌≡◌, ◌≤◌, IfOk, length};
ghost use Rattle.vd_base.specs.HostSets.{hosts as first_hosts};
ghost use Rattle.vd_base.specs.Limits.{most_hosts, most_search_budget};
ghost use Rattle.vd_constraints.specs.Rules.{system_of};
ghost use Rattle.vd_constraints.specs.Satisfies.{IsLeast};
ghost use Rattle.vd_cmd_plan.specs.Plans.{Checks, Computes};
ghost use Rattle.vd_cmd_choice.specs.Choice.{chosen_of};
ghost use Rattle.vd_cmd_depends.specs.Depending.{as_host};
ghost use Rattle.vd_cmd_draw.specs.Revealing.{ExecutesReveals, RevealsChoice, alone, asked_hosts, revealed_answer, revealed_for};

use crate::reveals_lines::reveals_text;
use std::alloc::{AllocError, Global};
use vd_base::{HostId, Items, Names};
use vd_cmd::RevealsWords;
use vd_cmd_choice::{Choice, ChosenSource, choice_of, load_source_program, no_assignment};
use vd_cmd_depends::host_named;
use vd_cmd_plan::{Answer, Status};
use vd_outside::Files;
use vd_search_stages::Assignment;

/// All hosts of a program, in order.
fn all_hosts(alloc: Global, names: &Names) -> Result<Items<HostId>, AllocError>
    requires { length names.now ≤ most_hosts }
    ensures { IfOk result (λ list. list ≡ first_hosts (length names.now)) }
{
    let mut list = Items::new(alloc);
    for number in 0..names.as_slice().len() as u8 {
        list.push(HostId(number))?;
    }
    Ok(list)
}

/// The host of this name alone.
fn one_host(alloc: Global, names: &Names, name: &str) -> Result<Items<HostId>, Status>
    requires { length names.now ≤ most_hosts }
    ensures { Checks (alone (as_host names.now name.now)) result }
{
    let host = host_named(alloc, names, name)?;
    let mut list = Items::new(alloc);
    list.push(host)?;
    Ok(list)
}

/// The hosts that are asked for: the one of this name, or all.
fn asked_hosts(alloc: Global, names: &Names, words: &RevealsWords) -> Result<Items<HostId>, Status>
    requires { length names.now ≤ most_hosts }
    ensures { Checks (asked_hosts names.now words.now.host) result }
{
    match &words.host {
        Some(name) => one_host(alloc, names, name.as_str()),
        None => Ok(all_hosts(alloc, names)?),
    }
}

/// Prints the lines of these hosts at an assignment of protocols.
fn reveals_at(
    alloc: Global,
    choice: &Choice,
    assignment: &Assignment,
    text: &[u8],
    hosts: &[HostId],
) -> Result<Answer, Status>
    ensures { Computes (revealed_answer text.now choice.now.program hosts.now assignment.now) result }
{
    let protocols = assignment.protocols.as_slice();
    let printed = reveals_text(alloc, text, &choice.program, protocols, hosts)?;
    Ok(Answer {
        status: Status::Ended,
        stores: Items::new(alloc),
        printed,
    })
}

/// What `reveals` comes to for these hosts, with what was found for a source.
fn reveals_choice(alloc: Global, found: ChosenSource, hosts: &[HostId]) -> Result<Answer, Status>
    requires { IsLeast (system_of found.choice.program) found.choice.labels }
    ensures { Computes (revealed_for hosts.now found.text (chosen_of found.choice)) result }
{
    let ChosenSource { text, choice } = found;
    match &choice.assignment {
        Some(assignment) => reveals_at(alloc, &choice, assignment, text.as_slice(), hosts),
        None => Ok(no_assignment(alloc, choice.program, choice.labels)),
    }
}

/// What `reveals` does with what was found for a source: it looks for the host first.
fn reveals_found(alloc: Global, found: ChosenSource, words: &RevealsWords) -> Result<Answer, Status>
    requires { IsLeast (system_of found.choice.program) found.choice.labels }
    ensures { RevealsChoice words.now found.text (chosen_of found.choice) result }
{
    let hosts = asked_hosts(alloc, &found.choice.program.form().hosts, words)?;
    reveals_choice(alloc, found, hosts.as_slice())
}

/// The command `reveals`: a line for each word that comes to a host in clear at the choice of protocols for a source, of the one
/// host that is asked for or of each host. The choice is found with a search of at most so many prefixes.
pub fn reveals<F: Files>(
    alloc: Global,
    files: &mut F,
    words: &RevealsWords,
) -> Result<Answer, Status>
    requires { words.now.budget ≤ most_search_budget }
    ensures { ExecutesReveals words.now (F.view files.old) (F.view files.new) result }
{
    let loaded = load_source_program(alloc, files, words.source.as_str())?;
    let choice = choice_of(alloc, loaded.program, words.budget)?;
    let found = ChosenSource {
        text: loaded.text,
        choice,
    };
    reveals_found(alloc, found, words)
}
