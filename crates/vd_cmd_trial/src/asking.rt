//! What the hosts of a trial run on.

ghost use Rattle.std.specs.Prelude.{◌≡◌, ◌≤◌, length, IfOk};
ghost use Rattle.vd_base.specs.Limits.{most_deal_items, most_hosts};
ghost use Rattle.vd_core.specs.Facts.{weight_sum};
ghost use Rattle.vd_tape.specs.Validity.{IsConsistent};
ghost use Rattle.vd_tape.specs.Made.{AreCounts};
ghost use Rattle.vd_deal_needs.specs.Sizes.{sizes_of};
ghost use Rattle.vd_cmd_choice.specs.Choice.{IsSelected};
ghost use Rattle.vd_deal_needs.specs.Items.{most_executed};
ghost use Rattle.vd_cmd_files.specs.Asking.{AreAsked};
ghost use Rattle.vd_cmd_trial.specs.Trial.{Suffice, asked_by, most_inputs, trial_asked, trial_input, trial_inputs, trial_words};

use std::alloc::{AllocError, Global};
use vd_base::{Inputs, Items, Words};
use vd_cmd_files::RunFiles;
use vd_core::Program;
use vd_deal_needs::{HostNeeds, needs_of_program, sizes};
use vd_report::Schedule;
use vd_search_stages::Assignment;
use vd_tape::make;

/// The input with this number, from 0 on, of a host: the first host's inputs are their numbers, all others are 0.
fn input(host: u8, number: u32) -> u32
    ensures { result ≡ trial_input host number }
{
    if host == 0 { number } else { 0 }
}

/// So many inputs of a host.
fn words_of(alloc: Global, host: u8, many: u32) -> Result<Words, AllocError>
    ensures { IfOk result (λ words. words ≡ trial_words many host) }
{
    let mut words = Words::new(alloc);
    for number in 0..many {
        words.push(input(host, number))?;
    }
    Ok(words)
}

/// So many inputs of each of so many hosts.
fn inputs_of(alloc: Global, hosts: u8, many: u32) -> Result<Inputs, AllocError>
    ensures { IfOk result (λ inputs. inputs ≡ trial_inputs hosts many) }
{
    let mut inputs = Inputs::new(alloc);
    for host in 0..hosts {
        let words = words_of(alloc, host, many)?;
        inputs.push(words)?;
    }
    Ok(inputs)
}

/// How many inputs the host takes at most that takes the most.
fn most_inputs(needs: &[HostNeeds]) -> u32
    ensures { result ≡ most_inputs needs.now }
{
    let mut most = 0;
    for host in needs {
        most = most.max(host.inputs);
    }
    most
}

/// As many inputs and items as hosts take that take so many, with a deal of this key.
fn asked_by(alloc: Global, needs: &[HostNeeds], key: u32) -> Result<RunFiles, AllocError>
    requires few { length needs.now ≤ most_hosts }
    requires inputs { most_inputs needs.now ≤ most_deal_items }
    requires counts { AreCounts (sizes_of needs.now) }
    ensures made { IfOk result (λ asked. asked ≡ asked_by needs.now key) }
    ensures asked { IfOk result (AreAsked (length needs.now)) }
    ensures consistent { IfOk result (λ asked. IsConsistent asked.deals) }
{
    let counts = sizes(needs);
    let inputs = inputs_of(alloc, counts.hosts, most_inputs(needs))?;
    let deals = make(alloc, counts, u64::from(key))?;
    Ok(RunFiles {
        inputs,
        deals,
        schedule: Schedule {
            entries: Items::new(alloc),
            all: true,
        },
        messages: false,
    })
}

/// What the hosts of a program run on at its choice of protocols: as many inputs and items as they take there, so that none is ever
/// short, with a deal whose key is the number of coordinates.
pub(crate) fn asked_at(
    alloc: Global,
    program: &Program,
    assignment: &Assignment,
    coordinates: u32,
) -> Result<RunFiles, AllocError>
    requires few { weight_sum program.now.body ≤ most_executed }
    requires selected { IsSelected program.now assignment.now }
    ensures made { IfOk result (λ asked. asked ≡ trial_asked coordinates program.now assignment.now.protocols) }
    ensures asked { IfOk result (AreAsked (length program.now.hosts)) }
    ensures consistent { IfOk result (λ asked. IsConsistent asked.deals) }
    ensures suffice { IfOk result (Suffice program.now assignment.now.protocols) }
{
    let _form = program.form();
    let protocols = assignment.protocols.as_slice();
    let needs = needs_of_program(alloc, program, protocols)?;
    asked_by(alloc, needs.as_slice(), coordinates)
}
