//! What a host's files hold.

ghost use Rattle.std.specs.Prelude.{◌≡◌, ◌≢◌, ◌<◌, ◌≤◌, ◌+◌, Some, length, slice_get, IfOk, IfErr, OnOk};
ghost use Rattle.vd_base.specs.Limits.{most_hosts};
ghost use Rattle.vd_cmd_host.specs.Loading.{LoadsFiles, IsDealEnd, IsInputsEnd, IsLoaded, LoadsDeal, LoadsHost, LoadsInputs, LoadsProgram};
ghost use Rattle.vd_host_session.specs.Starts.{IsProgramRead};
ghost use Rattle.vd_hostcode.specs.Outcome.{CanRun, IsHeaded};
ghost use Rattle.vd_cmd_plan.specs.declared.status.Status.TheVariants.{Usage};
ghost use Rattle.vd_report.specs.InputsText.{GivesInputs};
ghost use Rattle.vd_deal_versions.specs.Text.{IsDealtFile, IsDealtOf};

use std::alloc::{AllocError, Global};
use vd_base::limits::{DEAL_BYTES, HOST_FILE_BYTES, INPUTS_BYTES};
use vd_base::{FileFault, HostId, Inputs, Name, Names, Text, Words};
use vd_cmd::{CheckWords, HostWords};
use vd_cmd_plan::{Status, input_status, load, program_in};
use vd_deal_versions::{Dealt, read_dealt};
use vd_hostcode::HostProgram;
use vd_outside::Files;
use vd_report::read_inputs;

/// What a host's files hold: its program, its inputs and its deal.
#[derive(Drop)]
pub struct Loaded {
    pub program: HostProgram,
    pub inputs: Words,
    pub dealt: Dealt,
}

/// The words that a text gives to these hosts.
fn inputs_in(alloc: Global, bytes: &[u8], hosts: &Names) -> Result<Inputs, Status>
    ensures given { IfOk result (GivesInputs hosts.now bytes.now) }
    ensures all { IfOk result (λ inputs. length inputs ≡ length hosts.now) }
    ensures refused { IfErr result (IsInputsEnd hosts.now bytes.now) }
{
    match read_inputs(alloc, bytes, hosts) {
        Ok(inputs) => Ok(inputs),
        Err(fault) => Err(input_status(fault)),
    }
}

/// The words of one host.
fn words_at(inputs: Inputs, me: HostId) -> Words
    requires { me.0 < length inputs }
    ensures { slice_get inputs me.0 ≡ Some result }
{
    let mut inputs = inputs;
    inputs.remove(usize::from(me.0))
}

/// A copy of the name of a host.
fn own_name(alloc: Global, hosts: &Names, me: HostId) -> Result<Name, AllocError>
    requires { me.0 < length hosts.now }
    ensures { IfOk result (λ name. slice_get hosts.now me.0 ≡ Some name) }
{
    let name = &hosts.as_slice()[usize::from(me.0)];
    Ok(Name::from_slice(alloc, name.as_slice())?)
}

/// The deal of a file of either version, to one of these hosts.
fn deal_in(alloc: Global, bytes: &[u8], hosts: &Names, me: HostId) -> Result<Dealt, Status>
    requires few { length hosts.now ≤ most_hosts }
    requires declared { me.0 < length hosts.now }
    ensures given { IfOk result (IsDealtFile (length hosts.now) me.0 bytes.now) }
    ensures dealt { IfOk result (IsDealtOf (length hosts.now) me.0) }
    ensures refused { IfErr result (IsDealEnd hosts.now me.0 bytes.now) }
{
    match read_dealt(alloc, bytes, hosts.as_slice().len() as u8, me) {
        Ok(dealt) => Ok(dealt),
        Err(FileFault::Text(offset)) => {
            let name = own_name(alloc, hosts, me)?;
            Err(Status::DealText(name, me.0, offset))
        }
        Err(FileFault::Memory) => Err(Status::Memory),
    }
}

/// Refuses a number of addresses that is not that of the peers.
fn expect_addresses(program: &HostProgram, words: &HostWords) -> Result<(), Status>
    ensures ok { OnOk result (length words.now.addresses + 1 ≡ length program.now.hosts) }
    ensures err { IfErr result (λ status. (status ≡ Usage) × (length words.now.addresses + 1 ≢ length program.now.hosts)) }
{
    if words.addresses.as_slice().len() + 1 == program.hosts.as_slice().len() {
        Ok(())
    } else {
        Err(Status::Usage)
    }
}

/// Fetches the program of a host, and reads it.
fn load_program<F: Files>(alloc: Global, files: &mut F, name: &Text) -> Result<HostProgram, Status>
    ensures loads { LoadsProgram name.now (F.view files.old) (F.view files.new) result }
    ensures read { IfOk result IsProgramRead }
{
    let bytes = load(alloc, files, name.as_str(), HOST_FILE_BYTES)?;
    program_in(alloc, bytes.as_slice())
}

/// Fetches the inputs of all hosts of a program, and reads those of its own host.
fn load_inputs<F: Files>(
    alloc: Global,
    files: &mut F,
    name: &Text,
    program: &HostProgram,
) -> Result<Words, Status>
    requires { IsProgramRead program.now }
    ensures { LoadsInputs name.now program.now (F.view files.old) (F.view files.new) result }
{
    let bytes = load(alloc, files, name.as_str(), INPUTS_BYTES)?;
    let inputs = inputs_in(alloc, bytes.as_slice(), &program.hosts)?;
    Ok(words_at(inputs, program.me))
}

/// Fetches the deal of a program's host, and reads it.
fn load_deal<F: Files>(
    alloc: Global,
    files: &mut F,
    name: &Text,
    program: &HostProgram,
) -> Result<Dealt, Status>
    requires { IsProgramRead program.now }
    ensures loads { LoadsDeal name.now program.now (F.view files.old) (F.view files.new) result }
    ensures dealt { IfOk result (IsDealtOf (length program.now.hosts) program.now.me.0) }
{
    let bytes = load(alloc, files, name.as_str(), DEAL_BYTES)?;
    deal_in(alloc, bytes.as_slice(), &program.hosts, program.me)
}

/// Fetches the program, and then the inputs and the deal of its host, and reads each as soon as it is fetched. The number
/// of addresses is looked at right behind the program's text.
pub(crate) fn load_host<F: Files>(
    alloc: Global,
    files: &mut F,
    words: &HostWords,
) -> Result<Loaded, Status>
    ensures loads { LoadsHost words.now (F.view files.old) (F.view files.new) result }
    ensures loaded { IfOk result (IsLoaded words.now) }
{
    let program = load_program(alloc, files, &words.program)?;
    expect_addresses(&program, words)?;
    let inputs = load_inputs(alloc, files, &words.inputs, &program)?;
    let dealt = load_deal(alloc, files, &words.deal, &program)?;
    Ok(Loaded {
        program,
        inputs,
        dealt,
    })
}

/// Fetches the three files of a host, in the order in which `load_host` does, and reads each as soon as it is fetched.
pub(crate) fn load_files<F: Files>(
    alloc: Global,
    files: &mut F,
    words: &CheckWords,
) -> Result<Loaded, Status>
    ensures loads { LoadsFiles words.now (F.view files.old) (F.view files.new) result }
    ensures heading { IfOk result (λ loaded. IsHeaded loaded.program) }
    ensures code { IfOk result (λ loaded. CanRun loaded.program) }
{
    let program = load_program(alloc, files, &words.program)?;
    let inputs = load_inputs(alloc, files, &words.inputs, &program)?;
    let dealt = load_deal(alloc, files, &words.deal, &program)?;
    Ok(Loaded {
        program,
        inputs,
        dealt,
    })
}
