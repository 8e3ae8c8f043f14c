//! A host whose files were read is played.

ghost use Rattle.std.specs.Prelude.{◌≡◌, ◌≤◌, None, Ok, IfOk};
ghost use Rattle.vd_outside.specs.Files.{FilesView};
ghost use Rattle.vd_channel_link.specs.Outgoing.{HasSealed, sealer_in};
ghost use Rattle.vd_channel_link.specs.Views.{sealing};
ghost use Rattle.vd_cmd_host.specs.Hosts.{IsSealedFor, PlainRuns, RunsLoaded, status_after};
ghost use Rattle.vd_cmd_host.specs.Loading.{IsLoaded, LoadsHost};

use crate::loading::Loaded;
use crate::marking::Claimed;
use crate::statuses::status_of;
use std::alloc::{AllocError, Global};
use std::marker::{Brand, PhantomData};
use vd_base::{Items, Name, Names, Text};
use vd_channel_link::{RunNet, SealedNet, SealedRun};
use vd_cmd::HostWords;
use vd_cmd_plan::Status;
use vd_host_session::{Ready, play, start};
use vd_outside::{Net, Sink};

/// Copies of texts.
fn copies(alloc: Global, texts: &[Text]) -> Result<Items<Text>, AllocError>
    ensures { IfOk result (λ list. list ≡ texts.now) }
{
    let mut list = Items::new(alloc);
    for text in texts {
        list.push(Text::copy_of(alloc, text.as_str())?)?;
    }
    Ok(list)
}

/// Copies of names.
fn names_of(alloc: Global, names: &Names) -> Result<Names, AllocError>
    ensures { IfOk result (λ list. list ≡ names.now) }
{
    let mut list = Names::new(alloc);
    for name in names.as_slice() {
        list.push(Name::from_slice(alloc, name.as_slice())?)?;
    }
    Ok(list)
}

/// Runs a host whose files were read. No wait for a peer is longer than its words allow.
fn run_loaded<N: Net, O: Sink>(
    alloc: Global,
    net: &mut N,
    out: &mut O,
    words: &HostWords,
    loaded: Loaded,
) -> Result<(), Status>
    requires room { (N.view net.old).given ≤ 4294967000 }
    requires loaded { IsLoaded words.now loaded }
    ensures { RunsLoaded words.now loaded (N.view net.old) (N.view net.new) (O.view out.old) (O.view out.new) result }
{
    let Loaded {
        program,
        inputs,
        dealt,
    } = loaded;
    let names = names_of(alloc, &program.hosts)?;
    let addresses = copies(alloc, words.addresses.as_slice())?;
    let Ready { task, machine } = start(alloc, program, inputs, dealt.deal, addresses)?;
    net.wait_at_most(words.limit);
    match play(alloc, net, out, &task, machine) {
        Ok(_) => Ok(()),
        Err(fault) => Err(status_of(names, fault)),
    }
}

/// The status of a host that ran.
pub(crate) fn status_after(ran: Result<(), Status>) -> Status
    ensures { result ≡ status_after ran }
{
    match ran {
        Ok(()) => Status::Ended,
        Err(status) => status,
    }
}

/// Runs a host whose deal is of version 1, over the net as it is.
pub(crate) fn run_plain<N: Net + Drop, O: Sink>(
    alloc: Global,
    net: &mut SealedNet<N>,
    out: &mut O,
    words: &HostWords,
    loaded: Loaded,
) -> Status
    requires room { (N.view net.old.net).given ≤ 4294967000 }
    requires loaded { IsLoaded words.now loaded }
    requires plain { loaded.dealt.secrets ≡ None }
    ensures runs { (before now : FilesView) → LoadsHost words.now before now (Ok loaded) →
        PlainRuns words.now before now (N.view net.old.net) (N.view net.new.net) (O.view out.old) (O.view out.new) result }
    ensures same { net.new.ledger ≡ net.old.ledger }
{
    let ran = run_loaded(alloc, &mut net.net, out, words, loaded);
    status_after(ran)
}

/// Runs a host over a net that seals by what this run seals by, and notes how it ended. The net is given back: so it is known that what
/// holds of it in the end holds of this one.
fn run_over<'a, R: SealedRun, N: Net + Drop, O: Sink>(
    alloc: Global,
    net: &'a mut SealedNet<N>,
    out: &mut O,
    words: &HostWords,
    loaded: Loaded,
    ran: &mut Result<(), Status>,
) -> &'a mut SealedNet<N>
    requires room { (N.view net.old.net).given ≤ 4294967000 }
    requires loaded { IsLoaded words.now loaded }
    requires held { net.ghost_name ≡ R.held }
    requires sealed { ∥ HasSealed R.by R.start net.old.seal (N.view net.old.net) ∥₁ }
    ensures held { result.ghost_name ≡ net.entry.ghost_name }
    ensures runs { RunsLoaded words.now loaded
        (sealing (N.view net.old.net) net.old.faults) (sealing (N.view result.now.net) result.now.faults)
        (O.view out.old) (O.view out.new) ran.new }
    ensures sealed { ∥ HasSealed R.by R.start result.now.seal (N.view result.now.net) ∥₁ }
{
    let mut run: RunNet<'a, R, N> = RunNet {
        net,
        run: PhantomData,
    };
    *ran = run_loaded(alloc, &mut run, out, words, loaded);
    let RunNet { net, .. } = run;
    net
}

/// Runs a host whose deal is of version 2, over a net that seals by what the deal tells of its dealing and by the bytes that were drawn
/// for this run.
pub(crate) fn run_sealed<N: Net + Drop, O: Sink>(
    alloc: Global,
    net: &mut SealedNet<N>,
    out: &mut O,
    words: &HostWords,
    loaded: Loaded,
    _claimed: &Claimed,
) -> Result<(), Status>
    requires room { (N.view net.old.net).given ≤ 4294967000 }
    requires loaded { IsLoaded words.now loaded }
    requires sealed { IsSealedFor loaded _claimed.now.seed net.old.seal }
    ensures runs { RunsLoaded words.now loaded
        (sealing (N.view net.old.net) net.old.faults) (sealing (N.view net.new.net) net.new.faults)
        (O.view out.old) (O.view out.new) result }
    ensures sealed { ∥ HasSealed (sealer_in net.old.seal) (N.view net.old.net) net.new.seal (N.view net.new.net) ∥₁ }
{
    let mut ran = Ok(());
    let _net = run_over::<Brand, N, O>(alloc, net, out, words, loaded, &mut ran);
    ran
}
