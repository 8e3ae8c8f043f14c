//! The command `host`.

ghost use Rattle.std.specs.Prelude.{◌≡◌, ◌≤◌, true, Some, Ok, IfOk, OnErr, is_some};
ghost use Rattle.vd_outside.specs.Files.{FilesView};
ghost use Rattle.vd_cmd_host.specs.Hosts.{EndsMarked, HostRuns, nets_of};
ghost use Rattle.vd_cmd_host.specs.Loading.{IsLoaded, LoadsHost};

use crate::loading::{Loaded, load_host};
use crate::marking::{claim, leave};
use crate::playing::{run_plain, run_sealed, status_after};
use std::alloc::{AllocError, Global};
use vd_channel_crypto::Secrets;
use vd_channel_link::SealedNet;
use vd_cmd::HostWords;
use vd_cmd_plan::Status;
use vd_outside::{Files, Marks, Net, Sink};

/// Runs a host whose deal is of version 2, over sealed links: its mark is taken first, and taken back where nothing went out that the
/// deal masks.
fn run_marked<M: Marks, N: Net + Drop, O: Sink>(
    alloc: Global,
    marks: &mut M,
    net: &mut SealedNet<N>,
    out: &mut O,
    words: &HostWords,
    loaded: Loaded,
    secrets: Secrets,
) -> Status
    requires room { (N.view net.old.net).given ≤ 4294967000 }
    requires loaded { IsLoaded words.now loaded }
    requires dealt { loaded.dealt.secrets ≡ Some secrets }
    ensures { EndsMarked words.now loaded secrets (M.view marks.old) (M.view marks.new)
        (nets_of (N.view net.old.net) net.old.ledger net.old.faults) (nets_of (N.view net.new.net) net.new.ledger net.new.faults)
        (O.view out.old) (O.view out.new) result }
{
    let id = secrets.id;
    let claimed = match claim(alloc, marks, words, &id, &loaded.program) {
        Ok(claimed) => claimed,
        Err(status) => return status,
    };
    net.seal(loaded.program.me, secrets, claimed.seed);
    let ran = run_sealed(alloc, net, out, words, loaded, &claimed);
    leave(marks, words, claimed.name.as_slice(), net.has_sent());
    status_after(ran)
}

/// A copy of what a host knows of its dealing, where its deal is of version 2.
fn secrets_of(alloc: Global, loaded: &Loaded) -> Result<Option<Secrets>, AllocError>
    ensures same { IfOk result (λ secrets. secrets ≡ loaded.now.dealt.secrets) }
    ensures some { OnErr result (is_some loaded.now.dealt.secrets ≡ true) }
{
    match &loaded.dealt.secrets {
        None => Ok(None),
        Some(secrets) => Ok(Some(secrets.copy(alloc)?)),
    }
}

/// Runs a host whose files were read, by the version of its deal.
fn run_dealt<M: Marks, N: Net + Drop, O: Sink>(
    alloc: Global,
    marks: &mut M,
    net: &mut SealedNet<N>,
    out: &mut O,
    words: &HostWords,
    loaded: Loaded,
) -> Status
    requires room { (N.view net.old.net).given ≤ 4294967000 }
    requires loaded { IsLoaded words.now loaded }
    ensures { (before now : FilesView) → LoadsHost words.now before now (Ok loaded) →
        HostRuns words.now before now (M.view marks.old) (M.view marks.new)
        (nets_of (N.view net.old.net) net.old.ledger net.old.faults) (nets_of (N.view net.new.net) net.new.ledger net.new.faults)
        (O.view out.old) (O.view out.new) result }
{
    match secrets_of(alloc, &loaded) {
        Ok(None) => run_plain(alloc, net, out, words, loaded),
        Ok(Some(secrets)) => run_marked(alloc, marks, net, out, words, loaded, secrets),
        Err(error) => Status::from(error),
    }
}

/// Runs the host of the program, on its inputs and its deal, over the net: it reads its files, listens for its later peers,
/// writes `listening`, meets its peers, drives its machine and writes `ended`. No wait for a peer is longer than its words
/// allow. Every link that was given is handed back, however it ends. With a deal of version 2 its links are sealed, and the deal is
/// marked as used before anything is sent.
pub fn host<F: Files, M: Marks, N: Net + Drop, O: Sink>(
    alloc: Global,
    files: &mut F,
    marks: &mut M,
    net: &mut SealedNet<N>,
    out: &mut O,
    words: &HostWords,
) -> Status
    requires room { (N.view net.old.net).given ≤ 4294967000 }
    ensures { HostRuns words.now (F.view files.old) (F.view files.new) (M.view marks.old) (M.view marks.new)
        (nets_of (N.view net.old.net) net.old.ledger net.old.faults) (nets_of (N.view net.new.net) net.new.ledger net.new.faults)
        (O.view out.old) (O.view out.new) result }
{
    match load_host(alloc, files, words) {
        Err(status) => status,
        Ok(loaded) => run_dealt(alloc, marks, net, out, words, loaded),
    }
}
