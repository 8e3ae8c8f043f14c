ghost use Rattle.std.specs.Prelude.{◌≡◌, ◌<◌, ◌≤◌, ℕ, List, None, IfOk, length};
ghost use Rattle.std.specs.Result.{result_map_both};
ghost use Rattle.vd_engine.specs.Links.{session_at};
ghost use Rattle.vd_link.specs.Sessions.{wanted_greeting};
ghost use Rattle.vd_host_session.specs.Histories.{Gets, ends_with, greet_status};
ghost use Rattle.vd_host_session.specs.Peers.{number_at, peer_at};
ghost use Rattle.vd_host_session.specs.Meetings.{MeetsAll, MeetsOne};
ghost use Rattle.vd_host_session.specs.Stages.{CanMeet};

use crate::HostFault;
use crate::listening::fault_of;
use crate::task::{Task, address_at, peer_at};
use std::alloc::Global;
use vd_base::{CallFault, HostId};
use vd_engine::Links;
use vd_link::{GreetFault, Session, greeting_of};
use vd_outside::Net;

/// Why a peer was not met, and its link, if one was given.
#[derive(Drop)]
pub(crate) struct Unmet<L: Drop> {
    pub fault: HostFault,
    pub link: Option<L>,
}

/// The fault of a greeting of a peer.
fn fault_of_greeting(peer: HostId, fault: GreetFault) -> HostFault
    ensures { (address : List ℕ) → result ≡ greet_status (record { number = peer.0; address = address }) fault }
{
    match fault {
        GreetFault::Peer => HostFault::Peer(peer),
        GreetFault::BadFrame(offset, byte) => HostFault::BadFrame(offset, byte),
        GreetFault::WrongProgram(ours, theirs) => HostFault::WrongProgram(peer, ours, theirs),
        GreetFault::WrongHost(wanted, named) => HostFault::WrongHost(wanted, named),
        GreetFault::End => HostFault::EndOfLink(peer),
    }
}

/// The link that comes from the later peer at a place, which is to greet this host by the same plan. Of the listeners the first has
/// this number.
fn link_from<N: Net>(
    net: &mut N,
    task: &Task,
    place: usize,
    first: u32,
) -> Result<N::Link, CallFault>
    requires place { place < length task.now.addresses }
    requires listeners { CanMeet task.now first (N.view net.old) }
    requires later { task.now.me.0 ≤ place }
    ensures gets { Gets first task.now.me.0 (peer_at task.now place) (N.view net.old) (N.view net.new)
        (result_map_both N.Link.view (λ fault. fault) result) }
    ensures greets { IfOk result (λ link. N.greets link (wanted_greeting (ends_with task.now (peer_at task.now place)))) }
{
    let greeting = greeting_of(&task.plan, peer_at(task.me, place), task.me);
    net.accept(first + (place as u32 - u32::from(task.me.0)), &greeting)
}

/// The link to the peer at a place. Of the listeners the first has this number.
fn link_to<N: Net>(net: &mut N, task: &Task, place: usize, first: u32) -> Result<N::Link, CallFault>
    requires place { place < length task.now.addresses }
    requires listeners { CanMeet task.now first (N.view net.old) }
    ensures { Gets first task.now.me.0 (peer_at task.now place) (N.view net.old) (N.view net.new)
        (result_map_both N.Link.view (λ fault. fault) result) }
{
    if (task.me.0 as usize) <= place {
        link_from(net, task, place, first)
    } else {
        net.connect(address_at(task, place))
    }
}

/// Gets the link to the peer at a place, greets it and puts the session to the others.
fn meet<N: Net>(
    alloc: Global,
    net: &mut N,
    task: &Task,
    place: usize,
    first: u32,
    links: &mut Links<N::Link>,
) -> Result<(), Unmet<N::Link>>
    requires place { place < length task.now.addresses }
    requires listeners { CanMeet task.now first (N.view net.old) }
    requires free { session_at links.old (number_at task.now.me.0 place) ≡ None }
    ensures meets { MeetsOne N.Link.view task.now first place (N.view net.old) (N.view net.new) links.old links.new result }
    ensures given { (N.view net.new).given ≡ (N.view net.old).given }
{
    let peer = peer_at(task.me, place);
    let link = match link_to(net, task, place, first) {
        Ok(link) => link,
        Err(fault) => return Err(Unmet {
            fault: fault_of(peer, fault),
            link: None,
        }),
    };
    match Session::new(alloc, link, task.me, peer, task.plan) {
        Err((link, _)) => Err(Unmet {
            fault: HostFault::Memory,
            link: Some(link),
        }),
        Ok(session) => match session.greet() {
            Ok(session) => {
                links.put(peer, session);
                Ok(())
            }
            Err((session, fault)) => Err(Unmet {
                fault: fault_of_greeting(peer, fault),
                link: Some(session.link()),
            }),
        },
    }
}

/// Meets all peers in their order. Of the listeners the first has this number.
pub(crate) fn meet_all<N: Net>(
    alloc: Global,
    net: &mut N,
    task: &Task,
    first: u32,
    links: &mut Links<N::Link>,
) -> Result<(), Unmet<N::Link>>
    requires listeners { CanMeet task.now first (N.view net.old) }
    requires empty { (host : ℕ) → session_at links.old host ≡ None }
    ensures { MeetsAll N.Link.view task.now first (N.view net.old) (N.view net.new) links.new result }
{
    for place in 0..task.addresses.as_slice().len() {
        meet(alloc, net, task, place, first, links)?;
    }
    Ok(())
}
