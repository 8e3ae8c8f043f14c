//! How a host is awaited at a listener: all who come are awaited side by side.

ghost use Rattle.std.specs.Prelude.{◌≡◌, ◌+◌, ◌<◌, ℕ, [], IfErr, IfOk, List, MatchOption, OnOk};
ghost use Rattle.vd_outside.specs.Link.{LinkView};
ghost use Rattle.vd_outside.specs.Net.{NetView};
ghost use Rattle.vd_channel_link.specs.Courses.{AreWaiting, Course, Ends, Gives, Stays};
ghost use Rattle.vd_channel_link.specs.Outgoing.{SealsLinks, SealsSession, sealer_of};
ghost use Rattle.vd_channel_link.specs.Seals.{IsKeyFor, IsKeyless, IsMet, Tries, awaited_at};
ghost use Rattle.vd_channel_link.specs.Waits.{ComesAfter, GivesUp, HangsUpAll, Post, Waiter, post_of};

use crate::channel_handshake::{HELLO_BYTES, HELLO_FRONT, PROOF_BYTES};
use crate::channel_net::answered::{Answered, Heard, greet, take_proven};
use crate::channel_net::seal::Seal;
use crate::{SealFault, SealedLink};
use std::alloc::Global;
use vd_base::CallFault;
use vd_channel_crypto::Frame;
use vd_outside::Net;

/// How many hosts that were answered are awaited at once. Where so many wait the one is hung up that was looked at last.
const MOST_ANSWERED: usize = 64;

/// Looks at the next of the hosts that were answered. One whose proof is still to come waits on, behind the others; one that has proved
/// itself is given; and one that proved nothing is hung up, and why is noted.
fn look_at_next<N: Net>(
    net: &mut N,
    noted: &mut Option<SealFault>,
    waiting: &mut Vec<Answered<N::Link>>,
) -> Option<SealedLink<N::Link>>
    ensures { (post : Post) (start : NetView) (turns : ℕ) (seal : Seal) →
        Course N.Link.view post start turns seal (N.view net.old) waiting.old.items →
        MatchOption result
        (Course N.Link.view post start turns seal (N.view net.new) waiting.new.items)
        (λ given. Gives N.Link.view post start seal (N.view net.new) waiting.new.items given.session (N.Link.view given.link)) }
{
    if waiting.is_empty() {
        return None;
    }
    let mut next = waiting.remove(0);
    if !net.has_come(&mut next.link, PROOF_BYTES) {
        waiting.push_reserved(next);
        return None;
    }
    match take_proven(net, next) {
        Ok(link) => Some(link),
        Err(fault) => {
            *noted = Some(fault);
            None
        }
    }
}

/// Makes room for one more host that was answered: where as many wait as may, the one is hung up that was looked at last.
fn make_room<N: Net>(net: &mut N, waiting: &mut Vec<Answered<N::Link>>)
    ensures { (post : Post) (start : NetView) (turns : ℕ) (seal : Seal) →
        Course N.Link.view post start turns seal (N.view net.old) waiting.old.items →
        Course N.Link.view post start turns seal (N.view net.new) waiting.new.items }
{
    if waiting.len() >= MOST_ANSWERED {
        if let Some(last) = waiting.pop() {
            net.hang_up(last.link);
        }
    }
}

/// Greets the next host that came to a listener, if one did. One whose proof is still to come waits behind the others; one that has proved
/// itself is given. Why one was hung up is noted. Once all numbers of connections are used none is greeted any more.
fn let_in<N: Net>(
    alloc: Global,
    net: &mut N,
    seal: &mut Seal,
    noted: &mut Option<SealFault>,
    listener: u32,
    key: &[u8; 32],
    waiting: &mut Vec<Answered<N::Link>>,
) -> Result<Option<SealedLink<N::Link>>, CallFault>
    requires listener { listener < (N.view net.old).given }
    requires key { IsKeyFor seal.old.me.0 seal.old.secrets (awaited_at seal.old listener) key.now }
    ensures comes { (post : Post) (start : NetView) (turns : ℕ) → post.listener ≡ listener → post.peer ≡ awaited_at seal.old listener →
        Course N.Link.view post start turns seal.old (N.view net.old) waiting.old.items →
        IfOk result (λ found. MatchOption found
        (Course N.Link.view post start (turns + 1) seal.new (N.view net.new) waiting.new.items)
        (λ given. Gives N.Link.view post start seal.new (N.view net.new) waiting.new.items given.session (N.Link.view given.link))) }
    ensures ends { (post : Post) (start : NetView) (turns : ℕ) → post.listener ≡ listener → post.peer ≡ awaited_at seal.old listener →
        Course N.Link.view post start turns seal.old (N.view net.old) waiting.old.items →
        IfErr result (Ends N.Link.view post start seal.new (N.view net.new) waiting.new.items) }
{
    if seal.tried() == u32::MAX {
        return Err(CallFault::Failed);
    }
    let peer = seal.awaited_at(listener);
    waiting.reserve(1)?;
    let frame = Frame::new(alloc)?;
    let Some(link) = net.next_comer(listener, &HELLO_FRONT, HELLO_BYTES)? else {
        return Ok(None);
    };
    match greet(net, seal, frame, link, peer, key) {
        Ok(Heard::Met(link)) => Ok(Some(link)),
        Ok(Heard::Waits(answered)) => {
            waiting.push_reserved(answered);
            Ok(None)
        }
        Err(fault) => {
            *noted = Some(fault);
            Ok(None)
        }
    }
}

/// Awaits the first host that comes to a listener and proves who it is. Those that wait then are left.
fn await_peer<N: Net>(
    alloc: Global,
    net: &mut N,
    seal: &mut Seal,
    noted: &mut Option<SealFault>,
    listener: u32,
    key: &[u8; 32],
    waiting: &mut Vec<Answered<N::Link>>,
) -> Result<SealedLink<N::Link>, CallFault>
    requires listener { listener < (N.view net.old).given }
    requires key { IsKeyFor seal.old.me.0 seal.old.secrets (awaited_at seal.old listener) key.now }
    requires none { waiting.old.items ≡ [] }
    ensures gives { IfOk result (λ given. Gives N.Link.view
        (post_of seal.old listener)
        (N.view net.old) seal.new (N.view net.new) waiting.new.items given.session (N.Link.view given.link)) }
    ensures ends { IfErr result (Ends N.Link.view
        (post_of seal.old listener)
        (N.view net.old) seal.new (N.view net.new) waiting.new.items) }
{
    for _ in 0..u64::MAX {
        if let Some(link) = look_at_next(net, noted, waiting) {
            return Ok(link);
        }
        make_room(net, waiting);
        if let Some(link) = let_in(alloc, net, seal, noted, listener, key, waiting)? {
            return Ok(link);
        }
    }
    Err(CallFault::Failed)
}

/// Hangs up the hosts that still wait.
fn hang_up_all<N: Net>(net: &mut N, waiting: &mut Vec<Answered<N::Link>>)
    ensures given { (N.view net.new).given ≡ (N.view net.old).given }
    ensures limit { (N.view net.new).limit ≡ (N.view net.old).limit }
    ensures hung_up { (post : Post) (tried : ℕ) (ones : List Waiter) → AreWaiting N.Link.view post tried waiting.old.items ones →
        HangsUpAll ones (N.view net.old) (N.view net.new) }
    ensures over { (post : Post) (tried : ℕ) (ones : List Waiter) → AreWaiting N.Link.view post tried waiting.old.items ones →
        SealsLinks (sealer_of post.seal) (N.view net.old) (N.view net.new) }
{
    while !waiting.is_empty() {
        let first = waiting.remove(0);
        net.hang_up(first.link);
    }
}

/// The first host that comes to a listener and proves who it is. Why others were hung up is noted. All who come are awaited side by side,
/// and stay until it has proved itself.
pub(crate) fn accept_sealed<N: Net>(
    alloc: Global,
    net: &mut N,
    seal: &mut Seal,
    noted: &mut Option<SealFault>,
    listener: u32,
) -> Result<SealedLink<N::Link>, CallFault>
    requires { listener < (N.view net.old).given }
    ensures given { (N.view net.new).given ≡ (N.view net.old).given }
    ensures limit { (N.view net.new).limit ≡ (N.view net.old).limit }
    ensures kept { Tries seal.old seal.new }
    ensures fresh { IfOk result (λ link. link.session.faults ≡ 0) }
    ensures met { IfOk result (λ link. (came : LinkView) ×
        IsMet seal.old seal.new.tried (awaited_at seal.old listener) link.session came (N.Link.view link.link)) }
    ensures over { SealsLinks (sealer_of seal.old) (N.view net.old) (N.view net.new) }
    ensures sealed { IfOk result (λ link. SealsSession (sealer_of seal.old) (N.view net.old) link.session (N.Link.view link.link)) }
    ensures comes { OnOk result (ComesAfter (post_of seal.old listener) (N.view net.old) (N.view net.new)) }
    ensures gives_up { IfErr result (GivesUp (post_of seal.old listener)
        (IsKeyless seal.old (awaited_at seal.old listener)) seal.new.tried (N.view net.old) (N.view net.new)) }
{
    let peer = seal.awaited_at(listener);
    let Some(key) = seal.key_of(peer) else {
        return Err(CallFault::Failed);
    };
    let mut waiting = Vec::new(alloc);
    let given = await_peer(alloc, net, seal, noted, listener, &key, &mut waiting);
    hang_up_all(net, &mut waiting);
    given
}
