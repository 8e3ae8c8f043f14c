//! How both ends of a sealed link begin: each says a hello, and then proves that it has the key of the link.

ghost use Rattle.std.specs.Prelude.{◌≡◌, IsTrue, []};
ghost use Rattle.vd_channel_crypto.specs.Hellos.{hello_bytes};
ghost use Rattle.vd_channel_crypto.specs.Keys.{direction};
ghost use Rattle.vd_channel_crypto.specs.Records.{sealed};
ghost use Rattle.vd_outside.specs.Link.{SendsAll};
ghost use Rattle.vd_channel_link.specs.Meeting.{IsMeetFault, IsProofFault, Meets, Proves, RefusesFor, RefusesHello, Says};
ghost use Rattle.vd_channel_link.specs.Meeting.{SaysNoMore, SendsNoMore, TakesHello, TakesProof};

use crate::{SealFault, fill, take_record};
use vd_base::{Failed, HostId};
use vd_channel_crypto::{Frame, Hello, Keys};
use vd_outside::{Link, Net, send_all};

/// Takes a hello of this dealing, from one host to another, which is at hand.
///
/// Refuses the first two bytes if they are those of no hello of this version, then another dealing, then other hosts.
pub(crate) fn take_hello<N: Net>(
    link: &mut N::Link,
    id: &[u8; 32],
    from: HostId,
    to: HostId,
) -> Result<Hello, SealFault>
    requires { N.at_hand link.old 68 }
    ensures takes { TakesHello id.now from to (N.Link.view link.old) (N.Link.view link.new) result }
    ensures refused { RefusesHello id.now from to (N.Link.view link.old) (N.Link.view link.new) result }
{
    let mut version = [0u8; 2];
    fill(link, &mut version)?;
    if version != [0x47, 2] {
        return Err(SealFault::Version);
    }
    let mut heard = [0u8; 32];
    fill(link, &mut heard)?;
    if heard != *id {
        return Err(SealFault::Dealing);
    }
    let mut ends = [0u8; 2];
    fill(link, &mut ends)?;
    if ends != [from.0, to.0] {
        return Err(SealFault::Host);
    }
    let mut nonce = [0u8; 32];
    fill(link, &mut nonce)?;
    Ok(Hello {
        id: heard,
        from,
        to,
        nonce,
    })
}

/// Says the own hello.
pub(crate) fn say_hello<L: Link>(
    link: &mut L,
    frame: &mut Frame,
    mine: &Hello,
) -> Result<(), Failed>
    ensures { SendsAll (hello_bytes mine.now) (L.view link.old) (L.view link.new) result }
{
    frame.set_hello(mine);
    send_all(link, frame.as_slice())
}

/// Sends the record that proves who has the key. It carries no bytes.
pub(crate) fn say_proof<L: Link>(link: &mut L, frame: &mut Frame, ours: &Keys) -> Result<(), Failed>
    ensures { SendsAll (sealed (direction ours.now) 0 []) (L.view link.old) (L.view link.new) result }
{
    frame.set_record(ours, 0, &[]);
    send_all(link, frame.as_slice())
}

/// Takes the record by which the peer proves that it has the key, which is at hand.
#[tactic(auto, using(crate::proofs::Refusing::record_refused, crate::proofs::Refusing::some_bytes))]
pub(crate) fn take_proof<N: Net>(link: &mut N::Link, theirs: &Keys) -> Result<(), SealFault>
    requires { N.at_hand link.old 34 }
    ensures takes { TakesProof (direction theirs.now) (N.Link.view link.old) (N.Link.view link.new) result }
    ensures refused { RefusesFor (IsProofFault (direction theirs.now)) (N.Link.view link.old) (N.Link.view link.new) result }
{
    let piece = take_record(link, theirs, 0)?;
    if piece.is_empty() {
        Ok(())
    } else {
        Err(SealFault::Head)
    }
}

/// The first bytes of each hello of this version.
pub(crate) const HELLO_FRONT: [u8; 2] = [0x47, 2];

/// How many bytes a hello has.
pub(crate) const HELLO_BYTES: u32 = 68;

/// How many bytes the record has that proves who has the key.
pub(crate) const PROOF_BYTES: u32 = 34;

/// Says the own hello, and takes that of the peer behind it.
fn exchange_hellos<N: Net>(
    net: &mut N,
    link: &mut N::Link,
    frame: &mut Frame,
    mine: &Hello,
) -> Result<Hello, SealFault>
    ensures net { N.view net.new ≡ N.view net.old }
    ensures says { Says mine.now (N.Link.view link.old) (N.Link.view link.new) result }
    ensures out { SendsNoMore (hello_bytes mine.now) (N.Link.view link.old) (N.Link.view link.new) }
    ensures refused { RefusesHello mine.now.id mine.now.to mine.now.from (N.Link.view link.old) (N.Link.view link.new) result }
{
    if say_hello(link, frame, mine).is_err() {
        return Err(SealFault::Peer);
    }
    net.await_bytes(link, HELLO_BYTES);
    take_hello::<N>(link, &mine.id, mine.to, mine.from)
}

/// Sends the record that proves who has the key, and takes that of the peer behind it. Neither carries bytes.
fn prove_both<N: Net>(
    net: &mut N,
    link: &mut N::Link,
    frame: &mut Frame,
    ours: &Keys,
    theirs: &Keys,
) -> Result<(), SealFault>
    ensures net { N.view net.new ≡ N.view net.old }
    ensures proves { Proves (direction ours.now) (direction theirs.now) (N.Link.view link.old) (N.Link.view link.new) result }
    ensures out { SendsNoMore (sealed (direction ours.now) 0 []) (N.Link.view link.old) (N.Link.view link.new) }
    ensures refused { RefusesFor (IsProofFault (direction theirs.now)) (N.Link.view link.old) (N.Link.view link.new) result }
{
    if say_proof(link, frame, ours).is_err() {
        return Err(SealFault::Peer);
    }
    net.await_bytes(link, PROOF_BYTES);
    take_proof::<N>(link, theirs)
}

/// Meets the peer that this hello is for, which awaits it at a listener, over a link whose key both have: says the own hello first. Gives
/// the keys of both directions, the own first. The peer has ten seconds for its hello and its proof.
///
/// Refuses a peer of another version, of another dealing or with another number, and one that does not prove that it has the key
/// and heard the same two hellos. Whatever comes of it, no more than the hello and the first record goes out.
#[tactic(auto, using(crate::proofs::Refusing::of_hello))]
pub(crate) fn ask<N: Net>(
    net: &mut N,
    link: &mut N::Link,
    frame: &mut Frame,
    mine: &Hello,
    key: &[u8; 32],
) -> Result<(Keys, Keys), SealFault>
    ensures net { N.view net.new ≡ N.view net.old }
    ensures meets { Meets mine.now key.now (N.Link.view link.old) (N.Link.view link.new) result }
    ensures out { IsTrue (N.Link.view link.new).told → SaysNoMore mine.now key.now (N.Link.view link.old) (N.Link.view link.new) }
    ensures refused { RefusesFor (IsMeetFault mine.now key.now) (N.Link.view link.old) (N.Link.view link.new) result }
{
    let theirs = exchange_hellos(net, link, frame, mine)?;
    let (own, other) = frame.keys_of(key, mine, &theirs);
    prove_both(net, link, frame, &own, &other)?;
    Ok((own, other))
}
