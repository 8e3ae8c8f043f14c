//! Hosts that came to a listener, said their hello and were answered.

ghost use Rattle.std.specs.Prelude.{◌≡◌, ◌<◌, ℕ, [], IfErr, IfOk};
ghost use Rattle.vd_outside.specs.Link.{LinkView};
ghost use Rattle.vd_channel_link.specs.Courses.{IsGreeted, IsHungUp};
ghost use Rattle.vd_channel_link.specs.Outgoing.{IsLinkSealed, Sealer, SealsLinks, sealer_of};
ghost use Rattle.vd_channel_link.specs.Seals.{IsAnswered, IsKeyFor, IsMet, IsTurnedAway, Tries};

use crate::channel_handshake::{
    HELLO_BYTES, PROOF_BYTES, say_hello, say_proof, take_hello, take_proof,
};
use crate::channel_net::seal::Seal;
use crate::{SealFault, SealedLink, Session};
use vd_base::HostId;
use vd_channel_crypto::{Frame, Keys};
use vd_outside::{Link, Net};

/// A host that came, said its hello and was answered by the own hello and the own proof. Its own proof is still to come.
#[derive(Drop)]
pub struct Answered<L: Link + Drop> {
    pub link: L,
    frame: Frame,
    ours: Keys,
    theirs: Keys,
}

/// A host that came, and whose hello was heard.
#[derive(Drop)]
pub(crate) enum Heard<L: Link + Drop> {
    /// It proved who it is.
    Met(SealedLink<L>),
    /// Its proof is still to come.
    Waits(Answered<L>),
}

/// Takes the hello of a host, and says the own one and the own proof behind it: nothing is said to who says no hello of this dealing
/// and these hosts. Gives the keys of both directions, the own first.
fn reply<N: Net>(
    link: &mut N::Link,
    frame: &mut Frame,
    seal: &mut Seal,
    peer: HostId,
    key: &[u8; 32],
) -> Result<(Keys, Keys), SealFault>
    requires key { IsKeyFor seal.old.me.0 seal.old.secrets peer.0 key.now }
    requires number { seal.old.tried < u32.MAX }
    requires at_hand { N.at_hand link.old 68 }
    ensures kept { Tries seal.old seal.new }
    ensures answered { IfOk result (λ keys.
        IsAnswered seal.old seal.new.tried peer.0 keys (N.Link.view link.old) (N.Link.view link.new)) }
    ensures refused { IfErr result (IsTurnedAway seal.old peer.0 (N.Link.view link.old) (N.Link.view link.new)) }
    ensures out { (N.Link.view link.old).sent ≡ [] → IsLinkSealed (sealer_of seal.old) (N.Link.view link.new) }
{
    let heard = take_hello::<N>(link, &seal.id(), peer, seal.me())?;
    let mine = seal.next_hello(peer);
    let (ours, theirs) = frame.keys_of(key, &mine, &heard);
    if say_hello(link, frame, &mine).is_err() {
        return Err(SealFault::Peer);
    }
    if say_proof(link, frame, &ours).is_err() {
        return Err(SealFault::Peer);
    }
    Ok((ours, theirs))
}

/// Answers a host that came. One that says no hello of this dealing and these hosts is hung up.
fn answer<N: Net>(
    net: &mut N,
    seal: &mut Seal,
    frame: Frame,
    link: N::Link,
    peer: HostId,
    key: &[u8; 32],
) -> Result<Answered<N::Link>, SealFault>
    requires key { IsKeyFor seal.old.me.0 seal.old.secrets peer.0 key.now }
    requires number { seal.old.tried < u32.MAX }
    requires at_hand { N.at_hand link 68 }
    ensures given { (N.view net.new).given ≡ (N.view net.old).given }
    ensures limit { (N.view net.new).limit ≡ (N.view net.old).limit }
    ensures kept { Tries seal.old seal.new }
    ensures answered { IfOk result (λ answered. IsAnswered seal.old seal.new.tried peer.0 (answered.ours, answered.theirs)
        (N.Link.view link) (N.Link.view answered.link)) }
    ensures same { IfOk result (λ answered. N.view net.new ≡ N.view net.old) }
    ensures out { (N.Link.view link).sent ≡ [] → IfOk result (λ answered. IsLinkSealed (sealer_of seal.old) (N.Link.view answered.link)) }
    ensures over { (N.Link.view link).sent ≡ [] → SealsLinks (sealer_of seal.old) (N.view net.old) (N.view net.new) }
    ensures hung_up { IfErr result (λ fault. IsHungUp seal.old peer.0 (N.Link.view link) fault (N.view net.old) (N.view net.new)) }
{
    let mut link = link;
    let mut frame = frame;
    match reply::<N>(&mut link, &mut frame, seal, peer, key) {
        Ok((ours, theirs)) => Ok(Answered {
            link,
            frame,
            ours,
            theirs,
        }),
        Err(fault) => {
            net.hang_up(link);
            Err(fault)
        }
    }
}

/// Takes the proof of a host that was answered. One that proves nothing is hung up.
pub(crate) fn take_proven<N: Net>(
    net: &mut N,
    answered: Answered<N::Link>,
) -> Result<SealedLink<N::Link>, SealFault>
    requires { N.at_hand answered.link 34 }
    ensures given { (N.view net.new).given ≡ (N.view net.old).given }
    ensures limit { (N.view net.new).limit ≡ (N.view net.old).limit }
    ensures fresh { IfOk result (λ link. link.session.faults ≡ 0) }
    ensures met { IfOk result (λ given. (seal : Seal) (tried peer : ℕ) (came : LinkView) →
        IsAnswered seal tried peer (answered.ours, answered.theirs) came (N.Link.view answered.link) →
        IsMet seal tried peer given.session came (N.Link.view given.link)) }
    ensures same { IfOk result (λ given. N.view net.new ≡ N.view net.old) }
    ensures told { IfOk result (λ given. (N.Link.view given.link).told ≡ (N.Link.view answered.link).told) }
    ensures over { (by : Sealer) → IsLinkSealed by (N.Link.view answered.link) → SealsLinks by (N.view net.old) (N.view net.new) }
    ensures hung_up { IfErr result (λ fault. (seal : Seal) (tried peer : ℕ) (came : LinkView) →
        IsAnswered seal tried peer (answered.ours, answered.theirs) came (N.Link.view answered.link) →
        IsHungUp seal peer came fault (N.view net.old) (N.view net.new)) }
{
    let Answered {
        link,
        frame,
        ours,
        theirs,
    } = answered;
    let mut link = link;
    match take_proof::<N>(&mut link, &theirs) {
        Ok(()) => Ok(SealedLink::over(link, Session::new(frame, (ours, theirs)))),
        Err(fault) => {
            net.hang_up(link);
            Err(fault)
        }
    }
}

/// Greets a host that came. One whose proof is at hand is met, or hung up as one that says no hello of this dealing and these hosts is.
pub(crate) fn greet<N: Net>(
    net: &mut N,
    seal: &mut Seal,
    frame: Frame,
    link: N::Link,
    peer: HostId,
    key: &[u8; 32],
) -> Result<Heard<N::Link>, SealFault>
    requires key { IsKeyFor seal.old.me.0 seal.old.secrets peer.0 key.now }
    requires number { seal.old.tried < u32.MAX }
    requires at_hand { N.at_hand link 68 }
    ensures given { (N.view net.new).given ≡ (N.view net.old).given }
    ensures limit { (N.view net.new).limit ≡ (N.view net.old).limit }
    ensures kept { Tries seal.old seal.new }
    ensures greeted { IfOk result (IsGreeted N.Link.view seal.old seal.new.tried peer.0 (N.Link.view link)) }
    ensures same { IfOk result (λ greeted. N.view net.new ≡ N.view net.old) }
    ensures over { (N.Link.view link).sent ≡ [] → SealsLinks (sealer_of seal.old) (N.view net.old) (N.view net.new) }
    ensures hung_up { IfErr result (λ fault. IsHungUp seal.old peer.0 (N.Link.view link) fault (N.view net.old) (N.view net.new)) }
{
    let mut answered = answer(net, seal, frame, link, peer, key)?;
    if !net.has_come(&mut answered.link, PROOF_BYTES) {
        return Ok(Heard::Waits(answered));
    }
    let link = take_proven(net, answered)?;
    Ok(Heard::Met(link))
}
