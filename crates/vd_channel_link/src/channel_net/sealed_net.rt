//! A net whose links are sealed.

ghost use Rattle.std.specs.Prelude.{◌≡◌, ◌<◌, ◌≤◌, ◌+◌, ⊤, [], None, Some};
ghost use Rattle.std.specs.Prelude.{IfErr, IfOk, IfSome, OnOk, OnErr, MatchOption};
ghost use Rattle.std.specs.Option.{option_map};
ghost use Rattle.std.specs.Result.{result_map_both};
ghost use Rattle.vd_base.specs.declared.faults.CallFault.TheVariants as call_fault;
ghost use Rattle.vd_outside.specs.Causes.{Rose};
ghost use Rattle.vd_outside.specs.Link.{LinkView};
ghost use Rattle.vd_outside.specs.Net.{Accepts, Connects, HangsUp, Listens, Looks};
ghost use Rattle.vd_channel_link.specs.Outgoing.{SealsLinks, SealsSession, sealer_of};
ghost use Rattle.vd_channel_link.specs.Ledgers.{has_begun, has_sent, nothing_given, with_given, with_returned};
ghost use Rattle.vd_channel_link.specs.Seals.{IsKeyFor, IsKeyless, IsLeft, IsMet, IsMetBy, StillSeals, Tries};
ghost use Rattle.vd_channel_link.specs.Seals.{awaited_at, listening, next_asked, sealed_by};
ghost use Rattle.vd_channel_link.specs.Views.{sealing};
ghost use Rattle.vd_channel_link.specs.Waits.{ComesAfter, GivesUp, IsNotReached, post_of};

use crate::channel_handshake::ask;
use crate::channel_net::accepting::accept_sealed;
use crate::channel_net::ledger::Ledger;
use crate::channel_net::seal::Seal;
use crate::{SealFault, SealedLink, Session};
use std::alloc::Global;
use vd_base::{CallFault, HostId};
use vd_channel_crypto::{Frame, Secrets};
use vd_outside::{Link, Net};

/// A net that owns another. Once it is told what to seal by it gives links to hosts that proved that they have the link's key, and
/// hangs up all others; before, it gives none.
#[derive(Drop)]
pub struct SealedNet<N: Net + Drop> {
    alloc: Global,
    /// The net below, whose links are as they are.
    pub net: N,
    pub seal: Option<Seal>,
    /// The links that were given. It is kept when the net is told to seal by something else.
    ledger: Ledger,
    pub faults: u64,
    /// Why a peer was last hung up, or a link took nothing any more.
    fault: Option<SealFault>,
}

/// Counts a fault.
fn count(faults: &mut u64)
    ensures later { faults.old ≤ faults.new }
    ensures rose { Rose faults.old faults.new }
{
    *faults = faults.saturating_add(1);
}

/// Counts a fault of the outside, where this is one.
fn count_fault(faults: &mut u64, fault: CallFault)
    ensures later { faults.old ≤ faults.new }
    ensures rose { fault ≡ call_fault.Failed → Rose faults.old faults.new }
{
    if let CallFault::Failed = fault {
        count(faults);
    }
}

impl<N: Net + Drop> SealedNet<N> {
    /// A net over this one, which is told nothing so far.
    pub fn new(alloc: Global, net: N) -> SealedNet<N>
        ensures net { result.net ≡ net }
        ensures untold { result.seal ≡ None }
        ensures nothing { result.ledger ≡ nothing_given }
        ensures faults { result.faults ≡ 0 }
    {
        SealedNet {
            alloc,
            net,
            seal: None,
            ledger: Ledger::new(),
            faults: 0,
            fault: None,
        }
    }

    /// Tells what to seal by: what the host with this number knows of its dealing, and 32 bytes that were drawn for this run. Asked
    /// before any listen, accept or connect.
    pub fn seal(&mut self, me: HostId, secrets: Secrets, seed: [u8; 32])
        ensures net { self.new.net ≡ self.old.net }
        ensures sealed { self.new.seal ≡ Some (sealed_by me secrets seed) }
        ensures ledger { self.new.ledger ≡ self.old.ledger }
        ensures faults { self.new.faults ≡ self.old.faults }
    {
        self.seal = Some(Seal::new(me, secrets, seed));
    }

    /// Whether more than greetings may have gone out: a link that was given is out, or one came back over which a record behind the
    /// greeting was begun.
    pub fn has_sent(&self) -> bool
        ensures { result ≡ has_sent self.now.ledger }
    {
        self.ledger.has_sent()
    }

    /// Why a peer was last hung up, or a link took nothing any more, where that is known.
    pub fn fault(&self) -> Option<SealFault>
        ensures { result ≡ self.now.fault }
    {
        self.fault
    }
}

/// Meets an earlier host over a link to it, by the key of theirs. One over which it was not met is hung up.
fn meet_over<N: Net>(
    net: &mut N,
    seal: &mut Seal,
    frame: Frame,
    link: N::Link,
    peer: HostId,
    key: &[u8; 32],
) -> Result<SealedLink<N::Link>, SealFault>
    requires key { IsKeyFor seal.old.me.0 seal.old.secrets peer.0 key.now }
    requires number { seal.old.tried < u32.MAX }
    ensures given { (N.view net.new).given ≡ (N.view net.old).given }
    ensures limit { (N.view net.new).limit ≡ (N.view net.old).limit }
    ensures kept { Tries seal.old seal.new }
    ensures counted { seal.new.tried ≡ seal.old.tried + 1 }
    ensures fresh { IfOk result (λ link. link.session.faults ≡ 0) }
    ensures met { IfOk result
        (λ given. IsMet seal.old seal.new.tried peer.0 given.session (N.Link.view link) (N.Link.view given.link)) }
    ensures over { (N.Link.view link).sent ≡ [] → SealsLinks (sealer_of seal.old) (N.view net.old) (N.view net.new) }
    ensures same { IfOk result (λ link. N.view net.new ≡ N.view net.old) }
    ensures left { IfErr result (λ fault. (left : LinkView) × IsLeft seal.old peer.0 (N.Link.view link) left fault
        × HangsUp left (N.view net.old) (N.view net.new)) }
{
    let mut link = link;
    let mut frame = frame;
    let hello = seal.next_hello(peer);
    match ask(net, &mut link, &mut frame, &hello, key) {
        Ok(keys) => Ok(SealedLink::over(link, Session::new(frame, keys))),
        Err(fault) => {
            net.hang_up(link);
            Err(fault)
        }
    }
}

/// A link to an earlier host, which proves who it is. Why it did not is noted. Once all numbers of connections are used none is asked for.
fn connect_sealed<N: Net>(
    alloc: Global,
    net: &mut N,
    seal: &mut Seal,
    noted: &mut Option<SealFault>,
    address: &str,
) -> Result<SealedLink<N::Link>, CallFault>
    ensures given { (N.view net.new).given ≡ (N.view net.old).given }
    ensures limit { (N.view net.new).limit ≡ (N.view net.old).limit }
    ensures kept { Tries (next_asked seal.old) seal.new }
    ensures fresh { IfOk result (λ link. link.session.faults ≡ 0) }
    ensures met { IfOk result (λ link. (came : LinkView) ×
        IsMet seal.old seal.new.tried seal.old.connected link.session came (N.Link.view link.link)) }
    ensures over { SealsLinks (sealer_of seal.old) (N.view net.old) (N.view net.new) }
    ensures sealed { IfOk result (λ link. SealsSession (sealer_of seal.old) (N.view net.old) link.session (N.Link.view link.link)) }
    ensures gives_up { IfErr result (IsNotReached seal.old address.now (N.view net.old) (N.view net.new)) }
{
    let peer = seal.next_earlier();
    let Some(key) = seal.key_of(peer) else {
        return Err(CallFault::Failed);
    };
    if seal.tried() == u32::MAX {
        return Err(CallFault::Failed);
    }
    let frame = Frame::new(alloc)?;
    let link = net.connect(address)?;
    match meet_over(net, seal, frame, link, peer, &key) {
        Ok(link) => Ok(link),
        Err(fault) => {
            *noted = Some(fault);
            Err(CallFault::Failed)
        }
    }
}

impl<N: Net + Drop> Net for SealedNet<N> {
    type Link = SealedLink<N::Link>;

    ghost use Rattle.std.specs.Prelude.{⊤};
    ghost use Rattle.vd_channel_link.specs.Views.{sealing};

    ghost view = { λ net. sealing (N.view net.net) net.faults };

    // Who a peer is, is known by its proof.
    ghost greets = { λ link greeting. ⊤ };

    ghost at_hand = { λ link count. ⊤ };

    fn faults(&self) -> u64 {
        self.faults
    }

    fn wait_at_most(&mut self, seconds: Option<u32>)
        ensures limited { sealing (N.view self.new.net) self.new.faults ≡
            record (sealing (N.view self.old.net) self.old.faults) { limit = seconds } }
        ensures below { N.view self.new.net ≡ record (N.view self.old.net) { limit = seconds } }
        ensures seal { self.new.seal ≡ self.old.seal }
        ensures ledger { self.new.ledger ≡ self.old.ledger }
    {
        self.net.wait_at_most(seconds);
    }

    fn listen(&mut self, address: &str) -> Result<u32, CallFault>
        requires { (N.view self.old.net).given < u32.MAX }
        ensures listens { Listens address.now
            (sealing (N.view self.old.net) self.old.faults)
            (sealing (N.view self.new.net) self.new.faults) result }
        ensures below { Listens address.now (N.view self.old.net) (N.view self.new.net) result }
        ensures first { IfOk result (λ listener. self.new.seal ≡ option_map (listening listener) self.old.seal) }
        ensures none { OnErr result (self.new.seal ≡ self.old.seal) }
        ensures ledger { self.new.ledger ≡ self.old.ledger }
    {
        match self.net.listen(address) {
            Ok(listener) => {
                if let Some(seal) = &mut self.seal {
                    seal.listened(listener);
                }
                Ok(listener)
            }
            Err(fault) => {
                count_fault(&mut self.faults, fault);
                Err(fault)
            }
        }
    }

    fn accept(&mut self, listener: u32, _greeting: &[u8]) -> Result<SealedLink<N::Link>, CallFault>
        requires { listener < (N.view self.old.net).given }
        ensures accepts { Accepts listener
            (sealing (N.view self.old.net) self.old.faults)
            (sealing (N.view self.new.net) self.new.faults)
            (result_map_both ⟦<SealedLink<N::Link> as Link>⟧.view (λ fault. fault) result) }
        ensures met { IfOk result
            (λ link. IsMetBy (λ seal. awaited_at seal listener) self.old.seal self.new.seal link.session (N.Link.view link.link)) }
        ensures over { IfSome self.old.seal (λ seal. SealsLinks (sealer_of seal) (N.view self.old.net) (N.view self.new.net)) }
        ensures sealed { IfSome self.old.seal (λ seal. IfOk result
            (λ link. SealsSession (sealer_of seal) (N.view self.old.net) link.session (N.Link.view link.link))) }
        ensures kept { StillSeals self.old.seal self.new.seal }
        ensures comes { MatchOption self.old.seal ⊤ (λ seal. OnOk result
            (ComesAfter (post_of seal listener) (N.view self.old.net) (N.view self.new.net))) }
        ensures gives_up { MatchOption self.old.seal ⊤ (λ seal. MatchOption self.new.seal ⊤ (λ later. IfErr result
            (GivesUp (post_of seal listener) (IsKeyless seal (awaited_at seal listener)) later.tried
            (N.view self.old.net) (N.view self.new.net)))) }
        ensures ledger { OnOk result (self.new.ledger ≡ with_given self.old.ledger) }
        ensures none { OnErr result (self.new.ledger ≡ self.old.ledger) }
    {
        let Some(seal) = &mut self.seal else {
            count(&mut self.faults);
            return Err(CallFault::Failed);
        };
        match accept_sealed(self.alloc, &mut self.net, seal, &mut self.fault, listener) {
            Ok(link) => {
                self.ledger.gives();
                Ok(link)
            }
            Err(fault) => {
                count_fault(&mut self.faults, fault);
                Err(fault)
            }
        }
    }

    // A link is given when its peer has proved who it is.
    fn next_comer(
        &mut self,
        listener: u32,
        front: &[u8],
        _count: u32,
    ) -> Result<Option<SealedLink<N::Link>>, CallFault>
        requires { listener < (N.view self.old.net).given }
        ensures looks { Looks listener
            (sealing (N.view self.old.net) self.old.faults)
            (sealing (N.view self.new.net) self.new.faults)
            (result_map_both (option_map ⟦<SealedLink<N::Link> as Link>⟧.view) (λ fault. fault) result) }
    {
        match self.accept(listener, front) {
            Ok(link) => Ok(Some(link)),
            Err(fault) => Err(fault),
        }
    }

    fn has_come(&mut self, _link: &mut SealedLink<N::Link>, _count: u32) -> bool {
        true
    }

    fn await_bytes(&mut self, _link: &mut SealedLink<N::Link>, _count: u32) {}

    fn connect(&mut self, address: &str) -> Result<SealedLink<N::Link>, CallFault>
        ensures connects { Connects address.now
            (sealing (N.view self.old.net) self.old.faults)
            (sealing (N.view self.new.net) self.new.faults)
            (result_map_both ⟦<SealedLink<N::Link> as Link>⟧.view (λ fault. fault) result) }
        ensures met { IfOk result
            (λ link. IsMetBy (λ seal. seal.connected) self.old.seal self.new.seal link.session (N.Link.view link.link)) }
        ensures over { IfSome self.old.seal (λ seal. SealsLinks (sealer_of seal) (N.view self.old.net) (N.view self.new.net)) }
        ensures sealed { IfSome self.old.seal (λ seal. IfOk result
            (λ link. SealsSession (sealer_of seal) (N.view self.old.net) link.session (N.Link.view link.link))) }
        ensures kept { StillSeals (option_map next_asked self.old.seal) self.new.seal }
        ensures gives_up { MatchOption self.old.seal ⊤ (λ seal. IfErr result
            (IsNotReached seal address.now (N.view self.old.net) (N.view self.new.net))) }
        ensures ledger { OnOk result (self.new.ledger ≡ with_given self.old.ledger) }
        ensures none { OnErr result (self.new.ledger ≡ self.old.ledger) }
    {
        let Some(seal) = &mut self.seal else {
            count(&mut self.faults);
            return Err(CallFault::Failed);
        };
        match connect_sealed(self.alloc, &mut self.net, seal, &mut self.fault, address) {
            Ok(link) => {
                self.ledger.gives();
                Ok(link)
            }
            Err(fault) => {
                count_fault(&mut self.faults, fault);
                Err(fault)
            }
        }
    }

    fn hang_up(&mut self, link: SealedLink<N::Link>)
        ensures hangs_up { HangsUp (⟦<SealedLink<N::Link> as Link>⟧.view link)
            (sealing (N.view self.old.net) self.old.faults)
            (sealing (N.view self.new.net) self.new.faults) }
        ensures below { HangsUp (N.Link.view link.link) (N.view self.old.net) (N.view self.new.net) }
        ensures ledger { self.new.ledger ≡ with_returned (has_begun link.session) self.old.ledger }
        ensures seal { self.new.seal ≡ self.old.seal }
    {
        let failed = link.faults() > 0;
        let sent = link.has_sent();
        if let Some(fault) = link.fault() {
            self.fault = Some(fault);
        }
        self.ledger.takes_back(sent);
        self.net.hang_up(link.into_link());
        if failed {
            count(&mut self.faults);
        }
    }
}
