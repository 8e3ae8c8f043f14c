ghost use Rattle.std.specs.Prelude.{◌≡◌, ◌<◌, ◌++◌, ◌∷◌, [], false, IfOk, IfSome, OnOk, Some, option_map, slice_get, vec_len};
ghost use Rattle.std.specs.Result.{result_map_both};
ghost use Rattle.vd_edge.specs.Duplex.{link_view};
ghost use Rattle.vd_edge.specs.Net.{net_view};
ghost use Rattle.vd_outside.specs.Net.{Accepts, Connects, Listens, Looks};

use crate::edge_errors::{count_fault, fault_of};
use crate::peer_reason::{peer_reason, with_cause};
use crate::{PeerCall, PeerReason, RealLink, Sockets};
use std::alloc::Global;
use std::io::Error;
use vd_base::CallFault;
use vd_outside::{Link, Net};

/// A net over sockets: its listeners, and how often it has failed.
#[derive(Drop)]
pub struct RealNet<N: Sockets + Drop> {
    sockets: N,
    alloc: Global,
    listeners: Vec<N::Listener>,
    limit: Option<u32>,
    faults: u64,
    reason: Option<PeerReason>,
    sent: u64,
    came: u64,
}

impl<N: Sockets + Drop> RealNet<N> {
    /// A net over these sockets, which gave no listener and has not failed so far.
    pub fn new(sockets: N, alloc: Global) -> RealNet<N>
        ensures none { vec_len result.listeners ≡ 0 }
        ensures faults { result.faults ≡ 0 }
    {
        RealNet {
            sockets,
            alloc,
            listeners: Vec::new(alloc),
            limit: None,
            faults: 0,
            reason: None,
            sent: 0,
            came: 0,
        }
    }

    /// How many packets went out over the links that came back, and how many came.
    pub fn packets(&self) -> (u64, u64)
        ensures { result ≡ (self.now.sent, self.now.came) }
    {
        (self.sent, self.came)
    }

    // Why a call failed.
    fn failed(&self, call: PeerCall, address: Option<&str>, error: &Error) -> Option<PeerReason> {
        peer_reason(self.alloc, self.limit, call, address, error)
    }

    /// Why the last call failed, where one did.
    pub fn reason(&self) -> Option<&PeerReason> {
        self.reason.as_ref()
    }
}

impl<N: Sockets + Drop> Net for RealNet<N> {
    type Link = RealLink<N::Stream>;

    ghost view = { λ net. net_view (vec_len net.listeners) (N.limit net.sockets) net.faults };

    ghost greets = { λ link greeting. N.greets link.stream greeting };

    // Nothing is received any more over a link whose peer was silent for too long.
    ghost at_hand = { λ link count. link.late ≡ false → N.at_hand link.stream count };

    fn faults(&self) -> u64 {
        self.faults
    }

    fn wait_at_most(&mut self, seconds: Option<u32>) {
        self.sockets.wait_at_most(seconds);
        self.limit = seconds;
    }

    fn listen(&mut self, address: &str) -> Result<u32, CallFault>
        requires { vec_len self.old.listeners < u32.MAX }
        ensures listens { Listens address.now (net_view (vec_len self.old.listeners) (N.limit self.old.sockets) self.old.faults)
            (net_view (vec_len self.new.listeners) (N.limit self.new.sockets) self.new.faults) result }
        ensures at_address { OnOk result ((listener : N.Listener) ×
            (self.new.listeners.items ≡ self.old.listeners.items ++ listener ∷ []) × N.listens_at listener address.now) }
    {
        self.listeners.reserve(1)?;
        match self.sockets.listen(address) {
            Ok(listener) => {
                let number = self.listeners.len() as u32;
                self.listeners.push_reserved(listener);
                Ok(number)
            }
            Err(error) => {
                self.reason = self.failed(PeerCall::Listen, Some(address), &error);
                let fault = fault_of(&error);
                count_fault(&mut self.faults, fault);
                Err(fault)
            }
        }
    }

    fn accept(&mut self, listener: u32, greeting: &[u8]) -> Result<RealLink<N::Stream>, CallFault>
        requires { listener < vec_len self.old.listeners }
        ensures accepts { Accepts listener (net_view (vec_len self.old.listeners) (N.limit self.old.sockets) self.old.faults)
            (net_view (vec_len self.new.listeners) (N.limit self.new.sockets) self.new.faults)
            (result_map_both (λ link. link_view (N.Stream.view link.stream) link.ended link.faults) (λ fault. fault) result) }
        ensures came { (asked : N.Listener) → slice_get self.old.listeners.items listener ≡ Some asked →
            IfOk result (λ link. N.came_to link.stream asked) }
        ensures greets { IfOk result (λ link. N.greets link.stream greeting.now) }
    {
        let place = &mut self.listeners[listener as usize];
        match self.sockets.accept(place, greeting) {
            Ok(stream) => Ok(RealLink::new(stream)),
            Err(error) => {
                self.reason = self.failed(PeerCall::Accept, None, &error);
                let fault = fault_of(&error);
                count_fault(&mut self.faults, fault);
                Err(fault)
            }
        }
    }

    fn next_comer(
        &mut self,
        listener: u32,
        front: &[u8],
        count: u32,
    ) -> Result<Option<RealLink<N::Stream>>, CallFault>
        requires { listener < vec_len self.old.listeners }
        ensures looks { Looks listener (net_view (vec_len self.old.listeners) (N.limit self.old.sockets) self.old.faults)
            (net_view (vec_len self.new.listeners) (N.limit self.new.sockets) self.new.faults)
            (result_map_both (option_map (λ link. link_view (N.Stream.view link.stream) link.ended link.faults)) (λ fault. fault) result) }
        ensures came { (asked : N.Listener) → slice_get self.old.listeners.items listener ≡ Some asked →
            IfOk result (λ found. IfSome found (λ link. N.came_to link.stream asked)) }
        ensures at_hand { IfOk result (λ found. IfSome found (λ link. link.late ≡ false → N.at_hand link.stream count)) }
    {
        let place = &mut self.listeners[listener as usize];
        match self.sockets.next_comer(place, front, count) {
            Ok(Some(stream)) => Ok(Some(RealLink::new(stream))),
            Ok(None) => Ok(None),
            Err(error) => {
                self.reason = self.failed(PeerCall::Accept, None, &error);
                let fault = fault_of(&error);
                count_fault(&mut self.faults, fault);
                Err(fault)
            }
        }
    }

    fn has_come(&mut self, link: &mut RealLink<N::Stream>, count: u32) -> bool {
        match self.sockets.has_come(link.stream(), count) {
            Some(true) => true,
            Some(false) => {
                link.give_up();
                true
            }
            None => false,
        }
    }

    fn await_bytes(&mut self, link: &mut RealLink<N::Stream>, count: u32) {
        if !self.sockets.await_bytes(link.stream(), count) {
            link.give_up();
        }
    }

    fn connect(&mut self, address: &str) -> Result<RealLink<N::Stream>, CallFault>
        ensures connects { Connects address.now (net_view (vec_len self.old.listeners) (N.limit self.old.sockets) self.old.faults)
            (net_view (vec_len self.new.listeners) (N.limit self.new.sockets) self.new.faults)
            (result_map_both (λ link. link_view (N.Stream.view link.stream) link.ended link.faults) (λ fault. fault) result) }
        ensures leads { IfOk result (λ link. N.leads_to link.stream address.now) }
    {
        match self.sockets.connect(address) {
            Ok(stream) => Ok(RealLink::new(stream)),
            Err(error) => {
                self.reason = self.failed(PeerCall::Connect, Some(address), &error);
                let fault = fault_of(&error);
                count_fault(&mut self.faults, fault);
                Err(fault)
            }
        }
    }

    fn hang_up(&mut self, link: RealLink<N::Stream>) {
        if let Some(error) = link.last() {
            self.reason = self.failed(PeerCall::Pass, None, &error);
        } else if link.has_ended() && self.reason.is_none() {
            self.reason = with_cause(self.alloc, PeerCall::Pass, None, "closed at its end");
        }
        let (sent, came) = link.packets();
        self.sent = self.sent.saturating_add(sent);
        self.came = self.came.saturating_add(came);
        if link.faults() > 0 {
            self.faults = self.faults.saturating_add(1);
        }
    }
}
