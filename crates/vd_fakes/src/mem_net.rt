ghost use Rattle.std.specs.Prelude.{◌≡◌, ◌<◌, ⊤, [], ◌∷◌, ◌++◌, length, option_map, slice_get, Some, IfOk, OnOk, OnErr};
ghost use Rattle.std.specs.Result.{result_map_both};
ghost use Rattle.vd_outside.specs.Net.{Accepts, Connects, HangsUp, Listens, Looks};
ghost use Rattle.vd_outside.specs.declared.net.NetCall.TheVariants.{Connect};
ghost use Rattle.vd_fakes.specs.MemLink.{limited_link_view};
ghost use Rattle.vd_fakes.specs.MemNet.{AcceptsNext, Gives, GivesNext, ListensNext, after_hang_up, listed_net_view, no_links, told_link};

use crate::waiting::take_link;
use crate::{Failures, MemLink};
use std::alloc::{AllocError, Global};
use std::marker::Model;
use vd_base::{CallFault, Items, Text};
use vd_outside::{Link, Net, NetCall};

/// A net in memory that gives the links that it holds, each at its address in their order. It fails where none is left
/// there, and at the calls whose numbers it is given; links that come back have no number.
#[derive(Drop)]
pub struct MemNet {
    alloc: Global,
    limit: Option<u32>,
    listeners: Items<Text>,
    waiting: Items<(Text, MemLink)>,
    links: usize,
    back: Vec<MemLink>,
    asked: Items<NetCall>,
    failures: Failures,
}

impl Model for MemNet {
    ghost use Rattle.std.specs.Prelude.{◌≤◌, vec_capacity};
    ghost use Rattle.vd_fakes.specs.MemNet.{MemNetState, AreFresh};

    ghost Value = { MemNetState };

    ghost view = { λ net. record {
      limit = net.limit;
      listeners = net.listeners;
      waiting = net.waiting;
      links = net.links;
      back = net.back.items;
      asked = net.asked;
      failures = net.failures;
    } };

    ghost invariant = { λ net. (net.links ≤ vec_capacity net.back) × AreFresh net.waiting };
}

impl MemNet {
    /// A net that holds no link, and fails at the calls with these numbers.
    pub fn new(alloc: Global, failing: Items<u64>) -> MemNet
        ensures { result ≡ no_links failing }
    {
        MemNet {
            alloc,
            limit: None,
            listeners: Items::new(alloc),
            waiting: Items::new(alloc),
            links: 0,
            back: Vec::new(alloc),
            asked: Items::new(alloc),
            failures: Failures::new(failing),
        }
    }

    /// Puts a link that has not failed behind those that wait at an address.
    #[tactic(auto, using(crate::proofs::Fresh::one_more))]
    pub fn add(&mut self, address: &str, link: MemLink) -> Result<(), AllocError>
        requires { link.failures.faults ≡ 0 }
        ensures ok { OnOk result (self.new ≡ record self.old { waiting = self.old.waiting ++ (address.now, link) ∷ [] }) }
        ensures err { OnErr result (self.new ≡ self.old) }
    {
        let address = Text::copy_of(self.alloc, address)?;
        self.waiting.push((address, link))
    }

    /// The links that came back.
    pub fn back(&self) -> &[MemLink]
        ensures { result.now ≡ self.now.back }
    {
        self.back.as_slice()
    }

    /// The calls that were asked.
    pub fn asked(&self) -> &[NetCall]
        ensures { result.now ≡ self.now.asked }
    {
        self.asked.as_slice()
    }

    // A copy of the address of a listener.
    fn address_of(&self, listener: u32) -> Result<Text, AllocError>
        requires { listener < length self.now.listeners }
        ensures { IfOk result (λ address. slice_get self.now.listeners listener ≡ Some address) }
    {
        let address = self.listeners.as_slice()[listener as usize].as_str();
        Text::copy_of(self.alloc, address)
    }

    // Notes a call, and gives a link at an address, with a place for its return.
    #[tactic(auto, using(crate::proofs::Fresh::others, crate::proofs::Fresh::given, crate::proofs::Fresh::none_left))]
    fn give(&mut self, address: &str, call: NetCall, fails: bool) -> Result<MemLink, CallFault>
        ensures { Gives address.now call fails self.old self.new result }
    {
        let links = self.links + 1;
        self.back.reserve(links.saturating_sub(self.back.len()))?;
        self.asked.push(call)?;
        if fails {
            self.failures.count_fault();
            return Err(CallFault::Failed);
        }
        match take_link(&mut self.waiting, address) {
            Some(link) => {
                self.links = links;
                Ok(link)
            }
            None => {
                self.failures.count_fault();
                Err(CallFault::Failed)
            }
        }
    }
}

impl Net for MemNet {
    type Link = MemLink;

    ghost view = { listed_net_view };

    ghost greets = { λ link greeting. ⊤ };

    ghost at_hand = { λ link count. ⊤ };

    fn faults(&self) -> u64 {
        self.failures.faults
    }

    fn wait_at_most(&mut self, seconds: Option<u32>)
        ensures limited { listed_net_view self.new ≡ record (listed_net_view self.old) { limit = seconds } }
        ensures state { self.new ≡ record self.old { limit = seconds } }
    {
        self.limit = seconds;
    }

    fn listen(&mut self, address: &str) -> Result<u32, CallFault>
        requires { (listed_net_view self.old).given < u32.MAX }
        ensures listen { Listens address.now (listed_net_view self.old) (listed_net_view self.new) result }
        ensures state { ListensNext address.now self.old self.new result }
    {
        let fails = self.failures.next_fails();
        let call = NetCall::Listen(Text::copy_of(self.alloc, address)?);
        let listener = Text::copy_of(self.alloc, address)?;
        if fails {
            self.asked.push(call)?;
            self.failures.count_fault();
            return Err(CallFault::Failed);
        }
        let number = self.listeners.len() as u32;
        self.listeners.push(listener)?;
        if let Err(error) = self.asked.push(call) {
            self.listeners.pop();
            return Err(error.into());
        }
        Ok(number)
    }

    fn accept(&mut self, listener: u32, _greeting: &[u8]) -> Result<MemLink, CallFault>
        requires { listener < (listed_net_view self.old).given }
        ensures accept { Accepts listener (listed_net_view self.old) (listed_net_view self.new) (told_link result) }
        ensures state { AcceptsNext listener self.old self.new result }
    {
        let fails = self.failures.next_fails();
        let address = self.address_of(listener)?;
        self.give(address.as_str(), NetCall::Accept(listener), fails)
    }

    // All that will come over a link is there from the first.
    fn next_comer(
        &mut self,
        listener: u32,
        front: &[u8],
        _count: u32,
    ) -> Result<Option<MemLink>, CallFault>
        requires { listener < (listed_net_view self.old).given }
        ensures looks { Looks listener (listed_net_view self.old) (listed_net_view self.new)
            (result_map_both (option_map limited_link_view) (λ fault. fault) result) }
    {
        match self.accept(listener, front) {
            Ok(link) => Ok(Some(link)),
            Err(fault) => Err(fault),
        }
    }

    fn has_come(&mut self, _link: &mut MemLink, _count: u32) -> bool {
        true
    }

    fn await_bytes(&mut self, _link: &mut MemLink, _count: u32) {}

    fn connect(&mut self, address: &str) -> Result<MemLink, CallFault>
        ensures connect { Connects address.now (listed_net_view self.old) (listed_net_view self.new) (told_link result) }
        ensures state { GivesNext address.now (Connect address.now) self.old self.new result }
    {
        let fails = self.failures.next_fails();
        let call = NetCall::Connect(Text::copy_of(self.alloc, address)?);
        self.give(address, call, fails)
    }

    fn hang_up(&mut self, link: MemLink)
        ensures hang_up { HangsUp (limited_link_view link) (listed_net_view self.old) (listed_net_view self.new) }
        ensures state { self.new ≡ after_hang_up link self.old }
    {
        if link.faults() > 0 {
            self.failures.count_fault();
        }
        if self.back.len() < self.links {
            self.back.push_reserved(link);
        }
    }
}
