//! One host of a world.

ghost use Rattle.std.specs.Prelude.{◌≡◌, ℕ, List, ◌<◌, length, replicate, [], OnOk, OnErr, IfOk, IfSome, slice_get, slice_index, ◌+◌, ◌^◌};
ghost use Rattle.vd_execution.specs.Step.{State, deed};
ghost use Rattle.vd_execution.specs.World.{done, words_of};
ghost use Rattle.vd_machine.specs.Kept.{state_of};
ghost use Rattle.vd_machine.specs.Wants.{wanted, IsFromHost};
ghost use Rattle.vd_machine.specs.Quietly.{Quietly};
ghost use Rattle.vd_world.specs.Hears.{IsTaken};
ghost use Rattle.vd_world.specs.Links.{IsPlace};
ghost use Rattle.vd_world.specs.Hosts.{local, local_of, gone_on, gone_unseen, noted, host_at_start};

use crate::link::Link;
use std::alloc::{AllocError, Global};
use std::marker::Model;
use vd_base::HostId;
use vd_machine::{Machine, Outgoing, Want};

/// A host: its machine, what it printed, what it sent to each host, and how many packets it took from each.
#[derive(Drop)]
pub(crate) struct Host {
    machine: Machine,
    printed: Vec<u32>,
    links: Vec<Link>,
    taken: Vec<usize>,
}

impl Model for Host {
    ghost use Rattle.std.specs.Prelude.{◌≡◌, length};
    ghost use Rattle.vd_world.specs.Hosts.{HostKept};

    ghost Value = { HostKept };

    ghost view = { λ h. record { machine = h.machine; printed = h.printed.items; links = h.links.items; taken = h.taken.items } };

    ghost invariant = { λ h. (length h.links.items ≡ h.machine.lists.deal.hosts) × (length h.taken.items ≡ h.machine.lists.deal.hosts) };
}

fn no_links(alloc: Global, hosts: usize) -> Result<Vec<Link>, AllocError>
    ensures { IfOk result (λ links. links.items ≡ replicate hosts []) }
{
    let mut links = Vec::new(alloc);
    let mut i = 0;
    while i < hosts {
        links.push(Link::new(alloc))?;
        i += 1;
    }
    Ok(links)
}

fn none_taken(alloc: Global, hosts: usize) -> Result<Vec<usize>, AllocError>
    ensures { IfOk result (λ taken. taken.items ≡ replicate hosts 0) }
{
    vec![in alloc; 0usize; hosts]
}

/// Keeps what the next step of a machine will show, which waits for nothing. Out of memory changes nothing.
fn note(machine: &Machine, printed: &mut Vec<u32>, links: &mut Vec<Link>) -> Result<(), AllocError>
    requires waits { Want.Nothing ≡ wanted machine.now }
    requires links { length links.old.items ≡ machine.now.lists.deal.hosts }
    ensures ok { (m : State) (taken : List ℕ) → OnOk result (local m printed.new.items links.new.items taken
        ≡ noted machine.now printed.old.items links.old.items taken m) }
    ensures printed { OnErr result (printed.new.items ≡ printed.old.items) }
    ensures links { OnErr result (links.new.items ≡ links.old.items) }
    ensures links_len { length links.new.items ≡ length links.old.items }
{
    match machine.outgoing() {
        Outgoing::Quiet => {}
        Outgoing::Say(peer, from) => {
            links[peer.0 as usize].send_registers(machine.registers(), from)?
        }
        Outgoing::Print(word) => printed.push(word)?,
    }
    Ok(())
}

impl Host {
    /// A host before its first step.
    pub fn start(alloc: Global, machine: Machine) -> Result<Host, AllocError>
        ensures { IfOk result (λ h. h ≡ host_at_start machine) }
    {
        let hosts = machine.hosts() as usize;
        let links = no_links(alloc, hosts)?;
        let taken = none_taken(alloc, hosts)?;
        Ok(Host {
            machine,
            printed: Vec::new(alloc),
            links,
            taken,
        })
    }

    /// What its next instruction needs.
    pub fn want(&self) -> Want
        ensures host { IsFromHost self.now.machine.lists.deal.hosts result }
        ensures need { result ≡ wanted self.now.machine }
    {
        self.machine.want()
    }

    /// How many packets it took from a host.
    pub(crate) fn taken_from(&self, peer: usize) -> usize
        ensures { result ≡ slice_index self.now.taken peer }
    {
        match self.taken.get(peer) {
            Some(count) => *count,
            None => 0,
        }
    }

    /// A packet that it sent to a host, by its place among those, if it sent so many.
    pub(crate) fn packet_to(&self, peer: usize, place: usize) -> Option<&[u32]>
        ensures packet { IsPlace result (slice_get ((local_of self.now).sent peer) place) }
        ensures room { IfSome result (λ _. place + 1 < 2 ^ 64) }
    {
        match self.links.get(peer) {
            Some(link) => link.packet(place),
            None => None,
        }
    }

    /// How many packets it sent to a host.
    pub(crate) fn packets_to(&self, peer: usize) -> usize
        ensures { result ≡ length ((local_of self.now).sent peer) }
    {
        match self.links.get(peer) {
            Some(link) => link.count(),
            None => 0,
        }
    }

    /// All words that it sent to a host.
    pub(crate) fn words_to(&self, peer: usize) -> &[u32]
        ensures { result.now ≡ words_of ((local_of self.now).sent peer) }
    {
        match self.links.get(peer) {
            Some(link) => link.words(),
            None => &[],
        }
    }

    /// What it printed.
    pub fn printed(&self) -> &[u32]
        ensures { result.now ≡ self.now.printed }
    {
        &self.printed
    }

    /// Steps on as long as it waits for nothing and nobody sees what it does.
    pub fn run(&mut self)
        ensures steps { Quietly self.old.machine.lists (state_of self.old.machine) (state_of self.new.machine) }
        ensures lists { self.new.machine.lists ≡ self.old.machine.lists }
        ensures rest { self.new ≡ gone_unseen self.old self.new.machine }
    {
        self.machine.run();
    }

    /// One step that waits for nothing. Out of memory changes nothing.
    pub(crate) fn go(&mut self) -> Result<(), AllocError>
        requires { Want.Nothing ≡ wanted self.old.machine }
        ensures ok { OnOk result (local_of self.new ≡ gone_on self.old []) }
        ensures lists { self.new.machine.lists ≡ self.old.machine.lists }
        ensures err { OnErr result (self.new ≡ self.old) }
    {
        note(&self.machine, &mut self.printed, &mut self.links)?;
        self.machine.advance(&[]);
        Ok(())
    }

    /// The step that takes a packet of these words from a peer.
    pub fn take(&mut self, peer: HostId, words: &[u32])
        requires waits { Want.Words peer (length words.now) ≡ wanted self.old.machine }
        requires taken { IsTaken self.old peer.0 words.now }
        ensures state { local_of self.new ≡ gone_on self.old words.now }
        ensures lists { self.new.machine.lists ≡ self.old.machine.lists }
    {
        self.taken[peer.0 as usize] += 1;
        self.machine.advance(words);
    }
}
