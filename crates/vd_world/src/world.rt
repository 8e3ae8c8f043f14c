//! All hosts.

ghost use Rattle.std.specs.Prelude.{◌≡◌, ◌+◌, ◌<◌, ◌≤◌, IfOk, OnOk, OnErr, length, vec_capacity, true, false, if◌then◌else◌};
ghost use Rattle.vd_execution.specs.States.{host_state};
ghost use Rattle.vd_execution.specs.World.{words_of, IsStuck};
ghost use Rattle.vd_world.specs.Hosts.{world_of, supply_of, turned, can_step, steps_left, stuck_state, Reaches};
ghost use Rattle.vd_world.specs.Hosts.{AreMachines, hosts_at_start};
ghost use Rattle.vd_world.specs.Packets.{counted, packets_of, sent_by};
ghost use Rattle.vd_execution.specs.Claims.{then_all};

use crate::heard::{Turn, heard};
use crate::host::Host;
use std::alloc::{AllocError, Global};
use std::marker::Model;
use vd_base::limits::PACKET_WORDS;
use vd_base::{HostId, HostState};
use vd_machine::{Machine, Want};

fn started(alloc: Global, machines: Vec<Machine>) -> Result<Vec<Host>, AllocError>
    ensures { IfOk result (λ hosts. hosts.items ≡ hosts_at_start machines.items) }
{
    let mut hosts = Vec::new(alloc);
    for machine in machines {
        hosts.push(Host::start(alloc, machine)?)?;
    }
    Ok(hosts)
}

fn either(first: bool, second: bool) -> bool
    ensures { result ≡ (if first then true else second) }
{
    first || second
}

/// How a host stands that cannot step, by what it wants.
fn state_of_want(want: Want) -> HostState
    ensures { result ≡ stuck_state want }
{
    match want {
        Want::Nothing => HostState::Ready,
        Want::Words(peer, _) => HostState::Waiting(peer),
        Want::Ended => HostState::Ended,
        Want::ShortInput(_, _) => HostState::ShortInput,
        Want::ShortDeal(_, _, _) => HostState::ShortDeal,
        Want::Unequal(_, _) => HostState::Ready,
    }
}

/// A sum, as far as 64 bits tell it.
fn plus(a: u64, b: u64) -> u64
    ensures { result ≡ counted (a + b) }
{
    a.saturating_add(b)
}

/// Puts words into a list that has room for them, in the place of what it holds.
fn refill(list: &mut Vec<u32>, words: &[u32])
    requires { length words.now ≤ vec_capacity list.old }
    ensures items { list.new.items ≡ words.now }
    ensures capacity { vec_capacity list.old ≤ vec_capacity list.new }
{
    list.clear();
    for word in words {
        list.push_reserved(*word);
    }
}

/// All hosts, which step one at a time.
#[derive(Drop)]
pub struct World {
    hosts: Vec<Host>,
    /// Room for the words of a packet that is being taken.
    words: Vec<u32>,
}

impl Model for World {
    ghost use Rattle.std.specs.Prelude.{List, length, vec_capacity, ◌≤◌};
    ghost use Rattle.vd_base.specs.Limits.{most_packet_words};
    ghost use Rattle.vd_world.specs.Hosts.{HostKept, AreOf};

    ghost Value = { List HostKept };

    ghost view = { λ w. w.hosts.items };

    ghost invariant = { λ w. AreOf (length w.hosts.items) w.hosts.items × (most_packet_words ≤ vec_capacity w.words) };
}

impl World {
    /// The hosts before their first step. There is one machine for each host, in order, and each is one of so many.
    pub fn start(alloc: Global, machines: Vec<Machine>) -> Result<World, AllocError>
        requires { AreMachines machines.items }
        ensures { IfOk result (λ w. w ≡ hosts_at_start machines.items) }
    {
        let hosts = started(alloc, machines)?;
        let words = Vec::with_capacity(alloc, PACKET_WORDS as usize)?;
        Ok(World { hosts, words })
    }

    /// One step of a host and true, or false and no change where it cannot step. Out of memory changes nothing.
    pub fn step(&mut self, h: HostId) -> Result<bool, AllocError>
        ensures world { OnOk result (world_of self.new ≡ turned self.old h.0) }
        ensures moved { IfOk result (λ b. b ≡ can_step self.old h.0) }
        ensures supply { supply_of self.new ≡ supply_of self.old }
        ensures hosts { length self.new ≡ length self.old }
        ensures memory { OnErr result (self.new ≡ self.old) }
    {
        self.step_at(h.0 as usize)
    }

    fn step_at(&mut self, at: usize) -> Result<bool, AllocError>
        ensures world { OnOk result (world_of self.new ≡ turned self.old at) }
        ensures moved { IfOk result (λ b. b ≡ can_step self.old at) }
        ensures supply { supply_of self.new ≡ supply_of self.old }
        ensures hosts { length self.new ≡ length self.old }
        ensures memory { OnErr result (self.new ≡ self.old) }
    {
        if self.hosts.len() <= at {
            return Ok(false);
        }
        match heard(&self.hosts, at, &self.hosts[at]) {
            Turn::Stuck => Ok(false),
            Turn::Alone => {
                self.hosts[at].go()?;
                Ok(true)
            }
            Turn::Take(peer, words) => {
                refill(&mut self.words, words);
                self.hosts[at].take(peer, &self.words);
                Ok(true)
            }
        }
    }

    /// The steps of a host that nobody sees, as many as follow one another.
    fn run_at(&mut self, at: usize)
        ensures supply { supply_of self.new ≡ supply_of self.old }
        ensures hosts { length self.new ≡ length self.old }
        ensures reached { Reaches (supply_of self.old) (world_of self.old) (world_of self.new) }
        ensures no_more { steps_left self.new ≤ steps_left self.old }
    {
        if self.hosts.len() <= at {
            return;
        }
        self.hosts[at].run();
    }

    /// A step of a host, and those behind it that nobody sees. Answers whether there was one.
    fn go_on_at(&mut self, at: usize) -> Result<bool, AllocError>
        ensures supply { supply_of self.new ≡ supply_of self.old }
        ensures hosts { length self.new ≡ length self.old }
        ensures reached { Reaches (supply_of self.old) (world_of self.old) (world_of self.new) }
        ensures falls { IfOk result (λ b. b ≡ true → steps_left self.new < steps_left self.old) }
        ensures still { IfOk result (λ b. b ≡ false → world_of self.new ≡ world_of self.old) }
        ensures stuck { IfOk result (λ b. b ≡ false → can_step self.old at ≡ false) }
    {
        let stepped = self.step_at(at)?;
        if !stepped {
            return Ok(false);
        }
        self.run_at(at);
        Ok(true)
    }

    /// The steps of a host, until it cannot step. Answers whether there were any.
    fn run_out_at(&mut self, at: usize) -> Result<bool, AllocError>
        ensures supply { supply_of self.new ≡ supply_of self.old }
        ensures hosts { length self.new ≡ length self.old }
        ensures reached { Reaches (supply_of self.old) (world_of self.old) (world_of self.new) }
        ensures falls { IfOk result (λ b. b ≡ true → steps_left self.new < steps_left self.old) }
        ensures still { IfOk result (λ b. b ≡ false → world_of self.new ≡ world_of self.old) }
        ensures stuck { IfOk result (λ b. b ≡ false → can_step self.old at ≡ false) }
    {
        let mut went = false;
        loop {
            let more = self.go_on_at(at)?;
            if !more {
                return Ok(went);
            }
            went = true;
        }
    }

    fn count(&self) -> usize
        ensures { result ≡ length self.now }
    {
        self.hosts.len()
    }

    /// Each host in order goes on until it cannot step. Answers whether any could step.
    fn round(&mut self) -> Result<bool, AllocError>
        ensures supply { supply_of self.new ≡ supply_of self.old }
        ensures hosts { length self.new ≡ length self.old }
        ensures reached { Reaches (supply_of self.old) (world_of self.old) (world_of self.new) }
        ensures falls { IfOk result (λ b. b ≡ true → steps_left self.new < steps_left self.old) }
        ensures stuck { IfOk result (λ b. b ≡ false → IsStuck (supply_of self.old) (world_of self.new)) }
    {
        let mut moved = false;
        let count = self.count();
        for at in 0..count {
            let went = self.run_out_at(at)?;
            moved = either(went, moved);
        }
        Ok(moved)
    }

    /// Rounds over the hosts in order, until none can step. After memory ran out the world is one that some steps reach.
    pub fn run_all(&mut self) -> Result<(), AllocError>
        ensures all { OnOk result (world_of self.new ≡ then_all (supply_of self.old) (length self.old) (world_of self.old)) }
        ensures reached { Reaches (supply_of self.old) (world_of self.old) (world_of self.new) }
        ensures supply { supply_of self.new ≡ supply_of self.old }
        ensures hosts { length self.new ≡ length self.old }
    {
        loop {
            let moved = self.round()?;
            if !moved {
                return Ok(());
            }
        }
    }

    /// How a host stands.
    pub fn state(&self, h: HostId) -> HostState
        ensures { result ≡ host_state (supply_of self.now) (world_of self.now) h.0 }
    {
        let at = h.0 as usize;
        if self.hosts.len() <= at {
            return HostState::Ended;
        }
        let host = &self.hosts[at];
        match heard(&self.hosts, at, host) {
            Turn::Alone => HostState::Ready,
            Turn::Take(_, _) => HostState::Ready,
            Turn::Stuck => state_of_want(host.want()),
        }
    }

    /// The words that a host has printed.
    pub fn printed(&self, h: HostId) -> &[u32]
        ensures { result.now ≡ (world_of self.now h.0).printed }
    {
        match self.hosts.get(h.0 as usize) {
            Some(host) => host.printed(),
            None => &[],
        }
    }

    /// All words that a host has sent to another.
    pub fn talk(&self, from: HostId, to: HostId) -> &[u32]
        ensures { result.now ≡ words_of ((world_of self.now from.0).sent to.0) }
    {
        match self.hosts.get(from.0 as usize) {
            Some(host) => host.words_to(to.0 as usize),
            None => &[],
        }
    }

    /// How many packets a host sent to another.
    fn packets_between(&self, from: usize, to: usize) -> usize
        ensures { result ≡ length ((world_of self.now from).sent to) }
    {
        match self.hosts.get(from) {
            Some(host) => host.packets_to(to),
            None => 0,
        }
    }

    /// How many packets a host sent.
    fn packets_from(&self, from: usize) -> u64
        ensures { result ≡ counted (sent_by (world_of self.now) (length self.now) from) }
    {
        let mut packets: u64 = 0;
        let hosts = self.count();
        for to in 0..hosts {
            packets = plus(packets, self.packets_between(from, to) as u64);
        }
        packets
    }

    /// How many packets the hosts have sent to one another since they started, up to the greatest number of 64 bits.
    pub fn packets_sent(&self) -> u64
        ensures { result ≡ counted (packets_of (world_of self.now) (length self.now)) }
    {
        let mut packets: u64 = 0;
        let hosts = self.count();
        for from in 0..hosts {
            packets = plus(packets, self.packets_from(from));
        }
        packets
    }
}
