//! All hosts in one run.

ghost use Rattle.std.specs.Prelude.{◌≡◌, ◌<◌, ◌≤◌, OnOk, IfOk, length, slice_index, slice_index_or, slice_set, take};
ghost use Rattle.vd_excuse_runs.specs.Sides.{changed, counted, empty_side, has_heard, performed, said_words, shared_bits, shared_pair, shared_triple, with_bits, with_pair, with_triple};
ghost use Rattle.vd_excuse_runs.specs.Runs.{acted, begun, is_other, next_begun, nobody, put_side, side_at, stood, told};
ghost use Rattle.vd_excuse_runs.specs.declared.side.Side.{Side as HostSide};

use crate::side::{Change, Side, Taken};
use std::alloc::{AllocError, Global};
use std::marker::Model;
use vd_base::{HostId, Items, Words};
use vd_execution::{Act, Action, Reg};
use vd_tape::{PairItem, Triple};

/// All hosts in one run, by their numbers. One that did not act yet has no registers and no lists.
#[derive(Drop)]
pub struct Run {
    alloc: Global,
    sides: Vec<Side>,
}

impl Model for Run {
    ghost use Rattle.std.specs.Prelude.{List};
    ghost use Rattle.vd_excuse_runs.specs.declared.side.Side.{Side};

    ghost Value = { List Side };

    ghost view = { λ run. run.sides.items };
}

/// The host is there from now on.
fn reach(sides: &mut Vec<Side>, alloc: Global, at: usize) -> Result<(), AllocError>
    ensures there { OnOk result (at < length sides.new.items) }
    ensures same { OnOk result ((side : HostSide) → put_side sides.new.items at side ≡ put_side sides.old.items at side) }
    ensures side { OnOk result (side_at sides.new.items at ≡ side_at sides.old.items at) }
{
    while sides.len() <= at {
        sides.push(Side::nothing(alloc))?;
    }
    Ok(())
}

fn perform_there(sides: &mut Vec<Side>, at: usize, action: &Action) -> Result<(), AllocError>
    requires { at < length sides.old.items }
    ensures { OnOk result (sides.new.items ≡ slice_set sides.old.items at
        (performed action.now (slice_index_or sides.old.items at empty_side))) }
{
    sides[at].perform(action)
}

fn perform_in(
    sides: &mut Vec<Side>,
    alloc: Global,
    host: HostId,
    action: &Action,
) -> Result<(), AllocError>
    ensures { OnOk result (sides.new.items ≡ put_side sides.old.items host.0 (performed action.now (side_at sides.old.items host.0))) }
{
    reach(sides, alloc, host.0 as usize)?;
    perform_there(sides, host.0 as usize, action)
}

fn hear_there(
    sides: &mut Vec<Side>,
    at: usize,
    into: &[Reg],
    words: &[u32],
) -> Result<(), AllocError>
    requires { at < length sides.old.items }
    ensures { OnOk result (sides.new.items ≡ slice_set sides.old.items at
        (has_heard into.now words.now (slice_index_or sides.old.items at empty_side))) }
{
    sides[at].hear(into, words)
}

fn hear_in(
    sides: &mut Vec<Side>,
    alloc: Global,
    host: HostId,
    into: &[Reg],
    words: &[u32],
) -> Result<(), AllocError>
    ensures { OnOk result (sides.new.items ≡ put_side sides.old.items host.0
        (has_heard into.now words.now (side_at sides.old.items host.0))) }
{
    reach(sides, alloc, host.0 as usize)?;
    hear_there(sides, host.0 as usize, into, words)
}

fn count_there(sides: &mut Vec<Side>, at: usize, counter: u32, turn: u32) -> Result<(), AllocError>
    requires { at < length sides.old.items }
    ensures { OnOk result (sides.new.items ≡ slice_set sides.old.items at
        (counted counter turn (slice_index_or sides.old.items at empty_side))) }
{
    sides[at].count_turn(counter, turn)
}

fn count_in(
    sides: &mut Vec<Side>,
    alloc: Global,
    host: HostId,
    counter: u32,
    turn: u32,
) -> Result<(), AllocError>
    ensures { OnOk result (sides.new.items ≡ put_side sides.old.items host.0 (counted counter turn (side_at sides.old.items host.0))) }
{
    reach(sides, alloc, host.0 as usize)?;
    count_there(sides, host.0 as usize, counter, turn)
}

fn change_there(sides: &mut Vec<Side>, at: usize, peer: HostId, change: Change)
    requires { at < length sides.old.items }
    ensures { sides.new.items ≡ slice_set sides.old.items at (changed peer change (slice_index_or sides.old.items at empty_side)) }
{
    sides[at].change(peer, change);
}

fn change_in(
    sides: &mut Vec<Side>,
    alloc: Global,
    host: HostId,
    peer: HostId,
    change: Change,
) -> Result<(), AllocError>
    ensures { OnOk result (sides.new.items ≡ put_side sides.old.items host.0 (changed peer change (side_at sides.old.items host.0))) }
{
    reach(sides, alloc, host.0 as usize)?;
    change_there(sides, host.0 as usize, peer, change);
    Ok(())
}

/// Whether the host stands among the first of those that take part.
fn stood(parts: &[(u8, u32)], host: u8) -> bool
    ensures { result ≡ stood host parts.now }
{
    parts.iter().any(|part| part.0 == host)
}

impl Run {
    /// These hosts.
    pub fn new(alloc: Global, sides: Vec<Side>) -> Run
        ensures { result ≡ sides.items }
    {
        Run { alloc, sides }
    }

    /// The hosts, by their numbers.
    pub fn into_sides(self) -> Vec<Side>
        ensures { result.items ≡ self }
    {
        let Run { alloc: _, sides } = self;
        sides
    }

    /// The word of a host's register.
    pub fn word(&self, host: u8, register: u32) -> u32
        ensures { result ≡ slice_index (side_at self.now host).registers register }
    {
        match self.sides.get(host as usize) {
            Some(side) => side.word(Reg(register)),
            None => 0,
        }
    }

    fn perform(&mut self, host: HostId, action: &Action) -> Result<(), AllocError>
        ensures { OnOk result (self.new ≡ put_side self.old host.0 (performed action.now (side_at self.old host.0))) }
    {
        perform_in(&mut self.sides, self.alloc, host, action)
    }

    fn words_of(&self, host: HostId, registers: &[Reg]) -> Result<Words, AllocError>
        ensures { IfOk result (λ words. words ≡ said_words (side_at self.now host.0).registers registers.now) }
    {
        let mut words = Items::new(self.alloc);
        for register in registers {
            words.push(self.word(host.0, register.0))?;
        }
        Ok(words)
    }

    fn tell(
        &mut self,
        from: HostId,
        said: &[Reg],
        to: HostId,
        heard: &[Reg],
    ) -> Result<(), AllocError>
        ensures { OnOk result (self.new ≡ told from said.now to heard.now self.old) }
    {
        let words = self.words_of(from, said)?;
        hear_in(&mut self.sides, self.alloc, to, heard, words.as_slice())
    }

    /// Hosts act.
    ///
    /// It fails only where memory runs out.
    pub fn act(&mut self, act: &Act) -> Result<(), AllocError>
        ensures { OnOk result (self.new ≡ acted act.now self.old) }
    {
        match act {
            Act::Do(host, action) => self.perform(*host, action),
            Act::Msg(from, said, to, heard) => {
                self.tell(*from, said.as_slice(), *to, heard.as_slice())
            }
        }
    }

    /// Whether the guard of the first host that takes part is 0; so it is where nobody does.
    pub fn is_other(&self, parts: &[(u8, u32)]) -> bool
        ensures { result ≡ is_other parts.now self.now }
    {
        match parts.first() {
            Some((host, guard)) => self.word(*host, *guard) == 0,
            None => true,
        }
    }

    /// The counter of the host at a place of those that take part gets the number of the turn, unless it stood there before.
    fn count(&mut self, parts: &[(u8, u32)], at: usize, turn: u32) -> Result<(), AllocError>
        requires { at < length parts.now }
        ensures { OnOk result (self.new ≡ next_begun (take at parts.now) (slice_index_or parts.now at nobody) turn self.old) }
    {
        let (host, counter) = parts[at];
        if stood(&parts[..at], host) {
            Ok(())
        } else {
            count_in(&mut self.sides, self.alloc, HostId(host), counter, turn)
        }
    }

    /// The counter of each host that takes part gets the number of the turn.
    pub fn begin(&mut self, parts: &[(u8, u32)], turn: u32) -> Result<(), AllocError>
        ensures { OnOk result (self.new ≡ begun parts.now turn self.old) }
    {
        let mut i = 0;
        while i < parts.len() {
            self.count(parts, i, turn)?;
            i += 1;
        }
        Ok(())
    }

    /// How many items a host took of each list.
    pub fn taken(&self, host: HostId) -> Taken
        ensures { result ≡ (side_at self.now host.0).taken }
    {
        match self.sides.get(host.0 as usize) {
            Some(side) => side.taken,
            None => Taken {
                inputs: 0,
                own: 0,
                triples: 0,
                bits: 0,
                pairs: 0,
            },
        }
    }

    /// The triple at a place of those that a host shares with another; zeros where there is none.
    pub fn shared_triple(&self, host: HostId, peer: HostId, at: usize) -> Triple
        ensures { result ≡ shared_triple (side_at self.now host.0) peer at }
    {
        match self.sides.get(host.0 as usize) {
            Some(side) => side.shared_triple(peer, at),
            None => Triple { a: 0, b: 0, c: 0 },
        }
    }

    /// The triple of bits at a place of those that a host shares with another; zeros where there is none.
    pub fn shared_bits(&self, host: HostId, peer: HostId, at: usize) -> Triple
        ensures { result ≡ shared_bits (side_at self.now host.0) peer at }
    {
        match self.sides.get(host.0 as usize) {
            Some(side) => side.shared_bits(peer, at),
            None => Triple { a: 0, b: 0, c: 0 },
        }
    }

    /// The pair at a place of those that a host shares with another; zeros where there is none.
    pub fn shared_pair(&self, host: HostId, peer: HostId, at: usize) -> PairItem
        ensures { result ≡ shared_pair (side_at self.now host.0) peer at }
    {
        match self.sides.get(host.0 as usize) {
            Some(side) => side.shared_pair(peer, at),
            None => PairItem { s: 0, x: 0 },
        }
    }

    /// The next triple that a host shares with another becomes this one; past the end nothing changes.
    pub fn change_triple(
        &mut self,
        host: HostId,
        peer: HostId,
        item: Triple,
    ) -> Result<(), AllocError>
        ensures { OnOk result (self.new ≡ put_side self.old host.0 (with_triple peer item (side_at self.old host.0))) }
    {
        change_in(
            &mut self.sides,
            self.alloc,
            host,
            peer,
            Change::Triple(item),
        )
    }

    /// The next triple of bits that a host shares with another becomes this one; past the end nothing changes.
    pub fn change_bits(
        &mut self,
        host: HostId,
        peer: HostId,
        item: Triple,
    ) -> Result<(), AllocError>
        ensures { OnOk result (self.new ≡ put_side self.old host.0 (with_bits peer item (side_at self.old host.0))) }
    {
        change_in(&mut self.sides, self.alloc, host, peer, Change::Bits(item))
    }

    /// The next pair that a host shares with another becomes this one; past the end nothing changes.
    pub fn change_pair(
        &mut self,
        host: HostId,
        peer: HostId,
        item: PairItem,
    ) -> Result<(), AllocError>
        ensures { OnOk result (self.new ≡ put_side self.old host.0 (with_pair peer item (side_at self.old host.0))) }
    {
        change_in(&mut self.sides, self.alloc, host, peer, Change::Pair(item))
    }
}
