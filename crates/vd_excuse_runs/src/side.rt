//! One host in a run, and what it does by itself.

ghost use Rattle.std.specs.Prelude.{◌≡◌, ◌<◌, ◌+◌, ◌^◌, [], IfOk, OnOk, slice_index, slice_index_or, length};
ghost use Rattle.vd_tape.specs.Identities.{triple_at, pair_at};
ghost use Rattle.vd_semantics.specs.Stores.{put};
ghost use Rattle.vd_excuse_runs.specs.Registers.{put_in_cell, put_three, put_two};
ghost use Rattle.vd_excuse_runs.specs.Sides.{bits_taken, changed, counted, dealt_side, empty_side, further, has_heard, next_bits, next_pair, next_triple, pairs_taken, peer_of, performed, shared_bits, shared_pair, shared_triple, triples_taken, with_bits, with_pair, with_triple};

use crate::registers::{cell, clear, hashed, read, write, write_each, write_from};
use std::alloc::{AllocError, Global};
use vd_base::{HostId, Items, Op, Words, combine};
use vd_execution::{Action, Reg};
use vd_machine::apply;
use vd_tape::{Deal, PairItem, Triple};

/// How many items a host took of each list; who took one past the end of a list stays one past it.
#[derive(Clone, Copy, PartialEq, Eq)]
pub struct Taken {
    pub inputs: usize,
    pub own: usize,
    pub triples: usize,
    pub bits: usize,
    pub pairs: usize,
}

/// What the next item of a list that a host shares with another becomes.
#[derive(Clone, Copy)]
pub enum Change {
    Triple(Triple),
    Bits(Triple),
    Pair(PairItem),
}

/// A host in one run: its registers, its inputs, its own words, and what it shares with one peer. With no other host it shares
/// anything.
#[derive(Drop)]
pub struct Side {
    pub peer: HostId,
    pub registers: Words,
    pub inputs: Words,
    pub own: Words,
    pub triples: Items<Triple>,
    pub bits: Items<Triple>,
    pub pairs: Items<PairItem>,
    pub taken: Taken,
}

/// One item further, up to one past the end.
fn further(len: usize, at: usize) -> usize
    requires { len + 1 < 2 ^ 64 }
    ensures { result ≡ further len at }
{
    if at <= len { at + 1 } else { at }
}

/// The triple at a place; zeros past the end.
pub(crate) fn triple_at(list: &[Triple], at: usize) -> Triple
    ensures { result ≡ triple_at list.now at }
{
    match list.get(at) {
        Some(item) => *item,
        None => Triple { a: 0, b: 0, c: 0 },
    }
}

/// The pair at a place; zeros past the end.
pub(crate) fn pair_at(list: &[PairItem], at: usize) -> PairItem
    ensures { result ≡ pair_at list.now at }
{
    match list.get(at) {
        Some(item) => *item,
        None => PairItem { s: 0, x: 0 },
    }
}

/// The triples that are shared with the only peer.
fn only_triples(lists: &Items<Items<Triple>>) -> &[Triple]
    ensures { result.now ≡ slice_index_or lists.now 0 [] }
{
    match lists.as_slice().get(0) {
        Some(list) => list.as_slice(),
        None => &[],
    }
}

/// The pairs that are shared with the only peer.
fn only_pairs(lists: &Items<Items<PairItem>>) -> &[PairItem]
    ensures { result.now ≡ slice_index_or lists.now 0 [] }
{
    match lists.as_slice().get(0) {
        Some(list) => list.as_slice(),
        None => &[],
    }
}

/// The other one of two hosts.
fn peer_of(host: HostId) -> HostId
    ensures { result ≡ peer_of host }
{
    if host.0 == 0 { HostId(1) } else { HostId(0) }
}

impl Side {
    /// A host that has no inputs and was dealt nothing.
    pub fn nothing(alloc: Global) -> Side
        ensures { result ≡ empty_side }
    {
        Side {
            peer: HostId(0),
            registers: Items::new(alloc),
            inputs: Items::new(alloc),
            own: Items::new(alloc),
            triples: Items::new(alloc),
            bits: Items::new(alloc),
            pairs: Items::new(alloc),
            taken: Taken {
                inputs: 0,
                own: 0,
                triples: 0,
                bits: 0,
                pairs: 0,
            },
        }
    }

    /// One of two hosts at the start, with its inputs and what it was dealt.
    pub fn dealt(alloc: Global, inputs: &[u32], deal: &Deal) -> Result<Side, AllocError>
        ensures { IfOk result (λ side. side ≡ dealt_side inputs.now deal.now) }
    {
        let own = Items::from_slice(alloc, deal.own.as_slice())?;
        let triples = Items::from_slice(alloc, only_triples(&deal.triples))?;
        let bits = Items::from_slice(alloc, only_triples(&deal.bits))?;
        let pairs = Items::from_slice(alloc, only_pairs(&deal.pairs))?;
        let inputs = Items::from_slice(alloc, inputs)?;
        Ok(Side {
            peer: peer_of(deal.me),
            registers: Items::new(alloc),
            inputs,
            own,
            triples,
            bits,
            pairs,
            taken: Taken {
                inputs: 0,
                own: 0,
                triples: 0,
                bits: 0,
                pairs: 0,
            },
        })
    }

    /// The word of a register.
    pub fn word(&self, register: Reg) -> u32
        ensures { result ≡ slice_index self.now.registers register.0 }
    {
        read(&self.registers, register.0 as usize)
    }

    fn write(&mut self, register: Reg, word: u32) -> Result<(), AllocError>
        ensures { OnOk result (self.new ≡ record self.old { registers = put 0 self.old.registers register.0 word }) }
    {
        write(&mut self.registers, register.0 as usize, word)
    }

    fn write_triple(&mut self, a: Reg, b: Reg, c: Reg, item: Triple) -> Result<(), AllocError>
        ensures { OnOk result (self.new ≡ record self.old { registers = put_three self.old.registers a b c item }) }
    {
        self.write(a, item.a)?;
        self.write(b, item.b)?;
        self.write(c, item.c)
    }

    fn write_pair(&mut self, s: Reg, x: Reg, item: PairItem) -> Result<(), AllocError>
        ensures { OnOk result (self.new ≡ record self.old { registers = put_two self.old.registers s x item }) }
    {
        self.write(s, item.s)?;
        self.write(x, item.x)
    }

    fn write_cell(&mut self, array: Reg, count: u32, at: u32, word: u32) -> Result<(), AllocError>
        ensures { OnOk result (self.new ≡ record self.old { registers = put_in_cell self.old.registers array.0 count at word }) }
    {
        if at < count {
            write(&mut self.registers, array.0 as usize + at as usize, word)
        } else {
            Ok(())
        }
    }

    /// The next own word; 0 past the end.
    fn take_own(&mut self) -> u32
        ensures word { result ≡ slice_index self.old.own self.old.taken.own }
        ensures rest { self.new ≡ record self.old {
          taken = record self.old.taken
              { own = further (length self.old.own) self.old.taken.own };
        } }
    {
        let word = read(&self.own, self.taken.own);
        self.taken.own = further(self.own.as_slice().len(), self.taken.own);
        word
    }

    /// The next input; 0 past the end.
    fn take_input(&mut self) -> u32
        ensures word { result ≡ slice_index self.old.inputs self.old.taken.inputs }
        ensures rest { self.new ≡ record self.old {
          taken = record self.old.taken
              { inputs = further (length self.old.inputs) self.old.taken.inputs };
        } }
    {
        let word = read(&self.inputs, self.taken.inputs);
        self.taken.inputs = further(self.inputs.as_slice().len(), self.taken.inputs);
        word
    }

    /// The triple at a place of those that are shared with a host; zeros past the end, and with a host that shares none.
    pub fn shared_triple(&self, peer: HostId, at: usize) -> Triple
        ensures { result ≡ shared_triple self.now peer at }
    {
        if peer.0 == self.peer.0 {
            triple_at(self.triples.as_slice(), at)
        } else {
            Triple { a: 0, b: 0, c: 0 }
        }
    }

    /// The triple of bits at a place of those that are shared with a host.
    pub fn shared_bits(&self, peer: HostId, at: usize) -> Triple
        ensures { result ≡ shared_bits self.now peer at }
    {
        if peer.0 == self.peer.0 {
            triple_at(self.bits.as_slice(), at)
        } else {
            Triple { a: 0, b: 0, c: 0 }
        }
    }

    /// The pair at a place of those that are shared with a host.
    pub fn shared_pair(&self, peer: HostId, at: usize) -> PairItem
        ensures { result ≡ shared_pair self.now peer at }
    {
        if peer.0 == self.peer.0 {
            pair_at(self.pairs.as_slice(), at)
        } else {
            PairItem { s: 0, x: 0 }
        }
    }

    /// The next triple that is shared with a host becomes another; past the end nothing changes.
    fn change_triple(&mut self, peer: HostId, item: Triple)
        ensures { self.new ≡ with_triple peer item self.old }
    {
        let at = self.taken.triples;
        if peer.0 == self.peer.0 && at < self.triples.as_slice().len() {
            self.triples.set(at, item);
        }
    }

    /// The next triple of bits that is shared with a host becomes another; past the end nothing changes.
    fn change_bits(&mut self, peer: HostId, item: Triple)
        ensures { self.new ≡ with_bits peer item self.old }
    {
        let at = self.taken.bits;
        if peer.0 == self.peer.0 && at < self.bits.as_slice().len() {
            self.bits.set(at, item);
        }
    }

    /// The next pair that is shared with a host becomes another; past the end nothing changes.
    fn change_pair(&mut self, peer: HostId, item: PairItem)
        ensures { self.new ≡ with_pair peer item self.old }
    {
        let at = self.taken.pairs;
        if peer.0 == self.peer.0 && at < self.pairs.as_slice().len() {
            self.pairs.set(at, item);
        }
    }

    /// The next item of a list that is shared with a host becomes another; past the end nothing changes.
    pub(crate) fn change(&mut self, peer: HostId, change: Change)
        ensures { self.new ≡ changed peer change self.old }
    {
        match change {
            Change::Triple(item) => self.change_triple(peer, item),
            Change::Bits(item) => self.change_bits(peer, item),
            Change::Pair(item) => self.change_pair(peer, item),
        }
    }

    fn take_triple(&mut self, peer: HostId) -> Triple
        ensures item { result ≡ next_triple self.old peer }
        ensures rest { self.new ≡ record self.old { taken = triples_taken self.old peer } }
    {
        let item = self.shared_triple(peer, self.taken.triples);
        if peer.0 == self.peer.0 {
            self.taken.triples = further(self.triples.as_slice().len(), self.taken.triples);
        }
        item
    }

    fn take_bits(&mut self, peer: HostId) -> Triple
        ensures item { result ≡ next_bits self.old peer }
        ensures rest { self.new ≡ record self.old { taken = bits_taken self.old peer } }
    {
        let item = self.shared_bits(peer, self.taken.bits);
        if peer.0 == self.peer.0 {
            self.taken.bits = further(self.bits.as_slice().len(), self.taken.bits);
        }
        item
    }

    fn take_pair(&mut self, peer: HostId) -> PairItem
        ensures item { result ≡ next_pair self.old peer }
        ensures rest { self.new ≡ record self.old { taken = pairs_taken self.old peer } }
    {
        let item = self.shared_pair(peer, self.taken.pairs);
        if peer.0 == self.peer.0 {
            self.taken.pairs = further(self.pairs.as_slice().len(), self.taken.pairs);
        }
        item
    }

    /// The host acts by itself. Past the end of a list it takes zeros.
    ///
    /// It fails only where memory runs out.
    pub(crate) fn perform(&mut self, action: &Action) -> Result<(), AllocError>
        ensures { OnOk result (self.new ≡ performed action.now self.old) }
    {
        match action {
            Action::Const(r, k) => self.write(*r, *k),
            Action::Copy(r, x) => self.write(*r, self.word(*x)),
            Action::Apply(operation, r, x, y) => {
                let word = apply(*operation, self.word(*x), self.word(*y));
                self.write(*r, word)
            }
            Action::Shl(r, x, k) => {
                let word = combine(Op::Shl(*k), self.word(*x), 0, 0);
                self.write(*r, word)
            }
            Action::Shr(r, x, k) => {
                let word = combine(Op::Shr(*k), self.word(*x), 0, 0);
                self.write(*r, word)
            }
            Action::Mux(r, c, x, y) => {
                let word = combine(Op::Mux, self.word(*c), self.word(*x), self.word(*y));
                self.write(*r, word)
            }
            Action::Own(r) => {
                let word = self.take_own();
                self.write(*r, word)
            }
            Action::Triple(peer, a, b, c) => {
                let item = self.take_triple(*peer);
                self.write_triple(*a, *b, *c, item)
            }
            Action::Bits(peer, a, b, c) => {
                let item = self.take_bits(*peer);
                self.write_triple(*a, *b, *c, item)
            }
            Action::Pair(peer, s, x) => {
                let item = self.take_pair(*peer);
                self.write_pair(*s, *x, item)
            }
            Action::Input(r) => {
                let word = self.take_input();
                self.write(*r, word)
            }
            Action::Print(_) => Ok(()),
            Action::Hash(d, n, v) => {
                let words = hashed(&self.registers, n.0, v.0);
                write_from(&mut self.registers, d.0 as usize, &words)
            }
            Action::Same(_, _) => Ok(()),
            Action::Zero(r, count) => {
                clear(&mut self.registers, r.0, *count);
                Ok(())
            }
            Action::Get(r, x, count, i) => {
                let word = cell(&self.registers, x.0, *count, self.word(*i));
                self.write(*r, word)
            }
            Action::Put(x, count, i, s) => {
                self.write_cell(*x, *count, self.word(*i), self.word(*s))
            }
        }
    }

    /// The host hears words.
    pub(crate) fn hear(&mut self, into: &[Reg], words: &[u32]) -> Result<(), AllocError>
        ensures { OnOk result (self.new ≡ has_heard into.now words.now self.old) }
    {
        write_each(&mut self.registers, into, words)
    }

    /// A register gets the number of a turn.
    pub(crate) fn count_turn(&mut self, counter: u32, turn: u32) -> Result<(), AllocError>
        ensures { OnOk result (self.new ≡ counted counter turn self.old) }
    {
        write(&mut self.registers, counter as usize, turn)
    }
}
