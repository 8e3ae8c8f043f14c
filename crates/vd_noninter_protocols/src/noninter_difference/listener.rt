//! A host to which clear words come.

ghost use Rattle.std.specs.Prelude.{◌≡◌, ◌∷◌, []};
ghost use Rattle.std.specs.List.{list_any};
ghost use Rattle.vd_noninter_protocols.specs.Hearing.{stands, comes, comes_alone, index_comes, is_part};
ghost use Rattle.vd_base.specs.HostSets.{same_host};
ghost use Rattle.vd_base.specs.Holders.{has_clear as is_clear_at, is_alone as is_alone_at, proto_in};
ghost use Rattle.vd_noninter_protocols.specs.Parts.{told_there, held_there, slot_held};
ghost use Rattle.vd_noninter_protocols.specs.Runs.{all_heard, heard_by};
ghost use Rattle.vd_space.specs.Reading.{named_by};

use std::marker::Model;
use vd_base::{HostId, Proto, SlotId, has_clear, is_holder, is_same, proto_of};
use vd_core::{Right, Stmt};

/// A host, and where the slots of a program stand.
#[derive(Drop)]
pub struct Listener<'a> {
    protocols: &'a [Proto],
    host: HostId,
}

impl<'a> Model for Listener<'a> {
    ghost use Rattle.vd_noninter_protocols.specs.Runs.{Hearer};

    ghost Value = { Hearer };

    ghost view = { λ x. record { protocols = x.protocols.now; host = x.host } };
}

impl<'a> Listener<'a> {
    /// A host of a program, whose slots stand at these protocols.
    pub fn new(protocols: &'a [Proto], host: HostId) -> Listener<'a>
        ensures { result ≡ record { protocols = protocols.now; host = host } }
    {
        Listener { protocols, host }
    }

    /// The host.
    pub fn host(&self) -> HostId
        ensures { result ≡ self.now.host }
    {
        self.host
    }

    /// Whether it is this host.
    pub(crate) fn is(&self, host: HostId) -> bool
        ensures { result ≡ same_host self.now.host host }
    {
        self.host == host
    }

    /// The protocol of the slot.
    fn protocol(&self, slot: SlotId) -> Proto
        ensures { result ≡ proto_in self.now.protocols slot.0 }
    {
        proto_of(self.protocols, slot)
    }

    /// Whether it is the protocol of the host alone.
    fn is_alone_at(&self, protocol: Proto) -> bool
        ensures { result ≡ is_alone_at self.now.host protocol }
    {
        match protocol {
            Proto::Local(at) => at == self.host,
            Proto::Rep(_) => false,
            Proto::Commit(_, _) => false,
            Proto::Add(_, _) => false,
            Proto::Xor(_, _) => false,
        }
    }

    /// Whether the host has in clear what stands at the slot.
    fn has_clear(&self, slot: SlotId) -> bool
        ensures { result ≡ stands self.now.protocols self.now.host (is_clear_at self.now.host) slot }
    {
        match self.protocols.get(usize::from(slot.0)) {
            Some(protocol) => has_clear(*protocol, self.host),
            None => false,
        }
    }

    /// Whether the slot stands at the host alone.
    fn is_alone(&self, slot: SlotId) -> bool
        ensures { result ≡ stands self.now.protocols self.now.host (is_alone_at self.now.host) slot }
    {
        match self.protocols.get(usize::from(slot.0)) {
            Some(protocol) => self.is_alone_at(*protocol),
            None => false,
        }
    }

    /// Whether the slot is kept at the host.
    fn holds(&self, slot: SlotId) -> bool
        ensures { result ≡ slot_held self.now slot }
    {
        match self.protocols.get(usize::from(slot.0)) {
            Some(protocol) => is_holder(*protocol, self.host),
            None => false,
        }
    }

    /// Whether a word that is moved from the one slot to the other comes to the host.
    pub(crate) fn comes(&self, from: SlotId, onto: SlotId) -> bool
        ensures { result ≡ comes self.now.protocols self.now.host from onto }
    {
        self.has_clear(onto) && !is_same(self.protocol(from), self.protocol(onto))
    }

    /// Whether a word that is moved to the host itself comes to it.
    pub(crate) fn comes_alone(&self, from: SlotId) -> bool
        ensures { result ≡ comes_alone self.now.protocols self.now.host from }
    {
        !self.is_alone(from)
    }

    /// Whether the index of an array comes to the host.
    pub(crate) fn index_comes(&self, array: SlotId, index: SlotId) -> bool
        ensures { result ≡ index_comes self.now.protocols self.now.host array index }
    {
        self.holds(array) && self.comes_alone(index)
    }

    /// Whether the host takes part in the branches of a guard.
    pub(crate) fn is_part(&self, guard: SlotId, then_block: &[Stmt], else_block: &[Stmt]) -> bool
        ensures { let x = self.now in result ≡ is_part x.protocols x.host guard (all_heard x then_block.now)
            (all_heard x else_block.now) }
    {
        self.is_told(then_block)
            || self.is_told(else_block)
            || self.holds_named(then_block)
            || self.holds_named(else_block)
    }

    /// Whether the host is told something by one of the statements.
    #[cycle(told)]
    fn is_told(&self, body: &[Stmt]) -> bool
        ensures { result ≡ told_there self.now (all_heard self.now body.now) }
    {
        for stmt in body {
            if self.is_told_by(stmt) {
                return true;
            }
        }
        false
    }

    /// Whether the host is told something by the statement.
    #[cycle(told)]
    fn is_told_by(&self, stmt: &Stmt) -> bool
        ensures { result ≡ list_any (same_host self.now.host) (heard_by self.now stmt.now).read.told }
    {
        match stmt {
            Stmt::Let(_, _)
            | Stmt::NewVar(_, _)
            | Stmt::NewArray(_, _)
            | Stmt::Store(_, _)
            | Stmt::Put(_, _, _) => false,
            Stmt::Output(_, host, _) => self.is(*host),
            Stmt::If(_, then_block, else_block, _) => {
                self.is_told(then_block.as_slice()) || self.is_told(else_block.as_slice())
            }
            Stmt::For(_, body) => self.is_told(body.as_slice()),
        }
    }

    /// Whether a slot that the statements name is kept at the host.
    #[cycle(named)]
    fn holds_named(&self, body: &[Stmt]) -> bool
        ensures { result ≡ held_there self.now (all_heard self.now body.now) }
    {
        for stmt in body {
            if self.holds_named_by(stmt) {
                return true;
            }
        }
        false
    }

    /// Whether a slot that the statement names is kept at the host.
    #[cycle(named)]
    fn holds_named_by(&self, stmt: &Stmt) -> bool
        ensures { result ≡ list_any (slot_held self.now) (heard_by self.now stmt.now).read.named }
    {
        match stmt {
            Stmt::Let(slot, right) => self.holds(*slot) || self.holds_in(right),
            Stmt::NewVar(variable, slot) => self.holds(*variable) || self.holds(*slot),
            Stmt::NewArray(array, _) => self.holds(*array),
            Stmt::Store(variable, slot) => self.holds(*variable) || self.holds(*slot),
            Stmt::Put(array, index, slot) => {
                self.holds(*array) || self.holds(*index) || self.holds(*slot)
            }
            Stmt::Output(slot, _, _) => self.holds(*slot),
            Stmt::If(guard, then_block, else_block, _) => {
                if self.holds(*guard) {
                    return true;
                }
                self.holds_named(then_block.as_slice()) || self.holds_named(else_block.as_slice())
            }
            Stmt::For(_, body) => self.holds_named(body.as_slice()),
        }
    }

    /// Whether a slot that the right side names is kept at the host.
    fn holds_in(&self, right: &Right) -> bool
        ensures { result ≡ list_any (slot_held self.now) (named_by right.now) }
    {
        match right {
            Right::Lit(_) => false,
            Right::Turn => false,
            Right::Copy(slot) => self.holds(*slot),
            Right::Apply(_, slots) => self.holds_any(slots.as_slice()),
            Right::Input(_) => false,
            Right::Declassify(slot, _) => self.holds(*slot),
            Right::Endorse(slot, _) => self.holds(*slot),
            Right::Load(variable) => self.holds(*variable),
            Right::Get(array, index) => self.holds(*array) || self.holds(*index),
        }
    }

    /// Whether one of the slots is kept at the host.
    fn holds_any(&self, slots: &[SlotId]) -> bool
        ensures { result ≡ list_any (slot_held self.now) slots.now }
    {
        for slot in slots {
            if self.holds(*slot) {
                return true;
            }
        }
        false
    }
}
