ghost use Rattle.std.specs.Prelude.{◌≡◌, ◌<◌, IsTrue, IfOk, OnOk, length};
ghost use Rattle.vd_base.specs.Arity.{arity};
ghost use Rattle.vd_base.specs.Holders.{holders};
ghost use Rattle.vd_duet.specs.Builder.{HasRoom, TakesFew};
ghost use Rattle.vd_duet.specs.Calls.{Calls, hosts_of, all_placed, in_clear, Makes, appended};
ghost use Rattle.vd_duet.specs.Laws.{AreKnown};

use crate::duet::Duet;
use crate::parts::{Args, Part, Parts};
use std::alloc::AllocError;
use vd_base::{HostId, Op, Proto};
use vd_execution::Reg;

/// How words stand at the hosts of a protocol. Each call that is lent a `Duet` gives what `calls` gives, puts exactly its
/// gadgets at the end, and takes few registers. On `Err`, which is out of memory, the `Duet` holds some of the acts and is
/// to be given up.
pub trait Backend {
    ghost calls: { Self → Calls };

    /// The protocol.
    fn proto(&self) -> Proto
        ensures { result ≡ (calls self.now).proto };

    /// Whether `apply` can be asked for the operation.
    fn serves(&self, op: Op) -> bool
        ensures { result ≡ (calls self.now).serves op };

    /// A number.
    fn literal(&self, word: u32, to: &mut Duet) -> Result<Parts, AllocError>
        requires known { AreKnown (holders (calls self.now).proto) to.old.next }
        requires room { HasRoom 0 to.old.next }
        ensures exact { IfOk result (λ x. Makes ((calls self.now).literal word) to.old (in_clear x) to.new) }
        ensures hosts { IfOk result (λ x. hosts_of (in_clear x) ≡ holders (calls self.now).proto) }
        ensures few { OnOk result (TakesFew to.old.next to.new.next) };

    /// The move of a word from one host that has it in clear.
    fn share(&self, from: HostId, x: Reg, to: &mut Duet) -> Result<Parts, AllocError>
        requires known { AreKnown (holders (calls self.now).proto) to.old.next }
        requires from { from.0 < length to.old.next }
        requires room { HasRoom 0 to.old.next }
        ensures exact { IfOk result (λ y. Makes ((calls self.now).share from x) to.old (in_clear y) to.new) }
        ensures hosts { IfOk result (λ x. hosts_of (in_clear x) ≡ holders (calls self.now).proto) }
        ensures few { OnOk result (TakesFew to.old.next to.new.next) };

    /// The move of a word from copies in clear, one at each host of the protocol and maybe at more.
    fn adopt(&self, x: &Parts, to: &mut Duet) -> Result<Parts, AllocError>
        requires known { AreKnown (holders (calls self.now).proto) to.old.next }
        requires room { HasRoom 0 to.old.next }
        ensures exact { IfOk result (λ y. Makes ((calls self.now).adopt (in_clear x.now)) to.old (in_clear y) to.new) }
        ensures hosts { IfOk result (λ x. hosts_of (in_clear x) ≡ holders (calls self.now).proto) }
        ensures few { OnOk result (TakesFew to.old.next to.new.next) };

    /// The move of a word to one host, in clear.
    fn show(&self, x: &Parts, at: HostId, to: &mut Duet) -> Result<Part, AllocError>
        requires known { AreKnown (holders (calls self.now).proto) to.old.next }
        requires at { at.0 < length to.old.next }
        requires room { HasRoom 0 to.old.next }
        requires placed { hosts_of (in_clear x.now) ≡ holders (calls self.now).proto }
        ensures exact { IfOk result (λ y. Makes ((calls self.now).show (in_clear x.now) at) to.old y.0 to.new) }
        ensures few { OnOk result (TakesFew to.old.next to.new.next) };

    /// The move of a word to copies in clear at all hosts of the protocol.
    fn show_all(&self, x: &Parts, to: &mut Duet) -> Result<Parts, AllocError>
        requires known { AreKnown (holders (calls self.now).proto) to.old.next }
        requires room { HasRoom 0 to.old.next }
        requires placed { hosts_of (in_clear x.now) ≡ holders (calls self.now).proto }
        ensures exact { IfOk result (λ y. Makes ((calls self.now).show_all (in_clear x.now)) to.old (in_clear y) to.new) }
        ensures hosts { IfOk result (λ x. hosts_of (in_clear x) ≡ holders (calls self.now).proto) }
        ensures few { OnOk result (TakesFew to.old.next to.new.next) };

    /// A copy in fresh registers.
    fn keep(&self, x: &Parts, to: &mut Duet) -> Result<Parts, AllocError>
        requires known { AreKnown (holders (calls self.now).proto) to.old.next }
        requires room { HasRoom 0 to.old.next }
        requires placed { hosts_of (in_clear x.now) ≡ holders (calls self.now).proto }
        ensures exact { IfOk result (λ y. Makes ((calls self.now).keep (in_clear x.now)) to.old (in_clear y) to.new) }
        ensures hosts { IfOk result (λ x. hosts_of (in_clear x) ≡ holders (calls self.now).proto) }
        ensures few { OnOk result (TakesFew to.old.next to.new.next) };

    /// A copy of `x` into the registers of `kept`.
    fn renew(&self, kept: &Parts, x: &Parts, to: &mut Duet) -> Result<(), AllocError>
        requires kept { hosts_of (in_clear kept.now) ≡ holders (calls self.now).proto }
        requires placed { hosts_of (in_clear x.now) ≡ holders (calls self.now).proto }
        ensures { OnOk result (to.new ≡ appended ((calls self.now).renew (in_clear kept.now) (in_clear x.now)) to.old) };

    /// An operation on as many operands as it takes.
    fn apply(&self, op: Op, args: &Args, to: &mut Duet) -> Result<Parts, AllocError>
        requires known { AreKnown (holders (calls self.now).proto) to.old.next }
        requires room { HasRoom 0 to.old.next }
        requires serves { IsTrue ((calls self.now).serves op) }
        requires arity { length args.now ≡ arity op }
        ensures exact { IfOk result (λ x. Makes ((calls self.now).apply op (all_placed (λ c. c.0) args.now)) to.old
            (in_clear x) to.new) }
        ensures hosts { IfOk result (λ x. hosts_of (in_clear x) ≡ holders (calls self.now).proto) }
        ensures few { OnOk result (TakesFew to.old.next to.new.next) };
}
