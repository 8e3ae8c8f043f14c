//! One action of a host by itself.

ghost use Rattle.std.specs.Prelude.{◌≡◌, ◌+◌, ◌<◌, [], Some, length, slice_get, slice_set, slice_index, slice_index_or};
ghost use Rattle.vd_execution.specs.Registers.{applied, put, written};
ghost use Rattle.vd_execution.specs.Ranges.{ActionFits};
ghost use Rattle.vd_execution.specs.Step.{need_of_action, advanced};
ghost use Rattle.vd_machine.specs.Kept.{action_after};
ghost use Rattle.vd_machine.specs.Machines.{held, list_of, cursors_of, IsMet, words_for, SamePeers};

use crate::lists::{Lists, Taken, pairs_with, triples_with};
use crate::registers::{clear, hashed, write, write_from};
use vd_base::{HostId, Items, Op, combine};
use vd_execution::{Action, Binary, Reg};
use vd_tape::{PairItem, Triple};

/// What an operation on two words gives.
pub fn apply(operation: Binary, x: u32, y: u32) -> u32
    ensures { result ≡ applied operation x y }
{
    match operation {
        Binary::Add => combine(Op::Add, x, y, 0),
        Binary::Sub => combine(Op::Sub, x, y, 0),
        Binary::Mul => combine(Op::Mul, x, y, 0),
        Binary::Div => combine(Op::Div, x, y, 0),
        Binary::Rem => combine(Op::Rem, x, y, 0),
        Binary::And => combine(Op::And, x, y, 0),
        Binary::Or => combine(Op::Or, x, y, 0),
        Binary::Xor => combine(Op::Xor, x, y, 0),
        Binary::Eq => combine(Op::Eq, x, y, 0),
        Binary::Ne => combine(Op::Ne, x, y, 0),
        Binary::Lt => combine(Op::Lt, x, y, 0),
        Binary::Le => combine(Op::Le, x, y, 0),
        Binary::Min => combine(Op::Min, x, y, 0),
        Binary::Max => combine(Op::Max, x, y, 0),
    }
}

/// The next triple of the list that is shared with a peer.
#[tactic(auto, using(crate::proofs::Items::peer_there, crate::proofs::Items::get_there))]
fn take_triple(
    taken: &mut Items<usize>,
    lists: &Items<Items<Triple>>,
    me: HostId,
    peer: HostId,
) -> Triple
    requires same { length taken.old ≡ length lists.now + 1 }
    requires left { slice_index taken.old peer.0 < length (list_of lists.now me.0 peer.0) }
    ensures item { slice_get (list_of lists.now me.0 peer.0) (slice_index taken.old peer.0) ≡ Some result }
    ensures further { taken.new ≡ slice_set taken.old peer.0 (slice_index taken.old peer.0 + 1) }
{
    let at = taken.as_slice()[peer.0 as usize];
    let item = triples_with(lists, me, peer)[at];
    taken.set(peer.0 as usize, at + 1);
    item
}

/// The next pair of the list that is shared with a peer.
#[tactic(auto, using(crate::proofs::Items::peer_there, crate::proofs::Items::get_there))]
fn take_pair(
    taken: &mut Items<usize>,
    lists: &Items<Items<PairItem>>,
    me: HostId,
    peer: HostId,
) -> PairItem
    requires same { length taken.old ≡ length lists.now + 1 }
    requires left { slice_index taken.old peer.0 < length (list_of lists.now me.0 peer.0) }
    ensures item { slice_get (list_of lists.now me.0 peer.0) (slice_index taken.old peer.0) ≡ Some result }
    ensures further { taken.new ≡ slice_set taken.old peer.0 (slice_index taken.old peer.0 + 1) }
{
    let at = taken.as_slice()[peer.0 as usize];
    let item = pairs_with(lists, me, peer)[at];
    taken.set(peer.0 as usize, at + 1);
    item
}

/// Three registers get the words of a triple.
fn write_triple(registers: &mut Vec<u32>, a: Reg, b: Reg, c: Reg, item: Triple)
    requires a { a.0 < length registers.old.items }
    requires b { b.0 < length registers.old.items }
    requires c { c.0 < length registers.old.items }
    ensures value { held registers.new.items ≡ put (put (put (held registers.old.items) a.0 item.a) b.0 item.b) c.0 item.c }
    ensures len { length registers.new.items ≡ length registers.old.items }
{
    write(registers, a.0 as usize, item.a);
    write(registers, b.0 as usize, item.b);
    write(registers, c.0 as usize, item.c);
}

/// One action.
#[tactic(auto, using(crate::proofs::Items::peer_there, crate::proofs::Items::inputs_further, crate::proofs::Items::own_further, crate::proofs::Items::triples_further, crate::proofs::Items::bits_further, crate::proofs::Items::pairs_further))]
pub(crate) fn perform(registers: &mut Vec<u32>, taken: &mut Taken, lists: &Lists, action: &Action)
    requires fits { ActionFits (length registers.old.items) action.now }
    requires same { SamePeers lists.now taken.old }
    requires met { IsMet lists.now (cursors_of taken.old) [] (need_of_action (held registers.old.items) action.now) }
    ensures value { held registers.new.items ≡ action_after (held registers.old.items) lists.now taken.old action.now }
    ensures len { length registers.new.items ≡ length registers.old.items }
    ensures cursors { cursors_of taken.new ≡ advanced (cursors_of taken.old) (need_of_action (held registers.old.items) action.now) }
    ensures same { SamePeers lists.now taken.new }
{
    match action {
        Action::Const(r, k) => write(registers, r.0 as usize, *k),
        Action::Copy(r, x) => {
            let word = registers[x.0 as usize];
            write(registers, r.0 as usize, word)
        }
        Action::Apply(operation, r, x, y) => {
            let word = apply(*operation, registers[x.0 as usize], registers[y.0 as usize]);
            write(registers, r.0 as usize, word)
        }
        Action::Shl(r, x, k) => {
            let word = combine(Op::Shl(*k), registers[x.0 as usize], 0, 0);
            write(registers, r.0 as usize, word)
        }
        Action::Shr(r, x, k) => {
            let word = combine(Op::Shr(*k), registers[x.0 as usize], 0, 0);
            write(registers, r.0 as usize, word)
        }
        Action::Mux(r, c, x, y) => {
            let word = combine(
                Op::Mux,
                registers[c.0 as usize],
                registers[x.0 as usize],
                registers[y.0 as usize],
            );
            write(registers, r.0 as usize, word)
        }
        Action::Own(r) => {
            let word = lists.deal.own.as_slice()[taken.own];
            taken.own += 1;
            write(registers, r.0 as usize, word)
        }
        Action::Triple(p, a, b, c) => {
            let item = take_triple(&mut taken.triples, &lists.deal.triples, lists.deal.me, *p);
            write_triple(registers, *a, *b, *c, item)
        }
        Action::Bits(p, a, b, c) => {
            let item = take_triple(&mut taken.bits, &lists.deal.bits, lists.deal.me, *p);
            write_triple(registers, *a, *b, *c, item)
        }
        Action::Pair(p, s, x) => {
            let item = take_pair(&mut taken.pairs, &lists.deal.pairs, lists.deal.me, *p);
            write(registers, s.0 as usize, item.s);
            write(registers, x.0 as usize, item.x)
        }
        Action::Input(r) => {
            let word = lists.inputs.as_slice()[taken.inputs];
            taken.inputs += 1;
            write(registers, r.0 as usize, word)
        }
        Action::Print(_) => {}
        Action::Hash(d, n, v) => {
            let words = hashed(registers, n.0, v.0);
            write_from(registers, d.0 as usize, &words)
        }
        Action::Same(_, _) => {}
        Action::Zero(r, count) => clear(registers, r.0 as usize, *count as usize),
        Action::Get(r, x, count, i) => {
            let at = registers[i.0 as usize];
            let word = if at < *count {
                registers[x.0 as usize + at as usize]
            } else {
                0
            };
            write(registers, r.0 as usize, word)
        }
        Action::Put(x, count, i, s) => {
            let at = registers[i.0 as usize];
            let word = registers[s.0 as usize];
            if at < *count {
                write(registers, x.0 as usize + at as usize, word)
            }
        }
    }
}
