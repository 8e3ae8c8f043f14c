//! How words are moved.

ghost use Rattle.std.specs.Prelude.{◌≡◌, ◌++◌, map, unwrap_or, if◌then◌else◌, IfOk, OnOk};
ghost use Rattle.vd_base.specs.HostSets.{host as host_number};
ghost use Rattle.vd_base.specs.declared.protocols.Proto.TheVariants.{Local as local};
ghost use Rattle.vd_base.specs.Holders.{is_holder};
ghost use Rattle.vd_draw_rows.specs.Moves as moves_spec;

use crate::row::{Arrow, Move};
use std::alloc::{AllocError, Global};
use vd_base::{HostId, HostSet, Items, Proto, SlotId, has_clear, is_holder, proto_of};
use vd_core::Right;
use vd_cost::{move_cost, op_cost};

/// What leaves a host where a word goes from one protocol to another.
pub fn arrow_of(from: Proto, to: Proto) -> Arrow
    ensures { result ≡ moves_spec.arrow_of from to }
{
    match from {
        Proto::Local(host) => from_local(host, to),
        Proto::Rep(hosts) => from_copies(hosts, to),
        Proto::Commit(prover, _) => from_committed(prover, to),
        Proto::Add(_, _) => from_sums(to),
        Proto::Xor(_, _) => from_bits(to),
    }
}

fn arrow_unless_stays(stays: bool, arrow: Arrow) -> Arrow
    ensures { result ≡ moves_spec.arrow_unless_stays stays arrow }
{
    if stays { Arrow::Stays } else { arrow }
}

fn from_local(host: HostId, to: Proto) -> Arrow
    ensures { result ≡ moves_spec.from_local host to }
{
    match to {
        Proto::Local(other) => arrow_unless_stays(host == other, Arrow::Clear),
        Proto::Rep(_) => Arrow::Clear,
        Proto::Commit(_, _) => Arrow::Committed,
        Proto::Add(_, _) | Proto::Xor(_, _) => Arrow::Shared,
    }
}

fn from_copies(hosts: HostSet, to: Proto) -> Arrow
    ensures { result ≡ moves_spec.from_copies hosts to }
{
    match to {
        Proto::Local(host) => arrow_unless_stays(hosts.has(host), Arrow::Checked),
        Proto::Rep(others) => arrow_unless_stays(others.outside(hosts).size() == 0, Arrow::Checked),
        Proto::Commit(_, _) | Proto::Add(_, _) | Proto::Xor(_, _) => Arrow::Stays,
    }
}

fn from_committed(prover: HostId, to: Proto) -> Arrow
    ensures { result ≡ moves_spec.from_committed prover to }
{
    match to {
        Proto::Local(host) => arrow_unless_stays(prover == host, Arrow::Revealed),
        Proto::Rep(_) => Arrow::Revealed,
        Proto::Commit(_, _) | Proto::Add(_, _) | Proto::Xor(_, _) => Arrow::Stays,
    }
}

fn from_sums(to: Proto) -> Arrow
    ensures { result ≡ moves_spec.from_sums to }
{
    match to {
        Proto::Local(_) | Proto::Rep(_) => Arrow::Opened,
        Proto::Xor(_, _) => Arrow::Converted,
        Proto::Commit(_, _) | Proto::Add(_, _) => Arrow::Stays,
    }
}

fn from_bits(to: Proto) -> Arrow
    ensures { result ≡ moves_spec.from_bits to }
{
    match to {
        Proto::Local(_) | Proto::Rep(_) => Arrow::Opened,
        Proto::Add(_, _) => Arrow::Converted,
        Proto::Commit(_, _) | Proto::Xor(_, _) => Arrow::Stays,
    }
}

/// Whether a host is told a word that goes from one protocol to another: it has the word in clear there, and had it not before.
pub fn is_told(host: HostId, from: Proto, to: Proto) -> bool
    ensures { result ≡ moves_spec.is_told host from to }
{
    has_clear(to, host) && !has_clear(from, host)
}

/// Whether a move is drawn: none is where a word stays where it is, or goes from copies to hosts that have one.
pub fn is_seen(from: Proto, to: Proto) -> bool
    ensures { result ≡ moves_spec.is_seen from to }
{
    match (from, to) {
        (Proto::Local(host), Proto::Local(other)) => host != other,
        (Proto::Rep(set), Proto::Local(host)) => !set.has(host),
        (Proto::Rep(set), Proto::Rep(others)) => others.outside(set).size() != 0,
        (Proto::Commit(_, _), Proto::Commit(_, _)) => false,
        (Proto::Add(_, _), Proto::Add(_, _)) => false,
        (Proto::Xor(_, _), Proto::Xor(_, _)) => false,
        _ => true,
    }
}

/// The word of a slot goes to a protocol.
pub(crate) fn move_of(list: &[Proto], slot: SlotId, to: Proto) -> Move
    ensures { result ≡ moves_spec.move_of list.now slot to }
{
    let from = proto_of(list, slot);
    Move {
        slot,
        from,
        to,
        cost: move_cost(from, to),
    }
}

/// Adds that the word of a slot is told to a host, where the test holds.
pub(crate) fn tell(
    moves: &mut Items<Move>,
    list: &[Proto],
    slot: SlotId,
    host: HostId,
    test: bool,
) -> Result<(), AllocError>
    ensures { OnOk result (moves.new ≡ moves.old ++ moves_spec.told_if test (moves_spec.move_of list.now slot (local host))) }
{
    if test {
        moves.push(move_of(list, slot, Proto::Local(host)))?;
    }
    Ok(())
}

/// An index is told to each host at which the array is kept.
fn index_moves(
    alloc: Global,
    list: &[Proto],
    hosts: u8,
    array: SlotId,
    index: SlotId,
) -> Result<Items<Move>, AllocError>
    ensures { IfOk result (λ moves. moves ≡ moves_spec.index_moves list.now hosts array index) }
{
    let protocol = proto_of(list, array);
    let mut moves = Items::new(alloc);
    for host in 0..hosts {
        let host = HostId(host);
        tell(&mut moves, list, index, host, is_holder(protocol, host))?;
    }
    Ok(moves)
}

/// The moves for a word that is stored in an array, or read from one: its index, and the word itself.
pub(crate) fn element_moves(
    alloc: Global,
    list: &[Proto],
    hosts: u8,
    array: SlotId,
    index: SlotId,
    last: Move,
) -> Result<Items<Move>, AllocError>
    ensures { IfOk result (λ moves. moves ≡ moves_spec.element_moves list.now hosts array index last) }
{
    let mut moves = index_moves(alloc, list, hosts, array, index)?;
    moves.push(last)?;
    Ok(moves)
}

/// The move of one word.
pub(crate) fn one_move(
    alloc: Global,
    list: &[Proto],
    slot: SlotId,
    to: Proto,
) -> Result<Items<Move>, AllocError>
    ensures { IfOk result (λ moves. moves ≡ moves_spec.one_move list.now slot to) }
{
    let mut moves = Items::new(alloc);
    moves.push(move_of(list, slot, to))?;
    Ok(moves)
}

/// The moves of operands.
fn operand_moves(
    alloc: Global,
    list: &[Proto],
    operands: &[SlotId],
    to: Proto,
) -> Result<Items<Move>, AllocError>
    ensures { IfOk result (λ moves. moves ≡ map (λ y. moves_spec.move_of list.now y to) operands.now) }
{
    let mut moves = Items::new(alloc);
    for operand in operands {
        moves.push(move_of(list, *operand, to))?;
    }
    Ok(moves)
}

/// The words that are moved where a right side is bound to a slot.
pub(crate) fn right_moves(
    alloc: Global,
    list: &[Proto],
    hosts: u8,
    slot: SlotId,
    right: &Right,
) -> Result<Items<Move>, AllocError>
    ensures { IfOk result (λ moves. moves ≡ moves_spec.right_moves list.now hosts slot right.now) }
{
    let to = proto_of(list, slot);
    match right {
        Right::Lit(_) | Right::Turn | Right::Input(_) => Ok(Items::new(alloc)),
        Right::Copy(value)
        | Right::Declassify(value, _)
        | Right::Endorse(value, _)
        | Right::Load(value) => one_move(alloc, list, *value, to),
        Right::Apply(_, operands) => operand_moves(alloc, list, operands.as_slice(), to),
        Right::Get(array, index) => {
            let last = move_of(list, *array, to);
            element_moves(alloc, list, hosts, *array, *index, last)
        }
    }
}

/// Whether a right side reads an element of an array: all of the words but the last that are moved for it are the index.
pub(crate) fn is_indexed(right: &Right) -> bool
    ensures { result ≡ moves_spec.is_indexed right.now }
{
    matches!(right, Right::Get(_, _))
}

/// Whether a right side is an input, or the number of a loop's turn.
pub(crate) fn is_alone(right: &Right) -> bool
    ensures { result ≡ moves_spec.is_alone right.now }
{
    matches!(right, Right::Input(_) | Right::Turn)
}

/// What the operation of a right side costs at a protocol.
pub(crate) fn operation_cost(right: &Right, at: Proto) -> u32
    ensures { result ≡ moves_spec.operation_of right.now at }
{
    match right {
        Right::Apply(op, _) => op_cost(*op, at),
        _ => 0,
    }
}
