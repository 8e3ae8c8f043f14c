//! The lines that tell where the slots of a program stand.

ghost use Rattle.std.specs.Prelude.{◌≡◌, ◌++◌, OnOk, IfOk};
ghost use Rattle.vd_report.specs.ChoiceLines.{choice_line, choice_lines, cost_line, pair_text, protocol_text, slot_lines};

use crate::hosts::name_of;
use crate::name_sets::push_members;
use itoa::Buffer;
use std::alloc::{AllocError, Global};
use vd_base::{Bytes, HostId, Names, Proto};
use vd_core::{NormalForm, Program, Slot};

/// One line for each slot: its number, its name and its protocol; and a last line with the cost.
pub fn choice_text(
    alloc: Global,
    program: &Program,
    assignment: &[Proto],
    cost: u64,
) -> Result<Bytes, AllocError>
    ensures { IfOk result (λ text. text ≡ choice_lines program.now assignment.now cost) }
{
    let mut text = slot_lines(alloc, program.form(), assignment)?;
    push_cost(&mut text, cost)?;
    Ok(text)
}

/// The lines of the slots of a let-normal form.
fn slot_lines(alloc: Global, form: &NormalForm, assignment: &[Proto]) -> Result<Bytes, AllocError>
    ensures { IfOk result (λ text. text ≡ slot_lines form.now.hosts 0 form.now.slots assignment.now) }
{
    let mut text = Bytes::new(alloc);
    for (number, (slot, protocol)) in form.slots.iter().zip(assignment.iter()).enumerate() {
        push_slot(&mut text, &form.hosts, number as u64, slot, *protocol)?;
    }
    Ok(text)
}

/// Puts the line of a slot at the end.
fn push_slot(
    text: &mut Bytes,
    hosts: &Names,
    number: u64,
    slot: &Slot,
    protocol: Proto,
) -> Result<(), AllocError>
    ensures { OnOk result (text.new ≡ text.old ++ choice_line hosts.now number slot.now protocol) }
{
    text.extend_from_slice(Buffer::new().format(number).as_bytes())?;
    text.extend_from_slice(b" ")?;
    text.extend_from_slice(slot.name.as_slice())?;
    text.extend_from_slice(b" ")?;
    push_protocol(text, hosts, protocol)?;
    text.extend_from_slice(b"\n")
}

/// Puts a protocol at the end: its word and the names of its hosts.
pub fn push_protocol(text: &mut Bytes, hosts: &Names, protocol: Proto) -> Result<(), AllocError>
    ensures { OnOk result (text.new ≡ text.old ++ protocol_text hosts.now protocol) }
{
    match protocol {
        Proto::Local(host) => {
            text.extend_from_slice(b"Local(")?;
            text.extend_from_slice(name_of(hosts, usize::from(host.0)))?;
        }
        Proto::Rep(set) => {
            text.extend_from_slice(b"Rep(")?;
            push_members(text, hosts, b",", set.bits)?;
        }
        Proto::Commit(prover, verifier) => push_pair(text, hosts, b"Commit(", prover, verifier)?,
        Proto::Add(first, second) => push_pair(text, hosts, b"Add(", first, second)?,
        Proto::Xor(first, second) => push_pair(text, hosts, b"Xor(", first, second)?,
    }
    text.push(b')')
}

/// Puts a word and the names of two hosts at the end.
fn push_pair(
    text: &mut Bytes,
    hosts: &Names,
    word: &[u8],
    first: HostId,
    second: HostId,
) -> Result<(), AllocError>
    ensures { OnOk result (text.new ≡ text.old ++ pair_text hosts.now word.now first second) }
{
    text.extend_from_slice(word)?;
    text.extend_from_slice(name_of(hosts, usize::from(first.0)))?;
    text.push(b',')?;
    text.extend_from_slice(name_of(hosts, usize::from(second.0)))
}

/// Puts the line of a cost at the end.
fn push_cost(text: &mut Bytes, cost: u64) -> Result<(), AllocError>
    ensures { OnOk result (text.new ≡ text.old ++ cost_line cost) }
{
    text.extend_from_slice(b"cost ")?;
    text.extend_from_slice(Buffer::new().format(cost).as_bytes())?;
    text.extend_from_slice(b"\n")
}
