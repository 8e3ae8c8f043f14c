//! Which registers the packets of a code open.

ghost use Rattle.std.specs.Prelude.{◌≡◌, ◌++◌, ◌+◌, ◌<◌, List, [], ◌∷◌, if◌then◌else◌, not, IfOk, OnOk, reverse};
ghost use Rattle.vd_reorder.specs.Packets as packets;

use crate::registers::{Row, any_holds, holds, is_among, read_by, written_by};
use std::alloc::{AllocError, Global};
use vd_base::Items;
use vd_execution::{Action, Binary, Instr, Reg};

/// Whether an instruction reads a register or writes to it. A mark of a block counts as if it did.
fn touches(register: Reg, instruction: &Instr) -> bool
    ensures { result ≡ packets.touches register instruction.now }
{
    match instruction {
        Instr::Do(action) => {
            any_holds(read_by(action), register) || any_holds(written_by(action), register)
        }
        Instr::Send(_, registers) => is_among(registers.as_slice(), register),
        Instr::Recv(_, registers) => is_among(registers.as_slice(), register),
        Instr::If(_) | Instr::Else | Instr::For(_, _) | Instr::End => true,
    }
}

/// What was done up to the latest instruction that touches a register, this one included.
#[tactic(auto, using(crate::proofs::Before::stops, crate::proofs::Before::goes_back))]
fn since(register: Reg, before: &[Instr]) -> &[Instr]
    ensures { reverse result.now ≡ packets.since register (reverse before.now) }
{
    let mut rest = before;
    'instructions: while let Some((last, earlier)) = rest.split_last() {
        if touches(register, last) {
            return rest;
        }
        rest = earlier;
    }
    rest
}

/// Whether what was done right behind these instructions is the latest of all that touches a register.
#[tactic(auto, using(crate::proofs::Secrets::same_place, crate::proofs::Secrets::no_place))]
fn is_latest(all: &[Instr], register: Reg, before: &[Instr]) -> bool
    ensures { result ≡ packets.is_latest (reverse all.now) register (reverse before.now) }
{
    match since(register, all).split_last() {
        Some((_, earlier)) => earlier.len() == before.len(),
        None => false,
    }
}

/// Whether an action that writes to a register puts one of the two words of a dealt product there, and nothing uses the product.
fn is_factor(all: &[Instr], register: Reg, action: &Action, before: &[Instr]) -> bool
    ensures { result ≡ packets.is_factor (reverse all.now) register action.now (reverse before.now) }
{
    match *action {
        Action::Triple(_, _, _, product) => {
            register.0 != product.0 && is_latest(all, product, before)
        }
        Action::Bits(_, _, _, product) => {
            register.0 != product.0 && is_latest(all, product, before)
        }
        _ => false,
    }
}

/// Whether an instruction that writes to a register puts one of the two words of a dealt product there, and nothing uses the product.
fn deals(all: &[Instr], register: Reg, instruction: &Instr, before: &[Instr]) -> bool
    ensures { result ≡ packets.deals (reverse all.now) register instruction.now (reverse before.now) }
{
    match instruction {
        Instr::Do(action) => is_factor(all, register, action, before),
        _ => false,
    }
}

/// Whether a register holds one of the two words of a dealt product, which nothing has used.
#[tactic(auto, using(crate::proofs::Before::latest_is, crate::proofs::Before::latest_none))]
fn is_dealt(all: &[Instr], before: &[Instr], register: Reg) -> bool
    ensures { result ≡ packets.latest (packets.deals (reverse all.now) register) (packets.since register (reverse before.now)) }
{
    match since(register, before).split_last() {
        Some((last, earlier)) => deals(all, register, last, earlier),
        None => false,
    }
}

/// Whether a register holds one of the two words of a dealt product, which nothing uses but what was done right behind these.
fn is_mask(all: &[Instr], before: &[Instr], register: Reg) -> bool
    ensures { result ≡ packets.is_mask (reverse all.now) (reverse before.now) register }
{
    is_dealt(all, before, register) && is_latest(all, register, before)
}

/// Whether an operation hides its first operand where the second is random.
fn hides(operation: Binary) -> bool
    ensures { result ≡ packets.hides operation }
{
    matches!(operation, Binary::Sub | Binary::Xor)
}

/// Whether an instruction draws an own word.
fn draws(instruction: &Instr) -> bool
    ensures { (before : List Instr) → result ≡ packets.draws instruction.now before }
{
    matches!(instruction, Instr::Do(Action::Own(_)))
}

/// Whether a register holds an own word that nothing has used.
#[tactic(auto, using(crate::proofs::Before::latest_is, crate::proofs::Before::latest_none))]
fn is_drawn(before: &[Instr], register: Reg) -> bool
    ensures { result ≡ packets.latest packets.draws (packets.since register (reverse before.now)) }
{
    match since(register, before).split_last() {
        Some((last, _)) => draws(last),
        None => false,
    }
}

/// Whether a register holds an own word, which nothing uses but what was done right behind these.
fn is_secret(all: &[Instr], before: &[Instr], register: Reg) -> bool
    ensures { result ≡ packets.is_secret (reverse all.now) (reverse before.now) register }
{
    is_drawn(before, register) && is_latest(all, register, before)
}

/// Whether so many registers in a row hold own words, which nothing uses but what was done right behind these.
#[tactic(auto, using(crate::proofs::Secrets::no_secret, crate::proofs::Secrets::next_secret, crate::proofs::Secrets::none_left))]
fn are_secret(all: &[Instr], before: &[Instr], first: u32, count: u32) -> bool
    requires { first + count < 4294967296 }
    ensures { result ≡ packets.are_secret (reverse all.now) (reverse before.now) first count }
{
    let mut register = first;
    let mut left = count;
    'registers: while left > 0 {
        if !is_secret(all, before, Reg(register)) {
            return false;
        }
        register += 1;
        left -= 1;
    }
    true
}

/// Whether eight registers hold own words, which nothing uses but what was done right behind these.
fn is_nonce(all: &[Instr], before: &[Instr], nonce: Reg) -> bool
    ensures { result ≡ packets.is_nonce (reverse all.now) (reverse before.now) nonce }
{
    nonce.0 < 4294967288 && are_secret(all, before, nonce.0, 8)
}

/// Whether what an action has left in a register tells nothing.
fn leaves_blind(all: &[Instr], register: Reg, action: &Action, before: &[Instr]) -> bool
    ensures { result ≡ packets.leaves_blind (reverse all.now) register action.now (reverse before.now) }
{
    match *action {
        Action::Own(_) => true,
        Action::Apply(operation, target, word, mask) => {
            register.0 == target.0
                && (hides(operation) && (word.0 != mask.0 && is_mask(all, before, mask)))
        }
        Action::Hash(first, nonce, _) => {
            holds(Row { first, count: 8 }, register) && is_nonce(all, before, nonce)
        }
        _ => false,
    }
}

/// Whether what an instruction has left in a register tells nothing.
fn left_blind(all: &[Instr], register: Reg, instruction: &Instr, before: &[Instr]) -> bool
    ensures { result ≡ packets.left_blind (reverse all.now) register instruction.now (reverse before.now) }
{
    match instruction {
        Instr::Do(action) => leaves_blind(all, register, action, before),
        _ => false,
    }
}

/// Whether a register's word tells nothing.
#[tactic(auto, using(crate::proofs::Before::latest_is, crate::proofs::Before::latest_none))]
fn is_blind(before: &[Instr], register: Reg) -> bool
    ensures { result ≡ packets.is_blind (reverse before.now) register }
{
    match since(register, before).split_last() {
        Some((last, earlier)) => left_blind(before, register, last, earlier),
        None => false,
    }
}

/// Puts a register at the end, if its word may tell something.
fn push_open(opened: &mut Items<Reg>, before: &[Instr], register: Reg) -> Result<(), AllocError>
    ensures { OnOk result
        (opened.new ≡ opened.old ++ (if not (packets.is_blind (reverse before.now) register) then register ∷ [] else [])) }
{
    if is_blind(before, register) {
        return Ok(());
    }
    opened.push(register)
}

/// Puts the registers that an instruction opens at the end.
#[tactic(auto, using(crate::proofs::Before::register_opened, crate::proofs::Before::registers_opened))]
fn push_opened(
    opened: &mut Items<Reg>,
    before: &[Instr],
    instruction: &Instr,
) -> Result<(), AllocError>
    ensures { OnOk result (opened.new ≡ opened.old ++ packets.opened (reverse before.now) instruction.now) }
{
    if let Instr::Send(_, registers) = instruction {
        let sent = registers.as_slice();
        for register in sent {
            push_open(opened, before, *register)?;
        }
    }
    Ok(())
}

/// The registers that the packets of a code open.
pub fn opened_in(alloc: Global, code: &[Instr]) -> Result<Items<Reg>, AllocError>
    ensures { IfOk result (λ opened. opened ≡ packets.opened_in [] code.now) }
{
    let mut opened = Items::new(alloc);
    for place in 0..code.len() {
        push_opened(&mut opened, &code[..place], &code[place])?;
    }
    Ok(opened)
}
