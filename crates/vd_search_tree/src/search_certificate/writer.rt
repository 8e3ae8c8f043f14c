//! The text of certificates.

ghost use Rattle.std.specs.Prelude.{◌≡◌, ◌++◌, [], ◌∷◌, OnOk, IfOk, decimal, codes, flat_map};
ghost use Rattle.vd_search_tree.specs.Texts.{claim_text, cost_text, empty_text, heading, letter, marks_text, shift_text, shifts_text, sign, text_of};

use crate::Shift;
use crate::search_certificate::certificate::{Certificate, Mark};
use itoa::Buffer;
use std::alloc::{AllocError, Global};
use vd_base::Bytes;

/// The text of a certificate.
pub(crate) fn write_certificate(
    alloc: Global,
    certificate: &Certificate,
) -> Result<Bytes, AllocError>
    ensures { IfOk result (λ text. text ≡ text_of certificate.now) }
{
    let mut text = Bytes::new(alloc);
    push_claim(
        &mut text,
        certificate.cost,
        certificate.by_arcs,
        certificate.shifts.as_slice(),
    )?;
    push_marks(&mut text, certificate.marks.as_slice())?;
    Ok(text)
}

/// Puts the lines before the marks at the end.
fn push_claim(
    text: &mut Bytes,
    cost: Option<u32>,
    by_arcs: bool,
    shifts: &[Shift],
) -> Result<(), AllocError>
    ensures { OnOk result (text.new ≡ text.old ++ claim_text cost by_arcs shifts.now) }
{
    match cost {
        None => push_empty(text, by_arcs),
        Some(cost) => push_bounded(text, cost, by_arcs, shifts),
    }
}

/// Puts the lines of the claim that there is no list at the end.
fn push_empty(text: &mut Bytes, by_arcs: bool) -> Result<(), AllocError>
    ensures { OnOk result (text.new ≡ text.old ++ empty_text by_arcs) }
{
    if by_arcs {
        text.extend_from_slice(b"viaduct-cert 3\nempty\n")
    } else {
        text.extend_from_slice(b"viaduct-cert 1\nempty\n")
    }
}

/// Puts the lines of a cost at the end, in a further form where there are shifts.
#[tactic(auto, using(crate::proofs::Forms::first_form, crate::proofs::Forms::further_form))]
fn push_bounded(
    text: &mut Bytes,
    cost: u32,
    by_arcs: bool,
    shifts: &[Shift],
) -> Result<(), AllocError>
    ensures { OnOk result (text.new ≡ text.old ++ claim_text (Some cost) by_arcs shifts.now) }
{
    if shifts.is_empty() {
        push_first(text, cost)
    } else {
        push_further(text, cost, by_arcs, shifts)
    }
}

/// Puts the lines of the first form at the end.
fn push_first(text: &mut Bytes, cost: u32) -> Result<(), AllocError>
    ensures { OnOk result (text.new ≡ text.old ++ (codes "viaduct-cert 1\n" ++ cost_text cost)) }
{
    text.extend_from_slice(b"viaduct-cert 1\n")?;
    push_cost(text, cost)
}

/// Puts the lines of the second form at the end, or those of the third, whose shifts name arcs.
fn push_further(
    text: &mut Bytes,
    cost: u32,
    by_arcs: bool,
    shifts: &[Shift],
) -> Result<(), AllocError>
    ensures { OnOk result (text.new ≡ text.old ++ (heading by_arcs ++ cost_text cost ++ shifts_text shifts.now)) }
{
    push_heading(text, by_arcs)?;
    push_cost(text, cost)?;
    push_shifts(text, shifts)
}

/// Puts the first line of the second form at the end, or that of the third.
fn push_heading(text: &mut Bytes, by_arcs: bool) -> Result<(), AllocError>
    ensures { OnOk result (text.new ≡ text.old ++ heading by_arcs) }
{
    if by_arcs {
        text.extend_from_slice(b"viaduct-cert 3\n")
    } else {
        text.extend_from_slice(b"viaduct-cert 2\n")
    }
}

/// Puts the line of a cost at the end.
fn push_cost(text: &mut Bytes, cost: u32) -> Result<(), AllocError>
    ensures { OnOk result (text.new ≡ text.old ++ cost_text cost) }
{
    text.extend_from_slice(b"cost ")?;
    push_number(text, u64::from(cost))?;
    text.extend_from_slice(b"\n")
}

/// Puts the number of the shifts and the line of each at the end.
fn push_shifts(text: &mut Bytes, shifts: &[Shift]) -> Result<(), AllocError>
    ensures { OnOk result (text.new ≡ text.old ++ shifts_text shifts.now) }
{
    text.extend_from_slice(b"shifts ")?;
    push_number(text, shifts.len() as u64)?;
    text.extend_from_slice(b"\n")?;
    push_lines(text, shifts)
}

/// Puts the line of each shift at the end.
fn push_lines(text: &mut Bytes, shifts: &[Shift]) -> Result<(), AllocError>
    ensures { OnOk result (text.new ≡ text.old ++ flat_map shift_text shifts.now) }
{
    for shift in shifts {
        push_shift(text, shift)?;
    }
    Ok(())
}

/// Puts the line of a shift at the end.
fn push_shift(text: &mut Bytes, shift: &Shift) -> Result<(), AllocError>
    ensures { OnOk result (text.new ≡ text.old ++ shift_text shift.now) }
{
    push_field(text, u64::from(shift.at))?;
    push_field(text, u64::from(shift.side))?;
    push_field(text, u64::from(shift.proto))?;
    push_signed(text, shift.add, shift.amount)
}

/// Puts a number and a blank at the end.
fn push_field(text: &mut Bytes, number: u64) -> Result<(), AllocError>
    ensures { OnOk result (text.new ≡ text.old ++ (decimal number ++ codes " ")) }
{
    push_number(text, number)?;
    text.extend_from_slice(b" ")
}

/// Puts a sign and an amount at the end, with which a line ends.
fn push_signed(text: &mut Bytes, add: bool, amount: u32) -> Result<(), AllocError>
    ensures { OnOk result (text.new ≡ text.old ++ (sign add ∷ codes " " ++ decimal amount ++ codes "\n")) }
{
    text.push(sign_of(add))?;
    text.extend_from_slice(b" ")?;
    push_number(text, u64::from(amount))?;
    text.extend_from_slice(b"\n")
}

/// The sign of a shift.
fn sign_of(add: bool) -> u8
    ensures { result ≡ sign add }
{
    if add { b'+' } else { b'-' }
}

/// Puts the line of marks at the end.
fn push_marks(text: &mut Bytes, marks: &[Mark]) -> Result<(), AllocError>
    ensures { OnOk result (text.new ≡ text.old ++ marks_text marks.now) }
{
    for mark in marks {
        text.push(letter_of(*mark))?;
    }
    text.extend_from_slice(b"\n")
}

/// The letter of a mark.
fn letter_of(mark: Mark) -> u8
    ensures { result ≡ letter mark }
{
    match mark {
        Mark::Expanded => b'E',
        Mark::Violated => b'V',
        Mark::Bounded => b'B',
        Mark::Best => b'L',
    }
}

/// Puts a number at the end.
fn push_number(text: &mut Bytes, number: u64) -> Result<(), AllocError>
    ensures { OnOk result (text.new ≡ text.old ++ decimal number) }
{
    text.extend_from_slice(Buffer::new().format(number).as_bytes())
}
