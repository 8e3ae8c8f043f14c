//! Parts of the sentence.

ghost use Rattle.std.specs.Prelude.{◌≡◌, IfOk};
ghost use Rattle.vd_diag_terminal.specs.Sentences as sentences;

use itoa::Buffer;
use std::alloc::{AllocError, Global};
use vd_base::{Bytes, Names, SlotId};
use vd_core::NormalForm;
use vd_diag::three;
use vd_formula::Label;
use vd_report::formula_text;

/// A label as `labels` prints it, without its brackets.
fn label_text(alloc: Global, names: &Names, label: &Label) -> Result<Bytes, AllocError>
    ensures { IfOk result (λ text. text ≡ sentences.label_text names.now label.now) }
{
    let conf = formula_text(alloc, names, &label.conf)?;
    let integ = formula_text(alloc, names, &label.integ)?;
    three(alloc, conf.as_slice(), b" ; ", integ.as_slice())
}

/// The number and the name of a slot.
fn slot_text(alloc: Global, number: usize, name: &[u8]) -> Result<Bytes, AllocError>
    ensures { IfOk result (λ text. text ≡ sentences.slot_text number name.now) }
{
    let mut buffer = Buffer::new();
    let number = buffer.format(number as u64).as_bytes();
    let slot = three(alloc, b"slot ", number, b" `")?;
    three(alloc, slot.as_slice(), name, b"`")
}

/// What is said of a slot with this number, name and label that has no candidate.
pub(crate) fn bare_sentence(
    alloc: Global,
    names: &Names,
    number: usize,
    name: &[u8],
    label: &Label,
) -> Result<Bytes, AllocError>
    ensures { IfOk result (λ text. text ≡ sentences.bare_sentence names.now number name.now label.now) }
{
    let slot = slot_text(alloc, number, name)?;
    let label = label_text(alloc, names, label)?;
    let labelled = three(
        alloc,
        slot.as_slice(),
        b" has the label {",
        label.as_slice(),
    )?;
    three(
        alloc,
        labelled.as_slice(),
        b"}, and no protocol that can make it ",
        b"has the authority of this label",
    )
}

/// The name of the slot with this number; empty where there is none.
pub(crate) fn slot_name(form: &NormalForm, number: usize) -> &[u8]
    ensures { result.now ≡ sentences.slot_name form.now number }
{
    match form.slots.as_slice().get(number) {
        Some(slot) => slot.name.as_slice(),
        None => &[],
    }
}

/// Where in the source the slot with this number is made; 0 where there is none.
pub(crate) fn slot_offset(form: &NormalForm, number: usize) -> u32
    ensures { result ≡ sentences.slot_offset form.now number }
{
    match form.slots.as_slice().get(number) {
        Some(slot) => slot.offset,
        None => 0,
    }
}

/// The later one of two offsets.
pub(crate) fn later(first: u32, other: u32) -> u32
    ensures { result ≡ sentences.later first other }
{
    if first < other { other } else { first }
}

/// The later one of the places of two slots.
pub(crate) fn later_slot(form: &NormalForm, first: SlotId, other: SlotId) -> u32
    ensures { result ≡ sentences.later_slot form.now first other }
{
    later(
        slot_offset(form, usize::from(first.0)),
        slot_offset(form, usize::from(other.0)),
    )
}
