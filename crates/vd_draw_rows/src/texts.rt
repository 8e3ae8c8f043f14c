//! What the rows of a drawing say.

ghost use Rattle.std.specs.Prelude.{◌≡◌, ◌++◌, map, OnOk, IfOk};
ghost use Rattle.vd_draw_rows.specs.Texts as texts;
ghost use Rattle.vd_report.specs.LabelLines.{all_behind, joined};

use itoa::Buffer;
use std::alloc::{AllocError, Global};
use vd_base::{Bytes, HostId, Names, Op, SlotId};
use vd_core::{Right, Slot};
use vd_report::name_of;

/// The name that the source gives a slot; `_` where there is none.
fn written_name(slots: &[Slot], slot: SlotId) -> &[u8]
    ensures { result.now ≡ texts.written_name slots.now slot }
{
    match slots.get(usize::from(slot.0)) {
        Some(found) => found.name.as_slice(),
        None => b"_",
    }
}

/// Puts a number at the end.
fn push_number(text: &mut Bytes, number: u32) -> Result<(), AllocError>
    ensures { OnOk result (text.new ≡ text.old ++ texts.number_text number) }
{
    text.extend_from_slice(Buffer::new().format(number).as_bytes())
}

/// Puts the name of a slot at the end: its number where the source gives none.
fn push_name(text: &mut Bytes, slots: &[Slot], slot: SlotId) -> Result<(), AllocError>
    ensures { OnOk result (text.new ≡ text.old ++ texts.slot_name slots.now slot) }
{
    let name = written_name(slots, slot);
    if name == b"_".as_slice() {
        text.push(b'#')?;
        push_number(text, u32::from(slot.0))
    } else {
        text.extend_from_slice(name)
    }
}

/// The name of a slot: its number where the source gives none.
pub fn slot_name(alloc: Global, slots: &[Slot], slot: SlotId) -> Result<Bytes, AllocError>
    ensures { IfOk result (λ text. text ≡ texts.slot_name slots.now slot) }
{
    let mut text = Bytes::new(alloc);
    push_name(&mut text, slots, slot)?;
    Ok(text)
}

/// What stands before the operands of an operation.
fn before(op: Op) -> &'static [u8]
    ensures { result.now ≡ texts.before op }
{
    match op {
        Op::Not => b"~",
        Op::Flip => b"!",
        Op::Min => b"min(",
        Op::Max => b"max(",
        Op::Mux => b"mux(",
        _ => b"",
    }
}

/// What stands between two operands.
fn between(op: Op) -> &'static [u8]
    ensures { result.now ≡ texts.between op }
{
    match op {
        Op::Add => b" + ",
        Op::Sub => b" - ",
        Op::Mul => b" * ",
        Op::Div => b" / ",
        Op::Rem => b" % ",
        Op::And => b" & ",
        Op::Or => b" | ",
        Op::Xor => b" ^ ",
        Op::Eq => b" == ",
        Op::Ne => b" != ",
        Op::Lt => b" < ",
        Op::Le => b" <= ",
        _ => b", ",
    }
}

/// Puts a word and a number at the end.
fn push_word_and_number(text: &mut Bytes, word: &[u8], number: u32) -> Result<(), AllocError>
    ensures { OnOk result (text.new ≡ text.old ++ (word.now ++ texts.number_text number)) }
{
    text.extend_from_slice(word)?;
    push_number(text, number)
}

/// Puts what stands behind the operands at the end.
fn push_behind(text: &mut Bytes, op: Op) -> Result<(), AllocError>
    ensures { OnOk result (text.new ≡ text.old ++ texts.behind op) }
{
    match op {
        Op::Scale(factor) => push_word_and_number(text, b" * ", factor),
        Op::Shl(bits) => push_word_and_number(text, b" << ", bits),
        Op::Shr(bits) => push_word_and_number(text, b" >> ", bits),
        Op::Min | Op::Max | Op::Mux => text.extend_from_slice(b")"),
        _ => Ok(()),
    }
}

/// Puts names at the end, with the separator between them.
fn push_names(
    text: &mut Bytes,
    slots: &[Slot],
    names: &[SlotId],
    separator: &[u8],
) -> Result<(), AllocError>
    ensures { OnOk result (text.new ≡ text.old ++ joined separator.now (map (texts.slot_name slots.now) names.now)) }
{
    match names.split_first() {
        None => Ok(()),
        Some((first, others)) => {
            push_name(text, slots, *first)?;
            push_more_names(text, slots, others, separator)
        }
    }
}

/// Puts further names at the end, each behind the separator.
fn push_more_names(
    text: &mut Bytes,
    slots: &[Slot],
    names: &[SlotId],
    separator: &[u8],
) -> Result<(), AllocError>
    ensures { OnOk result (text.new ≡ text.old ++ all_behind separator.now (map (texts.slot_name slots.now) names.now)) }
{
    for name in names {
        text.extend_from_slice(separator)?;
        push_name(text, slots, *name)?;
    }
    Ok(())
}

/// Puts an operation on slots at the end.
fn push_applied(
    text: &mut Bytes,
    slots: &[Slot],
    op: Op,
    operands: &[SlotId],
) -> Result<(), AllocError>
    ensures { OnOk result (text.new ≡ text.old ++ texts.applied_text slots.now op operands.now) }
{
    text.extend_from_slice(before(op))?;
    push_names(text, slots, operands, between(op))?;
    push_behind(text, op)
}

/// Puts a word and the name of a slot at the end.
fn push_word_and_name(
    text: &mut Bytes,
    slots: &[Slot],
    word: &[u8],
    slot: SlotId,
) -> Result<(), AllocError>
    ensures { OnOk result (text.new ≡ text.old ++ (word.now ++ texts.slot_name slots.now slot)) }
{
    text.extend_from_slice(word)?;
    push_name(text, slots, slot)
}

/// Puts an element of an array at the end.
fn push_element(
    text: &mut Bytes,
    slots: &[Slot],
    array: SlotId,
    index: SlotId,
) -> Result<(), AllocError>
    ensures { OnOk result (text.new ≡ text.old ++ texts.element_text slots.now array index) }
{
    push_name(text, slots, array)?;
    text.extend_from_slice(b"[")?;
    push_name(text, slots, index)?;
    text.extend_from_slice(b"]")
}

/// Puts an input of a host at the end.
fn push_input(text: &mut Bytes, hosts: &Names, host: HostId) -> Result<(), AllocError>
    ensures { OnOk result (text.new ≡ text.old ++ texts.input_text hosts.now host) }
{
    text.extend_from_slice(b"input(")?;
    text.extend_from_slice(name_of(hosts, usize::from(host.0)))?;
    text.extend_from_slice(b")")
}

/// What stands before a word that is declassified.
#[tactic(auto, unfolding(crate::specs::Texts::declassify_word))]
fn declassify_word() -> &'static [u8]
    ensures { result.now ≡ texts.declassify_word }
{
    b"declassify "
}

/// Puts a right side at the end.
fn push_right(
    text: &mut Bytes,
    hosts: &Names,
    slots: &[Slot],
    right: &Right,
) -> Result<(), AllocError>
    ensures { OnOk result (text.new ≡ text.old ++ texts.right_text hosts.now slots.now right.now) }
{
    match right {
        Right::Lit(number) => push_number(text, *number),
        Right::Turn => text.extend_from_slice(b"turn"),
        Right::Copy(slot) => push_name(text, slots, *slot),
        Right::Load(slot) => push_name(text, slots, *slot),
        Right::Apply(op, operands) => push_applied(text, slots, *op, operands.as_slice()),
        Right::Input(host) => push_input(text, hosts, *host),
        Right::Declassify(slot, _) => push_word_and_name(text, slots, declassify_word(), *slot),
        Right::Endorse(slot, _) => push_word_and_name(text, slots, b"endorse ", *slot),
        Right::Get(array, index) => push_element(text, slots, *array, *index),
    }
}

/// Puts a binding at the end: the name of the slot and the right side.
pub(crate) fn push_binding(
    text: &mut Bytes,
    hosts: &Names,
    slots: &[Slot],
    slot: SlotId,
    right: &Right,
) -> Result<(), AllocError>
    ensures { OnOk result (text.new ≡ text.old ++ texts.binding_text hosts.now slots.now slot right.now) }
{
    push_name(text, slots, slot)?;
    text.extend_from_slice(b" = ")?;
    push_right(text, hosts, slots, right)
}

/// Puts a variable and its first word at the end.
pub(crate) fn push_variable(
    text: &mut Bytes,
    slots: &[Slot],
    variable: SlotId,
    value: SlotId,
) -> Result<(), AllocError>
    ensures { OnOk result (text.new ≡ text.old ++ texts.variable_text slots.now variable value) }
{
    text.extend_from_slice(b"var ")?;
    push_name(text, slots, variable)?;
    push_word_and_name(text, slots, b" := ", value)
}

/// Puts an array and how many words it has at the end.
pub(crate) fn push_array(
    text: &mut Bytes,
    slots: &[Slot],
    array: SlotId,
    cells: u32,
) -> Result<(), AllocError>
    ensures { OnOk result (text.new ≡ text.old ++ texts.array_text slots.now array cells) }
{
    text.extend_from_slice(b"array ")?;
    push_name(text, slots, array)?;
    push_word_and_number(text, b"[", cells)?;
    text.extend_from_slice(b"]")
}

/// Puts what is stored in a variable at the end.
pub(crate) fn push_store(
    text: &mut Bytes,
    slots: &[Slot],
    variable: SlotId,
    value: SlotId,
) -> Result<(), AllocError>
    ensures { OnOk result (text.new ≡ text.old ++ texts.store_text slots.now variable value) }
{
    push_name(text, slots, variable)?;
    push_word_and_name(text, slots, b" := ", value)
}

/// Puts what is stored in an array at the end.
pub(crate) fn push_put(
    text: &mut Bytes,
    slots: &[Slot],
    array: SlotId,
    index: SlotId,
    value: SlotId,
) -> Result<(), AllocError>
    ensures { OnOk result (text.new ≡ text.old ++ texts.put_text slots.now array index value) }
{
    push_element(text, slots, array, index)?;
    push_word_and_name(text, slots, b" := ", value)
}

/// Puts what is told to a host at the end.
pub(crate) fn push_output(
    text: &mut Bytes,
    hosts: &Names,
    slots: &[Slot],
    value: SlotId,
    host: HostId,
) -> Result<(), AllocError>
    ensures { OnOk result (text.new ≡ text.old ++ texts.output_text hosts.now slots.now value host) }
{
    text.extend_from_slice(b"output ")?;
    push_name(text, slots, value)?;
    text.extend_from_slice(b" to ")?;
    text.extend_from_slice(name_of(hosts, usize::from(host.0)))
}

/// Puts the guard of a branch at the end.
pub(crate) fn push_branch(text: &mut Bytes, slots: &[Slot], guard: SlotId) -> Result<(), AllocError>
    ensures { OnOk result (text.new ≡ text.old ++ texts.branch_text slots.now guard) }
{
    text.extend_from_slice(b"if ")?;
    push_name(text, slots, guard)
}

/// Puts how often a loop is done at the end.
pub(crate) fn push_loop(text: &mut Bytes, count: u32) -> Result<(), AllocError>
    ensures { OnOk result (text.new ≡ text.old ++ texts.loop_text count) }
{
    push_word_and_number(text, b"", count)?;
    text.extend_from_slice(b" times")
}
