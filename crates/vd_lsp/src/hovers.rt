//! What is said of a name: what it stands for, and the least labels of what it names.

ghost use Rattle.std.specs.Prelude.{◌≡◌, ◌≤◌, ◌++◌, ℕ, List, Result, length, IfOk, OnOk};
ghost use Rattle.std.specs.List.{concat};
ghost use Rattle.vd_base.specs.Limits.{most_source_bytes};
ghost use Rattle.vd_cmd_labels.specs.Outcomes.{LabelOutcomes, TextOutcomes};
ghost use Rattle.vd_cmd_plan.specs.Plans.{Checks};
ghost use Rattle.vd_cmd_plan.specs.declared.status.Status.{Status as Outcome};
ghost use Rattle.vd_core.specs.Named.{HasNames};
ghost use Rattle.vd_lsp.specs.Hovers as hovers;
ghost use Rattle.vd_lsp.specs.Hovers.{AreLinesOf, IsHover, IsHoverOf, IsSaidOf};

use crate::faults::text_of;
use crate::names::{bytes_of, is_among as is_one, range_of, spelled};
use std::alloc::{AllocError, Global};
use vd_base::limits::SOURCE_BYTES;
use vd_base::{Bytes, Kind, Name, Names};
use vd_cmd_labels::{least_labels, normal_program, read_source, resolve_source};
use vd_cmd_plan::Status;
use vd_constraints::Labels;
use vd_core::{NormalForm, Program, Slot, Source, Written};
use vd_formula::Label;
use vd_lsp_messages::{Answer, Document};
use vd_lsp_names::{Declared, Role, Use};
use vd_report::formula_text;
use vd_resolve::Resolved;

/// Whether a slot is made by the statement at this offset, and has this name.
fn is_made_at(name: &[u8], statement: Option<u32>, slot: &Slot) -> bool
    ensures { result ≡ hovers.is_made_at name.now statement slot.now }
{
    match statement {
        Some(offset) => slot.name.as_slice() == name && slot.offset == offset,
        None => false,
    }
}

/// The name of a kind.
fn kind_text(kind: Kind) -> &'static [u8]
    ensures { result.now ≡ hovers.kind_text kind }
{
    match kind {
        Kind::Word => b"word",
        Kind::Bool => b"bool",
    }
}

/// Whether a label is written.
fn origin_text(label: &Option<Written>) -> &'static [u8]
    ensures { result.now ≡ hovers.origin_text label.now }
{
    match label {
        None => b", inferred\n",
        Some(_) => b", as written\n",
    }
}

/// The line of a slot: its kind, its least label, and whether a label is written.
fn slot_line(
    alloc: Global,
    principals: &Names,
    slot: &Slot,
    label: &Label,
) -> Result<Name, AllocError>
    ensures { IfOk result (λ line. line ≡ hovers.slot_line principals.now slot.now label.now) }
{
    let mut line = Bytes::new(alloc);
    let conf = formula_text(alloc, principals, &label.conf)?;
    let integ = formula_text(alloc, principals, &label.integ)?;
    line.extend_from_slice(kind_text(slot.kind))?;
    line.extend_from_slice(b" {")?;
    line.extend_from_slice(conf.as_slice())?;
    line.extend_from_slice(b" ; ")?;
    line.extend_from_slice(integ.as_slice())?;
    line.extend_from_slice(b"}")?;
    line.extend_from_slice(origin_text(&slot.label))?;
    Ok(line)
}

/// Adds a line, unless it is there.
fn push_line(lines: &mut Names, line: Name) -> Result<(), AllocError>
    ensures { OnOk result (lines.new ≡ hovers.with_line lines.old line) }
{
    if is_one(lines.as_slice(), line.as_slice()) {
        return Ok(());
    }
    lines.push(line)
}

/// Adds the line of a slot, if it has this name.
fn push_slot(
    alloc: Global,
    lines: &mut Names,
    name: &[u8],
    statement: Option<u32>,
    principals: &Names,
    slot: &Slot,
    label: &Label,
) -> Result<(), AllocError>
    ensures { OnOk result (lines.new ≡ hovers.with_slot principals.now name.now statement lines.old slot.now label.now) }
{
    if is_made_at(name, statement, slot) {
        let line = slot_line(alloc, principals, slot, label)?;
        push_line(lines, line)?;
    }
    Ok(())
}

/// A line for each other one of the slots of a name.
fn label_lines(
    alloc: Global,
    name: &[u8],
    statement: Option<u32>,
    form: &NormalForm,
    labels: &Labels,
) -> Result<Names, AllocError>
    ensures { IfOk result (λ lines. lines ≡ hovers.label_lines name.now statement form.now labels.now) }
{
    let mut lines = Names::new(alloc);
    let pairs = form.slots.iter().zip(labels.slots.iter());
    for (slot, label) in pairs {
        push_slot(
            alloc,
            &mut lines,
            name,
            statement,
            &form.principals,
            slot,
            label,
        )?;
    }
    Ok(lines)
}

/// The lines of a program, or the first check that fails.
#[tactic(auto, using(crate::proofs::SlotLines::program_given))]
fn program_lines(
    alloc: Global,
    name: &[u8],
    statement: Option<u32>,
    program: &Program,
) -> Result<Names, Status>
    ensures { (least : LabelOutcomes) → Checks (hovers.program_lines least name.now statement program.now) result }
{
    let labels = least_labels(alloc, program)?;
    let lines = label_lines(alloc, name, statement, program.form(), &labels)?;
    Ok(lines)
}

/// The lines of a source that meets every rule, or the first check that fails.
fn source_lines(
    alloc: Global,
    name: &[u8],
    statement: Option<u32>,
    source: Resolved,
) -> Result<Names, Status>
    ensures { (least : LabelOutcomes) → Checks (hovers.source_lines least name.now statement source) result }
{
    let program = normal_program(alloc, source)?;
    program_lines(alloc, name, statement, &program)
}

/// The lines of a tree, or why it has no labels.
fn tree_lines(
    alloc: Global,
    name: &[u8],
    statement: Option<u32>,
    tree: Source,
) -> Result<Names, Status>
    requires { HasNames tree }
    ensures { (least : LabelOutcomes) → Checks (hovers.tree_lines least name.now statement tree) result }
{
    let source = resolve_source(alloc, tree)?;
    source_lines(alloc, name, statement, source)
}

/// The lines of a text that is not too long, or why it has no labels.
fn short_lines(
    alloc: Global,
    name: &[u8],
    statement: Option<u32>,
    text: &[u8],
) -> Result<Names, Status>
    requires { length text.now ≤ most_source_bytes }
    ensures { (texts : TextOutcomes) (least : LabelOutcomes) (uri : List ℕ) → Checks
        (hovers.text_lines texts least uri text.now name.now statement) result }
{
    let tree = read_source(alloc, text)?;
    tree_lines(alloc, name, statement, tree)
}

/// The lines of a text whose check came to this status, which are none; there is none to tell where it wanted memory.
fn no_lines(alloc: Global, status: &Status) -> Result<Names, AllocError>
    ensures { IfOk result (hovers.IsNone status.now) }
{
    match status {
        Status::Memory => Err(AllocError),
        _ => Ok(Names::new(alloc)),
    }
}

/// The lines that were made, or none of a text that is refused.
fn given(alloc: Global, lines: Result<Names, Status>) -> Result<Names, AllocError>
    ensures { (wanted : Result (List (List ℕ)) Outcome) → Checks wanted lines → IfOk result (λ given. given ≡ hovers.given wanted) }
{
    match lines {
        Ok(lines) => Ok(lines),
        Err(status) => no_lines(alloc, &status),
    }
}

/// The lines of a name in a text with this name.
fn lines_of(
    alloc: Global,
    name: &[u8],
    statement: Option<u32>,
    uri: &str,
    text: &[u8],
) -> Result<Names, AllocError>
    ensures { IfOk result (AreLinesOf uri.now text.now name.now statement) }
{
    if text.len() > SOURCE_BYTES as usize {
        return Ok(Names::new(alloc));
    }
    given(alloc, short_lines(alloc, name, statement, text))
}

/// What a role is called.
fn role_text(role: Role) -> &'static [u8]
    ensures { result.now ≡ hovers.role_text role }
{
    match role {
        Role::Principal => b"principal ",
        Role::Host => b"host ",
        Role::Function => b"fun ",
        Role::Parameter => b"parameter ",
        Role::Constant => b"let ",
        Role::Turn => b"for ",
        Role::Variable => b"var ",
        Role::Array => b"array ",
    }
}

/// Adds these lines.
fn push_all(text: &mut Bytes, lines: &[Name]) -> Result<(), AllocError>
    ensures { OnOk result (text.new ≡ text.old ++ concat lines.now) }
{
    for line in lines {
        text.extend_from_slice(line.as_slice())?;
    }
    Ok(())
}

/// What is said of a name with these lines.
fn said_text(alloc: Global, role: Role, name: &[u8], lines: &[Name]) -> Result<Bytes, AllocError>
    ensures { IfOk result (λ text. text ≡ hovers.said_text role name.now lines.now) }
{
    let mut text = Bytes::new(alloc);
    text.extend_from_slice(role_text(role))?;
    text.extend_from_slice(name)?;
    text.extend_from_slice(b"\n")?;
    push_all(&mut text, lines)?;
    Ok(text)
}

/// What is said of what a name stands for.
fn said_of(
    alloc: Global,
    document: &Document,
    declared: Declared,
    name: Use,
) -> Result<Answer, AllocError>
    ensures { IfOk result (IsSaidOf document.now declared name) }
{
    let text = bytes_of(document);
    let word = spelled(text, declared.at);
    let lines = lines_of(alloc, word, declared.statement, document.uri.as_str(), text)?;
    let said = said_text(alloc, declared.role, word, lines.as_slice())?;
    let said = text_of(alloc, said.as_slice())?;
    Ok(Answer::Said(said, range_of(text, name.at)))
}

/// What is said of what a name stands for, if it stands for something.
fn hover_of(
    alloc: Global,
    document: &Document,
    declared: Option<Declared>,
    name: Use,
) -> Result<Answer, AllocError>
    ensures { IfOk result (IsHoverOf document.now declared name) }
{
    match declared {
        Some(declared) => said_of(alloc, document, declared, name),
        None => Ok(Answer::Nothing),
    }
}

/// What is said of a name, if there is one.
pub(crate) fn hover(
    alloc: Global,
    document: &Document,
    name: Option<Use>,
) -> Result<Answer, AllocError>
    ensures { IfOk result (IsHover document.now name) }
{
    match name {
        Some(name) => hover_of(alloc, document, name.declared, name),
        None => Ok(Answer::Nothing),
    }
}
