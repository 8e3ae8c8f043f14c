//! The remark on the first use, index or guard for which no places are left.

ghost use Rattle.std.specs.Prelude.{◌≡◌, IfOk, slice_index};
ghost use Rattle.vd_diag_terminal.specs.StuckSentences as spec;
ghost use Rattle.vd_space.specs.WellFormed.{AreProtocols};

use crate::diag_choice::branches::if_offsets;
use crate::diag_choice::sites::index_sites;
use crate::diag_choice::stuck::{Stuck, first_stuck};
use crate::diag_choice::texts::later_slot;
use crate::diag_flow::slot_phrase;
use std::alloc::{AllocError, Global};
use vd_base::{Bytes, Proto, SlotId};
use vd_core::NormalForm;
use vd_diag::{Remark, no_assignment_sentence, three};
use vd_space::{Guard, Index, Problem, Use};

/// The offset with this number; 0 where there is none.
fn offset_at(offsets: &[u32], number: usize) -> u32
    ensures { result ≡ slice_index offsets.now number }
{
    match offsets.get(number) {
        Some(offset) => *offset,
        None => 0,
    }
}

/// What is said of a word that does not come to where another one is made.
fn use_sentence(alloc: Global, source: &[u8], target: &[u8]) -> Result<Bytes, AllocError>
    ensures { IfOk result (λ text. text ≡ spec.use_sentence source.now target.now) }
{
    let what = three(alloc, source, b" cannot come to where ", target)?;
    three(
        alloc,
        what.as_slice(),
        b" is made: two hosts share only words that one of them has; declassify it to both of them, ",
        b"or let its host split it into two words",
    )
}

/// What is said of an index that a host of its array may not read.
fn index_sentence(alloc: Global, index: &[u8], array: &[u8]) -> Result<Bytes, AllocError>
    ensures { IfOk result (λ text. text ≡ spec.index_sentence index.now array.now) }
{
    let what = three(alloc, index, b" is an index of ", array)?;
    three(
        alloc,
        what.as_slice(),
        b", and each host that keeps this must be allowed to read it; ",
        b"take the element in a loop over all of them by `mux`",
    )
}

/// What is said of a guard that a host of its branches may not read.
fn guard_sentence(alloc: Global, guard: &[u8], kept: &[u8]) -> Result<Bytes, AllocError>
    ensures { IfOk result (λ text. text ≡ spec.guard_sentence guard.now kept.now) }
{
    let what = three(alloc, kept, b" stands in a branch that goes by ", guard)?;
    three(
        alloc,
        what.as_slice(),
        b", and each host that keeps it must be allowed to read this; ",
        b"choose by `mux`, or declassify the guard",
    )
}

/// The remark on the whole file.
pub(crate) fn file_remark(alloc: Global) -> Result<Remark, AllocError>
    ensures { IfOk result (λ remark. remark ≡ spec.file_remark) }
{
    let sentence = Bytes::from_slice(alloc, no_assignment_sentence().as_bytes())?;
    Ok(Remark {
        offset: None,
        sentence,
    })
}

/// The remark on a use.
fn use_remark(alloc: Global, form: &NormalForm, u: &Use) -> Result<Remark, AllocError>
    ensures { IfOk result (λ remark. remark ≡ spec.use_remark form.now u.now) }
{
    let source = slot_phrase(alloc, form, u.source)?;
    let target = slot_phrase(alloc, form, u.target)?;
    let sentence = use_sentence(alloc, source.as_slice(), target.as_slice())?;
    Ok(Remark {
        offset: Some(later_slot(form, u.source, u.target)),
        sentence,
    })
}

/// The remark on the index with this number.
fn index_remark(
    alloc: Global,
    form: &NormalForm,
    number: usize,
    index: &Index,
) -> Result<Remark, AllocError>
    ensures { IfOk result (λ remark. remark ≡ spec.index_remark form.now number index.now) }
{
    let sites = index_sites(alloc, form)?;
    let name = slot_phrase(alloc, form, index.index)?;
    let array = slot_phrase(alloc, form, index.array)?;
    let sentence = index_sentence(alloc, name.as_slice(), array.as_slice())?;
    Ok(Remark {
        offset: Some(offset_at(sites.as_slice(), number)),
        sentence,
    })
}

/// The remark on the guard with this number, and on a slot of its branches.
fn guard_remark(
    alloc: Global,
    form: &NormalForm,
    number: usize,
    kept: SlotId,
    guard: &Guard,
) -> Result<Remark, AllocError>
    ensures { IfOk result (λ remark. remark ≡ spec.guard_remark form.now number kept guard.now) }
{
    let offsets = if_offsets(alloc, form)?;
    let name = slot_phrase(alloc, form, guard.slot)?;
    let kept = slot_phrase(alloc, form, kept)?;
    let sentence = guard_sentence(alloc, name.as_slice(), kept.as_slice())?;
    Ok(Remark {
        offset: Some(offset_at(offsets.as_slice(), number)),
        sentence,
    })
}

/// The remark on the use with this number.
fn remark_on_use(
    alloc: Global,
    form: &NormalForm,
    problem: &Problem,
    number: usize,
) -> Result<Remark, AllocError>
    ensures { IfOk result (λ remark. remark ≡ spec.remark_on_use form.now problem.now number) }
{
    match problem.uses.as_slice().get(number) {
        Some(u) => use_remark(alloc, form, u),
        None => file_remark(alloc),
    }
}

/// The remark on the index with this number.
fn remark_on_index(
    alloc: Global,
    form: &NormalForm,
    problem: &Problem,
    number: usize,
) -> Result<Remark, AllocError>
    ensures { IfOk result (λ remark. remark ≡ spec.remark_on_index form.now problem.now number) }
{
    match problem.indexes.as_slice().get(number) {
        Some(index) => index_remark(alloc, form, number, index),
        None => file_remark(alloc),
    }
}

/// The remark on the guard with this number.
fn remark_on_guard(
    alloc: Global,
    form: &NormalForm,
    problem: &Problem,
    number: usize,
    kept: SlotId,
) -> Result<Remark, AllocError>
    ensures { IfOk result (λ remark. remark ≡ spec.remark_on_guard form.now problem.now number kept) }
{
    match problem.guards.as_slice().get(number) {
        Some(guard) => guard_remark(alloc, form, number, kept, guard),
        None => file_remark(alloc),
    }
}

/// The remark on where no choice can be valid.
fn remark_on_stuck(
    alloc: Global,
    form: &NormalForm,
    problem: &Problem,
    stuck: Stuck,
) -> Result<Remark, AllocError>
    ensures { IfOk result (λ remark. remark ≡ spec.remark_on_stuck form.now problem.now stuck) }
{
    match stuck {
        Stuck::Use(number) => remark_on_use(alloc, form, problem, number),
        Stuck::Index(number) => remark_on_index(alloc, form, problem, number),
        Stuck::Guard(number, kept) => remark_on_guard(alloc, form, problem, number, kept),
    }
}

/// The remark on the first use, else the first index, else the first guard for which no places are left; on the whole file where there
/// is none. `list` has all protocols.
pub(crate) fn stuck_remark(
    alloc: Global,
    form: &NormalForm,
    problem: &Problem,
    list: &[Proto],
) -> Result<Remark, AllocError>
    requires { AreProtocols problem.now list.now }
    ensures { IfOk result (λ remark. remark ≡ spec.stuck_remark form.now problem.now) }
{
    let found = first_stuck(alloc, problem, list)?;
    match found {
        Some(stuck) => remark_on_stuck(alloc, form, problem, stuck),
        None => file_remark(alloc),
    }
}
