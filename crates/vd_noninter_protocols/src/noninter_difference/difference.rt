//! The first place at which what a host knows of two inputs differs.

ghost use Rattle.std.specs.Prelude.{◌≡◌, ◌++◌, IfOk, OnOk, replicate, length};
ghost use Rattle.vd_constraints.specs.declared.labels.Labels.{Labels};
ghost use Rattle.vd_noninter_protocols.specs.Difference.{IsDifference, filled, first_difference as first_place, known_beside, words_of as inputs_at};

use crate::noninter_difference::listener::Listener;
use crate::noninter_difference::run::heard_words;
use std::alloc::{AllocError, Global};
use vd_base::{HostId, Inputs, Items, Words};
use vd_core::NormalForm;

/// The first place at which the lists hold different words, or one of them has ended.
pub(crate) fn first_difference(first: &[u32], second: &[u32]) -> Option<usize>
    ensures { result ≡ first_place first.now second.now }
{
    for at in 0..first.len() {
        if at >= second.len() || first[at] != second[at] {
            return Some(at);
        }
    }
    if first.len() < second.len() {
        Some(first.len())
    } else {
        None
    }
}

/// The first place at which what the host knows differs: its inputs, the shorter list followed by zeros up to the longer one,
/// and then the clear words that come to it. There is none where it knows the same of both.
///
/// It fails only where memory runs out.
pub fn view_difference(
    alloc: Global,
    program: &NormalForm,
    listener: &Listener,
    first: &Inputs,
    second: &Inputs,
) -> Result<Option<usize>, AllocError>
    ensures { IfOk result (λ place. IsDifference program.now listener.now first.now second.now place) }
{
    let known = known_beside(alloc, program, listener, second, first)?;
    let known_too = known_beside(alloc, program, listener, first, second)?;
    Ok(first_difference(known.as_slice(), known_too.as_slice()))
}

/// What the host knows of inputs, as it is compared with others.
fn known_beside(
    alloc: Global,
    program: &NormalForm,
    listener: &Listener,
    other: &Inputs,
    inputs: &Inputs,
) -> Result<Words, AllocError>
    ensures { let x = listener.now in IfOk result (λ words. (l : Labels) →
        words ≡ known_beside program.now l x.protocols x.host other.now inputs.now) }
{
    let host = listener.host();
    let mut known = filled(alloc, inputs_of(other, host).len(), inputs_of(inputs, host))?;
    let heard = heard_words(alloc, program, listener, inputs)?;
    known.append(heard)?;
    Ok(known)
}

/// The inputs of a host.
fn inputs_of(inputs: &Inputs, host: HostId) -> &[u32]
    ensures { result.now ≡ inputs_at inputs.now host }
{
    match inputs.as_slice().get(usize::from(host.0)) {
        Some(words) => words.as_slice(),
        None => &[],
    }
}

/// The words, followed by zeros up to a length.
fn filled(alloc: Global, len: usize, words: &[u32]) -> Result<Words, AllocError>
    ensures { IfOk result (λ all. all ≡ filled len words.now) }
{
    let mut all = Items::from_slice(alloc, words)?;
    for _ in 0..len.saturating_sub(words.len()) {
        all.push(0)?;
    }
    Ok(all)
}
