//! Inputs that reach for a run.

ghost use Rattle.std.specs.Prelude.{◌≡◌, IfOk, [], slice_index_or};
ghost use Rattle.vd_excuse.specs.Filling.{fill, filled, inputs_taken};

use std::alloc::{AllocError, Global};
use vd_base::{Inputs, Items, Words};
use vd_deal_needs::HostNeeds;

/// The inputs of all hosts, those of each followed by zeros up to as many as it takes at most.
pub(crate) fn filled(
    alloc: Global,
    inputs: &Inputs,
    needs: &[HostNeeds],
) -> Result<Inputs, AllocError>
    ensures { IfOk result (λ all. all ≡ filled inputs.now needs.now) }
{
    let mut all = Items::new(alloc);
    for host in 0..inputs.as_slice().len() {
        let words = fill(alloc, words_of(inputs, host), inputs_taken(needs, host))?;
        all.push(words)?;
    }
    Ok(all)
}

/// The words, followed by zeros up to a length.
fn fill(alloc: Global, words: &[u32], len: usize) -> Result<Words, AllocError>
    ensures { IfOk result (λ all. all ≡ fill words.now len) }
{
    let mut all = Items::from_slice(alloc, words)?;
    for _ in 0..len.saturating_sub(words.len()) {
        all.push(0)?;
    }
    Ok(all)
}

/// The inputs of a host.
fn words_of(inputs: &Inputs, host: usize) -> &[u32]
    ensures { result.now ≡ slice_index_or inputs.now host [] }
{
    match inputs.as_slice().get(host) {
        Some(words) => words.as_slice(),
        None => &[],
    }
}

/// How many inputs a host takes at most.
fn inputs_taken(needs: &[HostNeeds], host: usize) -> usize
    ensures { result ≡ inputs_taken needs.now host }
{
    match needs.get(host) {
        Some(taken) => taken.inputs as usize,
        None => 0,
    }
}
