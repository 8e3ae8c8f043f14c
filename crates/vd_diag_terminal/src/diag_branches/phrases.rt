//! What stands in the way of hiding a branch, in words.

ghost use Rattle.std.specs.Prelude.{◌≡◌, IfOk};
ghost use Rattle.vd_diag_terminal.specs.DiagBranchesPhrases as phrases;

use crate::diag_branches::barriers::Barrier;
use std::alloc::{AllocError, Global};
use vd_base::Bytes;

#[tactic(auto, unfolding(crate::specs::DiagBranchesPhrases::phrase))]
fn phrase(barrier: Barrier) -> &'static str
    ensures { result.now ≡ phrases.phrase barrier }
{
    match barrier {
        Barrier::Loop => "a loop in it; write the branch inside the loop",
        Barrier::Array => "an array in it; write its element outside, with what `mux` gives",
        Barrier::Input => "an input in it; take the input before the branch",
        Barrier::Output =>
            "an output in it; store what is told in a variable, and tell that behind the branch",
        Barrier::Declassify => "a `declassify` in it; declassify behind the branch",
        Barrier::Endorse => "an `endorse` in it; endorse before the branch or behind it",
    }
}

#[tactic(auto, unfolding(crate::specs::DiagBranchesPhrases::beginning))]
fn beginning() -> &'static str
    ensures { result.now ≡ phrases.beginning }
{
    "no host may read what this branch goes by, and it cannot be hidden for "
}

/// What is said of a branch with this barrier.
pub(crate) fn sentence(alloc: Global, barrier: Barrier) -> Result<Bytes, AllocError>
    ensures { IfOk result (λ bytes. bytes ≡ phrases.sentence barrier) }
{
    let mut bytes = Bytes::from_slice(alloc, beginning().as_bytes())?;
    bytes.extend_from_slice(phrase(barrier).as_bytes())?;
    Ok(bytes)
}
