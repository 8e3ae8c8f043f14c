//! The sentence on a search that needs more than its budget.

ghost use Rattle.std.specs.Prelude.{◌≡◌, IfOk};
ghost use Rattle.vd_diag_terminal.specs.Spent.{TellsSearch, search_sentence as bounded_text};

use itoa::Buffer;
use std::alloc::{AllocError, Global};
use vd_base::Bytes;
use vd_diag::{spent_sentence, three};
use vd_space_api::Space;

/// What is said of a search that needs more than this budget, where no choice costs less than this bound.
fn bounded_sentence(alloc: Global, budget: u32, bound: u64) -> Result<Bytes, AllocError>
    ensures { IfOk result (λ text. text ≡ bounded_text budget bound) }
{
    let opened = spent_sentence(alloc, budget)?;
    let mut buffer = Buffer::new();
    let bound = buffer.format(bound).as_bytes();
    three(
        alloc,
        opened.as_slice(),
        b"; no choice costs less than ",
        bound,
    )
}

/// What is said of a search of this space that needs more than this budget: how many prefixes it opened, and what no choice
/// costs less than, unless no choice can be valid whatever the slots stand at.
pub fn search_sentence(alloc: Global, space: &Space, budget: u32) -> Result<Bytes, AllocError>
    ensures { IfOk result (TellsSearch space.now budget) }
{
    if space.prefix_valid(&[]) {
        bounded_sentence(alloc, budget, space.lower_bound(&[]))
    } else {
        spent_sentence(alloc, budget)
    }
}
