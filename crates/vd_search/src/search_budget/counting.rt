//! The number of prefixes within a threshold, down to a depth.

ghost use Rattle.std.specs.Prelude.{◌≡◌, ◌+◌, ◌≤◌, ◌<◌, false, length};
ghost use Rattle.vd_search.specs.Passes.{count_at};

use crate::Limits;
use vd_search_tree::Prefixes;

/// Whether no choice more is made: the list is whole, or the prefix deep enough.
fn is_last<P: Prefixes>(prefix: &P, deepest: u32) -> bool
    ensures { result ≡ false → length (P.path prefix.now) < (P.tree prefix.now).slots }
{
    let depth = prefix.depth();
    depth >= prefix.slots() || depth >= deepest
}

/// So many, and the prefixes that begin so and are within the threshold, of at most so many choices: as far as these are no more
/// than one above the budget.
pub(crate) fn count_on<P: Prefixes>(
    prefix: &mut P,
    limits: &Limits,
    deepest: u32,
    counted: u32,
) -> u32
    requires budget { limits.now.budget < 4294967295 }
    requires counted { counted ≤ limits.now.budget + 1 }
    ensures tree { P.tree prefix.new ≡ P.tree prefix.old }
    ensures path { P.path prefix.new ≡ P.path prefix.old }
    ensures few { result ≤ limits.now.budget + 1 }
    ensures counted { result ≤ counted + count_at (P.tree prefix.old) limits.now.most (P.path prefix.old) }
{
    if counted > limits.budget {
        return counted;
    }
    if !prefix.is_valid() {
        return counted;
    }
    let bound = prefix.bound();
    if bound > limits.most {
        return counted;
    }
    let mut sum = counted + 1;
    if is_last(prefix, deepest) {
        return sum;
    }
    for choice in 0..prefix.choices() {
        prefix.enter(choice);
        sum = count_on(prefix, limits, deepest, sum);
        prefix.leave();
    }
    sum
}
