//! The items that hide other words as dealt ones hid the first.

ghost use Rattle.std.specs.Prelude.{◌≡◌, bit_xor};
ghost use Rattle.vd_views.specs.Items.{raised, sum_item, turned, xor_item, pair_item};
ghost use Rattle.vd_excuse_runs.specs.Sides.{pair_words, triple_words};
ghost use Rattle.vd_excuse_walk.specs.Items.{pair_of, triple_of};

use vd_tape::{PairItem, Triple};

/// The operands of a product, in one run.
#[derive(Clone, Copy, PartialEq, Eq)]
pub(crate) struct Factors {
    pub x: u32,
    pub y: u32,
}

/// A word that rises by what another rises.
pub(crate) fn raised(word: u32, from: u32, to: u32) -> u32
    ensures { result ≡ raised word from to }
{
    word.wrapping_add(to).wrapping_sub(from)
}

/// A word that is turned by the difference of two others.
fn turned(word: u32, from: u32, to: u32) -> u32
    ensures { result ≡ turned word from to }
{
    word ^ (from ^ to)
}

/// The triple that hides the second factors as `ours` hid the first, beside the other host's triple.
pub(crate) fn sum_item(ours: Triple, theirs: Triple, first: Factors, second: Factors) -> Triple
    ensures { result ≡ triple_of (sum_item (triple_words ours) (triple_words theirs) first.x second.x first.y second.y) }
{
    let a = raised(ours.a, first.x, second.x);
    let b = raised(ours.b, first.y, second.y);
    let product = a
        .wrapping_add(theirs.a)
        .wrapping_mul(b.wrapping_add(theirs.b));
    Triple {
        a,
        b,
        c: product.wrapping_sub(theirs.c),
    }
}

/// The triple of bits that hides the second factors as `ours` hid the first, beside the other host's triple.
pub(crate) fn xor_item(ours: Triple, theirs: Triple, first: Factors, second: Factors) -> Triple
    ensures { result ≡ triple_of (xor_item (triple_words ours) (triple_words theirs) first.x second.x first.y second.y) }
{
    let a = turned(ours.a, first.x, second.x);
    let b = turned(ours.b, first.y, second.y);
    Triple {
        a,
        b,
        c: ((a ^ theirs.a) & (b ^ theirs.b)) ^ theirs.c,
    }
}

/// The pair whose dealt word is this one, beside the other host's pair.
pub(crate) fn pair_item(dealt: u32, theirs: PairItem) -> PairItem
    ensures { result ≡ pair_of (pair_item dealt (pair_words theirs)) }
{
    PairItem {
        s: dealt.wrapping_sub(theirs.s),
        x: dealt ^ theirs.x,
    }
}
