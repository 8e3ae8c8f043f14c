//! Numbers of 32 bits are words: a fact of their type, which the clauses hand out. Nothing is computed here.

ghost use Rattle.std.specs.Prelude.{ℕ, ◌≡◌, ◌<◌, ◌^◌, nat_lt, slice_index, true};
ghost use Rattle.vd_base.specs.Words.{AreWords, InputsAreWords};

use crate::lists::Inputs;

/// A number of 32 bits is a word.
pub fn word_fits(word: u32)
    ensures below { word < 2 ^ 32 }
    ensures test { nat_lt word (2 ^ 32) ≡ true }
{
    let _ = word;
}

/// These are words.
pub fn words_fit(words: &[u32])
    ensures each { AreWords words.now }
    ensures at { (i : ℕ) → slice_index words.now i < 2 ^ 32 }
{
    for word in words {
        word_fits(*word);
    }
}

/// The inputs are words.
pub fn inputs_fit(inputs: &Inputs)
    ensures { InputsAreWords inputs.now }
{
    for words in inputs.as_slice() {
        words_fit(words.as_slice());
    }
}
