//! The names in sight, with what each of them holds.

ghost use Rattle.std.specs.Prelude.{◌≡◌, IfOk};
ghost use Rattle.vd_base.specs.Names.{at_name, bound, changed};
ghost use Rattle.vd_semantics.specs.declared.held.Held.TheVariants.{Bound};
ghost use Rattle.vd_semantics.specs.SourceMeaning.{held_word, held_element, store_word, store_element, parameter_names};

use crate::held::Held;
use crate::stores::set_element;
use std::alloc::{AllocError, Global};
use vd_base::Scope;
use vd_core::Parameter;

/// The word that a name holds, or 0.
pub(crate) fn word(env: &Scope<Held>, name: &[u8]) -> u32
    ensures { result ≡ held_word (at_name env.now name.now) }
{
    match env.find(name) {
        Some(Held::Bound(word)) => *word,
        Some(Held::Cell(word)) => *word,
        Some(Held::Elements(_)) => 0,
        None => 0,
    }
}

/// The element of an array that a name holds, or 0.
pub(crate) fn element(env: &Scope<Held>, name: &[u8], index: u32) -> u32
    ensures { result ≡ held_element (at_name env.now name.now) index }
{
    match env.find(name) {
        Some(Held::Bound(_)) => 0,
        Some(Held::Cell(_)) => 0,
        Some(Held::Elements(words)) => words.as_slice().get(index as usize).copied().unwrap_or(0),
        None => 0,
    }
}

/// The parameters of a call, bound to its arguments.
pub(crate) fn bind(
    alloc: Global,
    parameters: &[Parameter],
    words: &[u32],
) -> Result<Scope<Held>, AllocError>
    ensures { IfOk result (λ env. env ≡ bound Bound (parameter_names parameters.now) words.now) }
{
    let mut env = Scope::new(alloc);
    let mut left = words;
    for parameter in parameters {
        match left.split_first() {
            None => return Ok(env),
            Some((word, rest)) => {
                env.add(parameter.name.name.as_slice(), Held::Bound(*word))?;
                left = rest;
            }
        }
    }
    Ok(env)
}

/// Stores a word in a variable.
pub(crate) fn store(env: &mut Scope<Held>, name: &[u8], word: u32)
    ensures { env.new ≡ changed (store_word word) name.now env.old }
{
    // What the name holds is taken out, changed and put back.
    match env.replace(name, Held::Bound(0)) {
        Some(mut held) => {
            hold_word(&mut held, word);
            env.replace(name, held);
        }
        None => {}
    }
}

/// Writes one word of an array.
pub(crate) fn write(env: &mut Scope<Held>, name: &[u8], index: u32, word: u32)
    ensures { env.new ≡ changed (store_element index word) name.now env.old }
{
    // What the name holds is taken out, changed and put back.
    match env.replace(name, Held::Bound(0)) {
        Some(mut held) => {
            hold_element(&mut held, index, word);
            env.replace(name, held);
        }
        None => {}
    }
}

fn hold_word(held: &mut Held, word: u32)
    ensures { held.new ≡ store_word word held.old }
{
    match held {
        Held::Bound(_) => {}
        Held::Cell(cell) => *cell = word,
        Held::Elements(_) => {}
    }
}

fn hold_element(held: &mut Held, index: u32, word: u32)
    ensures { held.new ≡ store_element index word held.old }
{
    match held {
        Held::Bound(_) => {}
        Held::Cell(_) => {}
        Held::Elements(words) => set_element(words, index, word),
    }
}
