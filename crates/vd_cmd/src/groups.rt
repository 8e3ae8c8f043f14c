//! The names of several hosts in one word.

ghost use Rattle.std.specs.Prelude.{◌≡◌, IfOk};
ghost use Rattle.vd_cmd.specs.Groups.{are_new, between_commas, is_among};

use std::alloc::{AllocError, Global};
use vd_base::Texts;

/// The texts between the commas of a word, in order.
pub(crate) fn between_commas(alloc: Global, word: &str) -> Result<Texts, AllocError>
    ensures { IfOk result (λ texts. texts ≡ between_commas word.now) }
{
    let mut list = Texts::new(alloc);
    let mut rest = word;
    'texts: while let Some((text, behind)) = rest.split_once(',') {
        list.push(text)?;
        rest = behind;
    }
    list.push(rest)?;
    Ok(list)
}

/// Whether a name is one of those between the commas of a word.
fn is_among(name: &str, word: &str) -> bool
    ensures { result ≡ is_among (between_commas word.now) name.now }
{
    let mut rest = word;
    'others: while let Some((other, behind)) = rest.split_once(',') {
        if other == name {
            return true;
        }
        rest = behind;
    }
    rest == name
}

/// Whether none of the names between the commas of a word is empty, or stands twice.
pub(crate) fn are_new(word: &str) -> bool
    ensures { result ≡ are_new (between_commas word.now) }
{
    let mut rest = word;
    'names: while let Some((name, behind)) = rest.split_once(',') {
        if name.is_empty() || is_among(name, behind) {
            return false;
        }
        rest = behind;
    }
    !rest.is_empty()
}
