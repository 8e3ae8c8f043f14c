//! The words of a command line.

ghost use Rattle.std.specs.Prelude.{◌≡◌, option_map};
ghost use Rattle.std.specs.Str.{bytes_eq};
ghost use Rattle.vd_diag_terminal.specs.Files as files;

use vd_base::{Text, Texts};

/// The places of words that name files.
pub(crate) const SOURCE: usize = 1;

pub(crate) const PROGRAM: usize = 1;

pub(crate) const INPUTS: usize = 2;

pub(crate) const CERTIFICATE: usize = 2;

pub(crate) const DEAL: usize = 3;

pub(crate) const PREFIX: usize = 3;

pub(crate) const SCHEDULE: usize = 4;

/// The words with the places that they have in `host`: those of `host-within` have a limit besides, in the place of the command.
fn placed(words: &Texts) -> &[Text]
    ensures { result.now ≡ files.placed words.now }
{
    match words.as_slice() {
        [word, behind @ ..] if word.as_str() == "host-within" => behind,
        words => words,
    }
}

/// The word at this place, if there are so many.
pub(crate) fn word_at(words: &Texts, place: usize) -> Option<&str>
    ensures { option_map (λ word. word.now) result ≡ files.word_at words.now place }
{
    match placed(words).get(place) {
        Some(word) => Some(word.as_str()),
        None => None,
    }
}

/// The first word, which names the command; empty where there is none.
pub(crate) fn command(words: &Texts) -> &[u8]
    ensures { result.now ≡ files.command words.now }
{
    match words.as_slice().get(0) {
        Some(word) => word.as_str().as_bytes(),
        None => &[],
    }
}

/// Whether the words are those of this command.
pub(crate) fn is_command(words: &Texts, name: &[u8]) -> bool
    ensures { result ≡ bytes_eq (files.command words.now) name.now }
{
    command(words) == name
}
