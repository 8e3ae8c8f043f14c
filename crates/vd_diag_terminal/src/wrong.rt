//! Which word of a command line is wrong, by the form of its command.

ghost use Rattle.std.specs.Prelude.{◌≡◌, IfOk};
ghost use Rattle.vd_diag_terminal.specs.WrongWord as spec;

use itoa::Buffer;
use std::alloc::{AllocError, Global};
use vd_base::{Bytes, Text, Texts, is_numeral};
use vd_diag::{in_table, three};

/// What stands behind a command, a sign for each word: `f` is any word and `n` a number; `F` and `N` may be left out, and behind `*`
/// stand any.
const PATTERNS: [(&[u8], &[u8]); 22] = [
    (b"clear", b"ff"),
    (b"labels", b"f"),
    (b"choose", b"fN"),
    (b"draw", b"fN"),
    (b"reveals", b"fFN"),
    (b"certify", b"ff"),
    (b"compile", b"ffFN"),
    (b"needs", b"fFN"),
    (b"rounds", b"fN"),
    (b"column", b"fff*"),
    (b"deal", b"nnnnnff"),
    (b"replay", b"ffffFN"),
    (b"check", b"fff"),
    (b"host", b"fff*"),
    (b"host-within", b"nfff*"),
    (b"report", b"fffF"),
    (b"run", b"ffffn"),
    (b"excuse", b"ffffffN"),
    (b"depends", b"ff"),
    (b"influences", b"ff"),
    (b"gen", b"n"),
    (b"trial", b"n"),
];

/// The signs of the words behind a command; another sign of what is none.
#[tactic(auto, unfolding(crate::specs::WrongWord::patterns, crate::specs::WrongWord::no_pattern))]
fn pattern_of(word: &[u8]) -> &'static [u8]
    ensures { result.now ≡ spec.pattern_of word.now }
{
    in_table(&PATTERNS, word, b"?")
}

/// Whether the word of a sign may not be left out.
fn is_wanted(sign: u8) -> bool
    ensures { result ≡ spec.is_wanted sign }
{
    sign == b'f' || sign == b'n'
}

/// Whether a word may stand at a sign.
fn fits(sign: u8, word: &[u8]) -> bool
    ensures { result ≡ spec.fits sign word.now }
{
    let is_number = sign == b'n' || sign == b'N';
    !is_number || is_numeral(word)
}

/// That so many words are enough.
fn too_many(alloc: Global, number: usize) -> Result<Bytes, AllocError>
    ensures { IfOk result (λ text. text ≡ spec.too_many number) }
{
    let mut buffer = Buffer::new();
    let number = buffer.format(number as u64).as_bytes();
    three(
        alloc,
        b"word ",
        number,
        b" behind the command is one too many\n",
    )
}

/// That the word with this number is to be a number.
fn no_number(alloc: Global, number: usize) -> Result<Bytes, AllocError>
    ensures { IfOk result (λ text. text ≡ spec.no_number number) }
{
    let mut buffer = Buffer::new();
    let number = buffer.format(number as u64).as_bytes();
    three(
        alloc,
        b"word ",
        number,
        b" behind the command is to be a number\n",
    )
}

/// What is said where words end before this sign.
fn ended_at(alloc: Global, sign: u8) -> Result<Bytes, AllocError>
    ensures { IfOk result (λ text. text ≡ spec.ended_at sign) }
{
    if sign == b'?' {
        Bytes::from_slice(alloc, b"no command has this name\n")
    } else if is_wanted(sign) {
        Bytes::from_slice(alloc, b"a word is missing at the end\n")
    } else {
        Ok(Bytes::new(alloc))
    }
}

/// The number of the first of the words that are left, of so many with the command.
fn number_of(total: usize, words: &[Text]) -> usize
    ensures { result ≡ spec.number_of total words.now }
{
    total.saturating_sub(words.len())
}

/// What is said of the first of these words that does not fit its sign.
fn wrong_word(
    alloc: Global,
    total: usize,
    pattern: &[u8],
    words: &[Text],
) -> Result<Bytes, AllocError>
    ensures { IfOk result (λ text. text ≡ spec.wrong_word total pattern.now words.now) }
{
    match pattern {
        [] => match words {
            [] => Ok(Bytes::new(alloc)),
            _ => too_many(alloc, number_of(total, words)),
        },
        [sign, signs @ ..] => match words {
            [] => ended_at(alloc, *sign),
            [word, behind @ ..] => {
                if *sign == b'*' {
                    return Ok(Bytes::new(alloc));
                }
                if *sign == b'?' {
                    return Bytes::from_slice(alloc, b"no command has this name\n");
                }
                if fits(*sign, word.as_str().as_bytes()) {
                    return wrong_word(alloc, total, signs, behind);
                }
                no_number(alloc, number_of(total, words))
            }
        },
    }
}

/// What is said of the first word of a command line that is wrong; nothing where only a limit of a number is passed.
pub(crate) fn wrong_of(alloc: Global, words: &Texts) -> Result<Bytes, AllocError>
    ensures { IfOk result (λ text. text ≡ spec.wrong_of words.now) }
{
    match words.as_slice() {
        [] => Ok(Bytes::new(alloc)),
        [word, behind @ ..] => wrong_word(
            alloc,
            words.as_slice().len(),
            pattern_of(word.as_str().as_bytes()),
            behind,
        ),
    }
}
