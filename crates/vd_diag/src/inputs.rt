//! What is wrong with the token that cannot stand where it stands in an inputs file.

ghost use Rattle.std.specs.Prelude.{◌≡◌, [], take};
ghost use Rattle.vd_diag.specs.Inputs as inputs;
ghost use Rattle.vd_diag.specs.Parts.{in_table as table_entry};

use crate::tables::in_table;
use vd_base::{digits_len, is_digit, is_letter, is_numeral, number, word_len};

/// The bytes with which some editors begin a file.
const BYTE_ORDER_MARK: &[u8] = b"\xef\xbb\xbf";

/// What is said of a token that is no word.
const MARKS: [(&[u8], &[u8]); 7] = [
    (b"", b"the file ends where a colon is wanted"),
    (b".", b"a number has no fraction"),
    (b"-", b"a number has no sign"),
    (b"+", b"a number has no sign"),
    (b",", b"blanks or ends of lines part numbers, and no commas"),
    (b":", b"a colon stands behind the name of a host alone"),
    (
        b"\xef\xbb\xbf",
        b"the file begins with a byte-order mark, which an inputs file may not have",
    ),
];

/// The first bytes of a text, as far as there are so many.
#[tactic(auto, using(std::proofs::lemmas::List::take_min))]
fn first_bytes(text: &[u8], count: usize) -> &[u8]
    ensures { result.now ≡ take count text.now }
{
    &text[..count.min(text.len())]
}

/// A byte-order mark or one byte.
fn mark_of(text: &[u8]) -> &[u8]
    ensures { result.now ≡ inputs.token_of [] text.now }
{
    if first_bytes(text, 3) == BYTE_ORDER_MARK {
        first_bytes(text, 3)
    } else {
        first_bytes(text, 1)
    }
}

/// The token that stands at an offset: a word, a byte-order mark or one byte; nothing at the end.
#[tactic(auto, using(std::proofs::lemmas::List::drop_min))]
pub fn token_at(bytes: &[u8], offset: u32) -> &[u8]
    ensures { result.now ≡ inputs.token_at bytes.now offset }
{
    let text = &bytes[(offset as usize).min(bytes.len())..];
    match &text[..word_len(text)] {
        [] => mark_of(text),
        word => word,
    }
}

/// What is said of digits that cannot stand where they stand.
fn digits_sentence(digits: &[u8]) -> &'static [u8]
    ensures { result.now ≡ inputs.digits_sentence digits.now }
{
    if !is_numeral(digits) {
        b"a number has no zeros in front"
    } else if number(digits).is_some() {
        b"no number can stand here: numbers stand behind the name of a host and a colon, and a host has at most 65536"
    } else {
        b"a number is at most 4294967295"
    }
}

/// What is said of a token that is no word.
#[tactic(auto, unfolding(crate::specs::Inputs::marks_table, crate::specs::Inputs::other_mark))]
fn mark_sentence(token: &[u8]) -> &'static [u8]
    ensures { result.now ≡ table_entry inputs.marks_table token.now inputs.other_mark }
{
    in_table(
        &MARKS,
        token,
        b"neither a number nor the name of a host begins so",
    )
}

/// What is wrong with a token that cannot stand where it stands in an inputs file. The token itself is not said.
pub fn inputs_sentence(token: &[u8]) -> &'static [u8]
    ensures { result.now ≡ inputs.inputs_sentence token.now }
{
    match token {
        [] => mark_sentence(token),
        [first, ..] => {
            if is_digit(*first) {
                digits_sentence(&token[..digits_len(token)])
            } else if is_letter(*first) {
                b"this word cannot stand here: each host has one section at most, which begins with its name and a colon"
            } else {
                mark_sentence(token)
            }
        }
    }
}
