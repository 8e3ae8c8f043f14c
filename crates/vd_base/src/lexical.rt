//! Names, numbers and white space of the texts that people write.

ghost use Rattle.std.specs.Prelude.{◌≡◌};
ghost use Rattle.std.specs.List.{list_all, prefix_len};
ghost use Rattle.vd_base.specs.Lexical as lexical;

/// White space is space, tab, CR and LF.
pub fn is_space(byte: u8) -> bool
    ensures { result ≡ lexical.is_space byte }
{
    matches!(byte, b' ' | b'\t' | b'\r' | b'\n')
}

/// A decimal digit.
pub fn is_digit(byte: u8) -> bool
    ensures { result ≡ lexical.is_digit byte }
{
    byte.is_ascii_digit()
}

/// A letter of ASCII or `_`, with which a name begins.
pub fn is_letter(byte: u8) -> bool
    ensures { result ≡ lexical.is_letter byte }
{
    matches!(byte, b'a'..=b'z' | b'A'..=b'Z' | b'_')
}

/// What may follow the first letter of a name.
pub(crate) fn is_word_byte(byte: u8) -> bool
    ensures { result ≡ lexical.is_word_byte byte }
{
    is_letter(byte) || is_digit(byte)
}

/// The bytes at the front that names and keywords are made of.
pub fn word_len(bytes: &[u8]) -> usize
    ensures { result ≡ prefix_len lexical.is_word_byte bytes.now }
{
    bytes.iter().take_while(|byte| is_word_byte(**byte)).count()
}

/// The digits at the front.
pub fn digits_len(bytes: &[u8]) -> usize
    ensures { result ≡ prefix_len lexical.is_digit bytes.now }
{
    bytes.iter().take_while(|byte| is_digit(**byte)).count()
}

/// The words that are no names.
const KEYWORDS: [&[u8]; 26] = [
    b"principals",
    b"host",
    b"fun",
    b"return",
    b"main",
    b"let",
    b"var",
    b"if",
    b"else",
    b"for",
    b"to",
    b"output",
    b"input",
    b"declassify",
    b"endorse",
    b"word",
    b"bool",
    b"true",
    b"false",
    b"min",
    b"max",
    b"mux",
    b"any",
    b"none",
    b"all",
    b"array",
];

/// Whether the word is a keyword.
pub fn is_keyword(word: &[u8]) -> bool
    ensures { result ≡ lexical.is_keyword word.now }
{
    KEYWORDS.contains(&word)
}

fn all_word_bytes(bytes: &[u8]) -> bool
    ensures { result ≡ list_all lexical.is_word_byte bytes.now }
{
    bytes.iter().all(|byte| is_word_byte(*byte))
}

fn all_digits(bytes: &[u8]) -> bool
    ensures { result ≡ list_all lexical.is_digit bytes.now }
{
    bytes.iter().all(|byte| is_digit(*byte))
}

/// Whether the text is a name: a letter, then letters and digits, and no keyword.
#[tactic(auto, using(crate::proofs::LexicalLemmas::name_at))]
pub fn is_name(text: &[u8]) -> bool
    ensures { result ≡ lexical.is_name text.now }
{
    match text {
        [] => false,
        [first, rest @ ..] => is_letter(*first) && all_word_bytes(rest) && !is_keyword(text),
    }
}

/// Whether the text is `0`, or digits of which the first is not `0`.
#[tactic(auto, using(crate::proofs::LexicalLemmas::numeral_at))]
pub fn is_numeral(text: &[u8]) -> bool
    ensures { result ≡ lexical.is_numeral text.now }
{
    match text {
        [] => false,
        [first, rest @ ..] => all_digits(text) && (rest.is_empty() || *first != b'0'),
    }
}

/// The value of a decimal number of at most 32 bits.
pub fn number(text: &[u8]) -> Option<u32>
    ensures { result ≡ lexical.number_of text.now }
{
    if !is_numeral(text) {
        return None;
    }
    let mut value: u32 = 0;
    for digit in text {
        value = value
            .checked_mul(10)?
            .checked_add(u32::from(*digit - b'0'))?;
    }
    Some(value)
}
