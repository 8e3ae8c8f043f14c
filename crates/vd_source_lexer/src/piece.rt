//! What stands at the front of a text.

ghost use Rattle.std.specs.Prelude.{◌≡◌, ℕ, ◌<◌, ◌≤◌, length, nat_eq};
ghost use Rattle.std.specs.List.{find, prefix_len, starts_with};
ghost use Rattle.std.specs.Str.{bytes_eq};
ghost use Rattle.vd_source_lexer.specs.Tokens as tokens;
ghost use Rattle.vd_source_lexer.specs.Tokens.{keyword_or_name, symbol_piece};
ghost use Rattle.vd_source_lexer.specs.Tables.{entries};

use crate::token::TokenKind;
use vd_base::{digits_len, is_digit, is_letter, is_space, number, word_len};

/// The front of a text.
#[derive(Clone, Copy)]
pub enum Piece {
    /// White space or a comment of this many bytes.
    Blank(usize),
    /// A token of this kind, with its length and its value.
    Lexeme(TokenKind, usize, u32),
    /// A byte that starts no token.
    Bad,
}

const KEYWORDS: [(&[u8], TokenKind); 26] = [
    (b"principals", TokenKind::Principals),
    (b"host", TokenKind::Host),
    (b"fun", TokenKind::Fun),
    (b"return", TokenKind::Return),
    (b"main", TokenKind::Main),
    (b"let", TokenKind::Let),
    (b"var", TokenKind::Var),
    (b"if", TokenKind::If),
    (b"else", TokenKind::Else),
    (b"for", TokenKind::For),
    (b"to", TokenKind::To),
    (b"output", TokenKind::Output),
    (b"input", TokenKind::Input),
    (b"declassify", TokenKind::Declassify),
    (b"endorse", TokenKind::Endorse),
    (b"word", TokenKind::Word),
    (b"bool", TokenKind::Bool),
    (b"true", TokenKind::True),
    (b"false", TokenKind::False),
    (b"min", TokenKind::Min),
    (b"max", TokenKind::Max),
    (b"mux", TokenKind::Mux),
    (b"any", TokenKind::Any),
    (b"none", TokenKind::Nothing),
    (b"all", TokenKind::All),
    (b"array", TokenKind::Array),
];

/// The longest first.
const SYMBOLS: [(&[u8], TokenKind); 29] = [
    (b"==", TokenKind::EqualEqual),
    (b"!=", TokenKind::NotEqual),
    (b"<=", TokenKind::LessEqual),
    (b">=", TokenKind::GreaterEqual),
    (b"<<", TokenKind::ShiftLeft),
    (b">>", TokenKind::ShiftRight),
    (b":=", TokenKind::Assign),
    (b"{", TokenKind::OpenBrace),
    (b"}", TokenKind::CloseBrace),
    (b"(", TokenKind::OpenParen),
    (b")", TokenKind::CloseParen),
    (b"[", TokenKind::OpenBracket),
    (b"]", TokenKind::CloseBracket),
    (b";", TokenKind::Semicolon),
    (b":", TokenKind::Colon),
    (b",", TokenKind::Comma),
    (b"=", TokenKind::Equal),
    (b"+", TokenKind::Plus),
    (b"-", TokenKind::Minus),
    (b"*", TokenKind::Star),
    (b"/", TokenKind::Slash),
    (b"%", TokenKind::Percent),
    (b"&", TokenKind::Ampersand),
    (b"|", TokenKind::Pipe),
    (b"^", TokenKind::Caret),
    (b"!", TokenKind::Bang),
    (b"~", TokenKind::Tilde),
    (b"<", TokenKind::Less),
    (b">", TokenKind::Greater),
];

fn keyword_or_name_in(keywords: &[(&[u8], TokenKind)], word: &[u8]) -> TokenKind
    ensures { result ≡ keyword_or_name (find (λ keyword. bytes_eq keyword.0 word.now) (entries keywords.now)) }
{
    for (keyword, kind) in keywords {
        if *keyword == word {
            return *kind;
        }
    }
    TokenKind::Name
}

fn symbol_in(symbols: &[(&[u8], TokenKind)], text: &[u8]) -> Piece
    ensures { result ≡ symbol_piece (find (λ symbol. starts_with nat_eq text.now symbol.0) (entries symbols.now)) }
{
    for (symbol, kind) in symbols {
        if text.starts_with(*symbol) {
            return Piece::Lexeme(*kind, symbol.len(), 0);
        }
    }
    Piece::Bad
}

fn word_kind(word: &[u8]) -> TokenKind
    ensures { result ≡ tokens.word_kind word.now }
{
    keyword_or_name_in(&KEYWORDS, word)
}

fn symbol(text: &[u8]) -> Piece
    ensures { result ≡ tokens.longest_symbol text.now }
{
    symbol_in(&SYMBOLS, text)
}

fn word(text: &[u8]) -> Piece
    ensures { result ≡ tokens.word_piece text.now }
{
    let len = word_len(text);
    Piece::Lexeme(word_kind(&text[..len]), len, 0)
}

fn digits(text: &[u8]) -> Piece
    ensures { result ≡ tokens.digits_piece text.now }
{
    let len = digits_len(text);
    match number(&text[..len]) {
        Some(value) => Piece::Lexeme(TokenKind::Number, len, value),
        None => Piece::Bad,
    }
}

/// What stands at the front of a text.
pub(crate) fn first_piece(text: &[u8]) -> Piece
    requires { 0 < length text.now }
    ensures { result ≡ tokens.first_piece text.now }
{
    let first = text[0];
    if is_space(first) {
        Piece::Blank(1)
    } else if text.starts_with(b"//") {
        Piece::Blank(line_len(text))
    } else if is_letter(first) {
        word(text)
    } else if is_digit(first) {
        digits(text)
    } else {
        symbol(text)
    }
}

fn line_len(text: &[u8]) -> usize
    ensures { result ≡ prefix_len tokens.is_in_line text.now }
{
    text.iter().take_while(|byte| **byte != b'\n').count()
}
