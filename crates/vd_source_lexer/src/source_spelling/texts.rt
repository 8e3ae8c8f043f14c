//! The text of a token.

ghost use Rattle.std.specs.Prelude.{◌≡◌};
ghost use Rattle.vd_source_lexer.specs.Texts.{text_of_kind};

use crate::TokenKind;

/// The text of a keyword or a symbol. Of a name and of a number it is the text of one, and that of the end is empty.
pub fn text_of(kind: TokenKind) -> &'static str
    ensures { result.now ≡ text_of_kind kind }
{
    match kind {
        TokenKind::End => "",
        TokenKind::Name => "a",
        TokenKind::Number => "0",
        TokenKind::Principals => "principals",
        TokenKind::Host => "host",
        TokenKind::Fun => "fun",
        TokenKind::Return => "return",
        TokenKind::Main => "main",
        TokenKind::Let => "let",
        TokenKind::Var => "var",
        TokenKind::If => "if",
        TokenKind::Else => "else",
        TokenKind::For => "for",
        TokenKind::To => "to",
        TokenKind::Output => "output",
        TokenKind::Input => "input",
        TokenKind::Declassify => "declassify",
        TokenKind::Endorse => "endorse",
        TokenKind::Word => "word",
        TokenKind::Bool => "bool",
        TokenKind::True => "true",
        TokenKind::False => "false",
        TokenKind::Min => "min",
        TokenKind::Max => "max",
        TokenKind::Mux => "mux",
        TokenKind::Any => "any",
        TokenKind::Nothing => "none",
        TokenKind::All => "all",
        TokenKind::Array => "array",
        TokenKind::EqualEqual => "==",
        TokenKind::NotEqual => "!=",
        TokenKind::LessEqual => "<=",
        TokenKind::GreaterEqual => ">=",
        TokenKind::ShiftLeft => "<<",
        TokenKind::ShiftRight => ">>",
        TokenKind::Assign => ":=",
        TokenKind::OpenBrace => "{",
        TokenKind::CloseBrace => "}",
        TokenKind::OpenParen => "(",
        TokenKind::CloseParen => ")",
        TokenKind::OpenBracket => "[",
        TokenKind::CloseBracket => "]",
        TokenKind::Semicolon => ";",
        TokenKind::Colon => ":",
        TokenKind::Comma => ",",
        TokenKind::Equal => "=",
        TokenKind::Plus => "+",
        TokenKind::Minus => "-",
        TokenKind::Star => "*",
        TokenKind::Slash => "/",
        TokenKind::Percent => "%",
        TokenKind::Ampersand => "&",
        TokenKind::Pipe => "|",
        TokenKind::Caret => "^",
        TokenKind::Bang => "!",
        TokenKind::Tilde => "~",
        TokenKind::Less => "<",
        TokenKind::Greater => ">",
    }
}
