//! The kinds of tokens, in order.

ghost use Rattle.std.specs.Prelude.{◌≡◌, Some, slice_get};
ghost use Rattle.vd_source_lexer.specs.Kinds.{code_of};
ghost use Rattle.vd_source_lexer.specs.declared.token.TokenKind.{TokenKind as AnyKind};
ghost use Rattle.vd_source_lexer.specs.SourceSpellingKinds.{all_kinds};

use crate::TokenKind;

/// All kinds in the order of their numbers, `End` being the first.
const KINDS: [TokenKind; 58] = [
    TokenKind::End,
    TokenKind::Name,
    TokenKind::Number,
    TokenKind::Principals,
    TokenKind::Host,
    TokenKind::Fun,
    TokenKind::Return,
    TokenKind::Main,
    TokenKind::Let,
    TokenKind::Var,
    TokenKind::If,
    TokenKind::Else,
    TokenKind::For,
    TokenKind::To,
    TokenKind::Output,
    TokenKind::Input,
    TokenKind::Declassify,
    TokenKind::Endorse,
    TokenKind::Word,
    TokenKind::Bool,
    TokenKind::True,
    TokenKind::False,
    TokenKind::Min,
    TokenKind::Max,
    TokenKind::Mux,
    TokenKind::Any,
    TokenKind::Nothing,
    TokenKind::All,
    TokenKind::Array,
    TokenKind::EqualEqual,
    TokenKind::NotEqual,
    TokenKind::LessEqual,
    TokenKind::GreaterEqual,
    TokenKind::ShiftLeft,
    TokenKind::ShiftRight,
    TokenKind::Assign,
    TokenKind::OpenBrace,
    TokenKind::CloseBrace,
    TokenKind::OpenParen,
    TokenKind::CloseParen,
    TokenKind::OpenBracket,
    TokenKind::CloseBracket,
    TokenKind::Semicolon,
    TokenKind::Colon,
    TokenKind::Comma,
    TokenKind::Equal,
    TokenKind::Plus,
    TokenKind::Minus,
    TokenKind::Star,
    TokenKind::Slash,
    TokenKind::Percent,
    TokenKind::Ampersand,
    TokenKind::Pipe,
    TokenKind::Caret,
    TokenKind::Bang,
    TokenKind::Tilde,
    TokenKind::Less,
    TokenKind::Greater,
];

/// The kinds as a list.
#[tactic(auto, unfolding(crate::specs::SourceSpellingKinds::all_kinds))]
pub fn all_kinds() -> &'static [TokenKind]
    ensures { result.now ≡ all_kinds }
{
    &KINDS
}

/// Each kind stands at its number among all kinds.
pub fn kinds_are_all()
    ensures { (k : AnyKind) → slice_get all_kinds (code_of k) ≡ Some k }
{}
