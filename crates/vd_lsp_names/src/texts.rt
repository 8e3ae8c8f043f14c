//! The names of a text.

ghost use Rattle.std.specs.Prelude.{◌≡◌, ◌≤◌, All, length, IfOk, OnOk};
ghost use Rattle.vd_base.specs.Limits.{most_source_bytes};
ghost use Rattle.vd_base.specs.Names.{is_among};
ghost use Rattle.vd_source_lexer.specs.Tokens.{IsSpelled, text_of as spelled};
ghost use Rattle.vd_lsp_names.specs.Texts as texts;
ghost use Rattle.vd_lsp_names.specs.Texts.{AreNamesOf, AreWordsOf};

use crate::kinds::Use;
use crate::whole::uses_of;
use std::alloc::{AllocError, Global};
use vd_base::limits::SOURCE_BYTES;
use vd_base::{Items, Name, Names};
use vd_parser::{ParseFault, parse};
use vd_source_lexer::{LexFault, Token, TokenKind, tokens};

/// The names of a text, of which there are none where it has no tree.
pub fn names_of(alloc: Global, text: &[u8]) -> Result<Items<Use>, AllocError>
    ensures { IfOk result (AreNamesOf text.now) }
{
    match parse(alloc, text) {
        Ok(source) => uses_of(alloc, &source),
        Err(ParseFault::Memory) => Err(AllocError),
        Err(_) => Ok(Items::new(alloc)),
    }
}

/// Whether a token is a name.
fn is_name(token: &Token) -> bool
    ensures { result ≡ texts.is_name token.now }
{
    token.kind.code() == TokenKind::Name.code()
}

/// What a token is spelled as.
fn spelling<'a>(text: &'a [u8], token: &Token) -> &'a [u8]
    requires { IsSpelled text.now token.now }
    ensures { result.now ≡ spelled text.now token.now }
{
    &text[token.span.start as usize..token.span.end as usize]
}

/// Whether a word is one of these.
fn is_one(words: &Names, word: &[u8]) -> bool
    ensures { result ≡ is_among words.now word.now }
{
    for known in words.as_slice() {
        if known.as_slice() == word {
            return true;
        }
    }
    false
}

/// Adds a word, unless it is there.
fn push_new(alloc: Global, words: &mut Names, word: &[u8]) -> Result<(), AllocError>
    ensures { OnOk result (words.new ≡ texts.with_new words.old word.now) }
{
    if is_one(words, word) {
        return Ok(());
    }
    let word = Name::from_slice(alloc, word)?;
    words.push(word)
}

/// Adds the word of a token, if it is a name that is not there.
fn push_token(
    alloc: Global,
    words: &mut Names,
    text: &[u8],
    token: &Token,
) -> Result<(), AllocError>
    requires { IsSpelled text.now token.now }
    ensures { OnOk result (words.new ≡ texts.with_token text.now words.old token.now) }
{
    if is_name(token) {
        push_new(alloc, words, spelling(text, token))?;
    }
    Ok(())
}

/// The words that are names in these tokens, each once.
fn words_in(alloc: Global, text: &[u8], tokens: &[Token]) -> Result<Names, AllocError>
    requires { All (IsSpelled text.now) tokens.now }
    ensures { IfOk result (λ words. words ≡ texts.words_in text.now tokens.now) }
{
    let mut words = Names::new(alloc);
    for token in tokens {
        push_token(alloc, &mut words, text, token)?;
    }
    Ok(words)
}

/// The words that are names in a text that is not too long.
fn words_of_short(alloc: Global, text: &[u8]) -> Result<Names, AllocError>
    requires { length text.now ≤ most_source_bytes }
    ensures { IfOk result (texts.AreWordsOfShort text.now) }
{
    match tokens(alloc, text) {
        Ok(found) => words_in(alloc, text, found.as_slice()),
        Err(LexFault::Memory) => Err(AllocError),
        Err(LexFault::BadByte(_)) => Ok(Names::new(alloc)),
    }
}

/// The words that are names in a text, each once: none where it is too long, or has no tokens.
pub fn words_of(alloc: Global, text: &[u8]) -> Result<Names, AllocError>
    ensures { IfOk result (AreWordsOf text.now) }
{
    if text.len() > SOURCE_BYTES as usize {
        return Ok(Names::new(alloc));
    }
    words_of_short(alloc, text)
}
