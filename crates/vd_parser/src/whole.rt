ghost use Rattle.std.specs.Prelude.{◌≡◌, ◌⊎◌, ◌+◌, ◌<◌, ◌≤◌, ◌^◌, length, Result, Err, IfOk};
ghost use Rattle.vd_core.specs.Named.{HasNames};
ghost use Rattle.vd_core.specs.declared.source.Source.{Source};
ghost use Rattle.vd_parser.specs.declared.fault.ParseFault.{ParseFault};
ghost use Rattle.vd_source_lexer.specs.Grammar.{Sym};
ghost use Rattle.vd_source_lexer.specs.Tokens.{EndsOnce, kinds};
ghost use Rattle.vd_parser.specs.Language.{SOURCE};
ghost use Rattle.vd_parser.specs.Syntax.{source_of};
ghost use Rattle.vd_parser.specs.Nesting.{NoneTooDeep, IsFirstDeep};
ghost use Rattle.vd_parser.specs.Outcomes.{IsParse};
ghost use Rattle.vd_parser.specs.Whole.{NoEnd, ParsesWhole, IsOutcome};

use crate::cursor::{Cursor, Refusal};
use crate::fault::ParseFault;
use crate::nesting::first_deep;
use crate::parser::Parser;
use std::alloc::Global;
use vd_base::limits::SOURCE_BYTES;
use vd_core::Source;
use vd_source_lexer::{LexFault, Token, TokenKind, tokens};

impl<'a> Parser<'a> {
    /// A source, and no token behind it.
    fn whole_source(&self, cursor: &mut Cursor) -> Result<Source, Refusal>
        requires { NoEnd cursor.old }
        ensures { ParsesWhole (Sym SOURCE) (source_of self.now.text.now) cursor.old cursor.new result }
    {
        let source = self.source(cursor)?;
        if cursor.is(TokenKind::End) {
            Ok(source)
        } else {
            Err(Refusal::Unexpected)
        }
    }
}

/// The one tree of the bytes of a source, or the one refusal of other bytes.
///
/// A text that is too long is refused before it is read. A bad byte anywhere comes before a token that cannot stand
/// where it stands and before a bracket that is nested too deep; of these two the earlier token is answered. Whatever
/// outcome the bytes have, that one is answered, unless memory runs out.
pub fn parse(alloc: Global, bytes: &[u8]) -> Result<Source, ParseFault>
    ensures outcome { (result ≡ Err ParseFault.Memory) ⊎ IsParse bytes.now result }
    ensures exact { (answer : Result Source ParseFault) → IsParse bytes.now answer → (result ≡ Err ParseFault.Memory) ⊎ (result ≡ answer) }
    ensures named { IfOk result HasNames }
{
    parse_bytes(alloc, bytes)
}

fn parse_bytes(alloc: Global, bytes: &[u8]) -> Result<Source, ParseFault>
    ensures outcome { (result ≡ Err ParseFault.Memory) ⊎ IsParse bytes.now result }
    ensures named { IfOk result HasNames }
{
    if bytes.len() > SOURCE_BYTES as usize {
        return Err(ParseFault::TooLong(bytes.len() as u64));
    }
    match tokens(alloc, bytes) {
        Ok(found) => parse_tokens(alloc, bytes, found.as_slice()),
        Err(LexFault::BadByte(offset)) => Err(ParseFault::BadByte(offset)),
        Err(LexFault::Memory) => Err(ParseFault::Memory),
    }
}

fn parse_tokens(alloc: Global, text: &[u8], tokens: &[Token]) -> Result<Source, ParseFault>
    requires ended { EndsOnce (kinds tokens.now) }
    requires few { length tokens.now < 2 ^ 32 }
    ensures { (result ≡ Err ParseFault.Memory) ⊎ IsOutcome text.now tokens.now result }
{
    match first_deep(tokens) {
        None => parse_all(alloc, text, tokens),
        Some(number) => parse_through(alloc, text, tokens, number),
    }
}

/// Reads all tokens but the end.
fn parse_all(alloc: Global, text: &[u8], tokens: &[Token]) -> Result<Source, ParseFault>
    requires ended { EndsOnce (kinds tokens.now) }
    requires few { length tokens.now < 2 ^ 32 }
    requires shallow { NoneTooDeep tokens.now }
    ensures { (result ≡ Err ParseFault.Memory) ⊎ IsOutcome text.now tokens.now result }
{
    let end = tokens.len() - 1;
    let mut cursor = Cursor::new(&tokens[..end]);
    let parser = Parser { alloc, text };
    let source = parser.whole_source(&mut cursor);
    match source {
        Ok(source) => Ok(source),
        Err(refusal) => match refusal {
            Refusal::Memory => Err(ParseFault::Memory),
            Refusal::Unexpected => {
                let number = end - cursor.len();
                Err(ParseFault::Unexpected(number as u32, tokens[number].span.start))
            }
        },
    }
}

/// Reads the tokens through the first that is nested too deep: where nothing before refuses them, that one is refused.
fn parse_through(
    alloc: Global,
    text: &[u8],
    tokens: &[Token],
    deep: usize,
) -> Result<Source, ParseFault>
    requires ended { EndsOnce (kinds tokens.now) }
    requires few { length tokens.now < 2 ^ 32 }
    requires deep { IsFirstDeep tokens.now deep }
    requires within { deep + 2 ≤ length tokens.now }
    ensures { (result ≡ Err ParseFault.Memory) ⊎ IsOutcome text.now tokens.now result }
{
    let end = deep + 1;
    let mut cursor = Cursor::new(&tokens[..end]);
    let parser = Parser { alloc, text };
    let source = parser.whole_source(&mut cursor);
    match source {
        Ok(_) => Err(ParseFault::TooDeep(tokens[deep].span.start)),
        Err(refusal) => match refusal {
            Refusal::Memory => Err(ParseFault::Memory),
            Refusal::Unexpected => {
                let left = cursor.len();
                if left == 0 {
                    Err(ParseFault::TooDeep(tokens[deep].span.start))
                } else {
                    let number = end - left;
                    Err(ParseFault::Unexpected(number as u32, tokens[number].span.start))
                }
            }
        },
    }
}
