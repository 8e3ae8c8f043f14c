//! Remarks on texts that are no sources.

ghost use Rattle.std.specs.Prelude.{◌≡◌, ◌<◌, ℕ, length, slice_index, IfOk};
ghost use Rattle.vd_source_lexer.specs.Tokens.{EndsOnce, Lexes, kinds};
ghost use Rattle.vd_parser.specs.Outcomes.{IsUnexpected};
ghost use Rattle.vd_parser.specs.declared.fault.ParseFault.TheVariants as parse_fault;
ghost use Rattle.vd_diag.specs.Remarks.{at as remark_at};
ghost use Rattle.vd_diag_source.specs.SyntaxRemarks as remarks;
ghost use Rattle.vd_diag_source.specs.SyntaxRemarks.{SaysOfSyntax};

use crate::follow::{FollowFault, following};
use crate::syntax::{
    bad_byte_sentence, long_sentence, nesting_sentence, refused_sentence, unexpected_sentence,
};
use std::alloc::Global;
use vd_base::Bytes;
use vd_base::limits::SOURCE_BYTES;
use vd_diag::{Remark, TellFault};
use vd_parser::ParseFault;
use vd_source_lexer::{LexFault, Token, tokens};

/// A sentence at an offset.
fn at(offset: u32, sentence: Bytes) -> Remark
    ensures { result ≡ remark_at offset sentence }
{
    Remark {
        offset: Some(offset),
        sentence,
    }
}

/// The byte at an offset, or 0 behind the end.
fn byte_at(bytes: &[u8], offset: u32) -> u8
    ensures { result ≡ slice_index bytes.now offset }
{
    let offset = offset as usize;
    if offset < bytes.len() {
        bytes[offset]
    } else {
        0
    }
}

/// The sentence on the token of this number, which is refused.
fn sentence_on(
    alloc: Global,
    bytes: &[u8],
    found: &[Token],
    number: usize,
) -> Result<Bytes, TellFault>
    requires lexes { Lexes bytes.now 0 found.now }
    requires ended { EndsOnce (kinds found.now) }
    requires within { number < length found.now }
    ensures { (offset : ℕ) → IsUnexpected found.now number offset → IfOk result (remarks.TellsNumber bytes.now number) }
{
    let token = found[number];
    match following(alloc, &found[..number]) {
        Ok(kinds) => {
            let sentence = unexpected_sentence(alloc, bytes, token, kinds.as_slice())?;
            Ok(sentence)
        }
        Err(FollowFault::TooLong) => {
            let sentence = refused_sentence(alloc, bytes, token)?;
            Ok(sentence)
        }
        Err(FollowFault::Memory) => Err(TellFault::Memory),
    }
}

/// The remark on the token of this number, which is refused at this offset; none where there are not so many tokens.
fn token_remark(
    alloc: Global,
    bytes: &[u8],
    found: &[Token],
    number: usize,
    offset: u32,
) -> Result<Option<Remark>, TellFault>
    requires lexes { Lexes bytes.now 0 found.now }
    requires ended { EndsOnce (kinds found.now) }
    ensures { IfOk result (SaysOfSyntax bytes.now (parse_fault.Unexpected number offset)) }
{
    if number >= found.len() {
        return Ok(None);
    }
    let sentence = sentence_on(alloc, bytes, found, number)?;
    Ok(Some(at(offset, sentence)))
}

/// The same, of the tokens of these bytes; none where these have none, or are too many for a source.
fn unexpected_remark(
    alloc: Global,
    bytes: &[u8],
    number: u32,
    offset: u32,
) -> Result<Option<Remark>, TellFault>
    ensures { IfOk result (SaysOfSyntax bytes.now (parse_fault.Unexpected number offset)) }
{
    let length = bytes.len();
    let most = SOURCE_BYTES as usize;
    if length > most {
        return Ok(None);
    }
    match tokens(alloc, bytes) {
        Ok(found) => token_remark(alloc, bytes, found.as_slice(), number as usize, offset),
        Err(LexFault::BadByte(_)) => Ok(None),
        Err(LexFault::Memory) => Err(TellFault::Memory),
    }
}

/// The remark on a fault that the parser answers for these bytes; none only where it does not answer this fault for them.
pub fn syntax_remark(
    alloc: Global,
    bytes: &[u8],
    fault: ParseFault,
) -> Result<Option<Remark>, TellFault>
    ensures { IfOk result (SaysOfSyntax bytes.now fault) }
{
    match fault {
        ParseFault::BadByte(offset) => {
            let sentence = bad_byte_sentence(alloc, byte_at(bytes, offset))?;
            Ok(Some(at(offset, sentence)))
        }
        ParseFault::Unexpected(number, offset) => unexpected_remark(alloc, bytes, number, offset),
        ParseFault::TooDeep(offset) => {
            let sentence = nesting_sentence(alloc)?;
            Ok(Some(at(offset, sentence)))
        }
        ParseFault::TooLong(len) => {
            let sentence = long_sentence(alloc, len)?;
            Ok(Some(Remark {
                offset: None,
                sentence,
            }))
        }
        ParseFault::Memory => Err(TellFault::Memory),
    }
}
