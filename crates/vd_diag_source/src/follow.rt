//! The tokens with which a source goes on: each kind is tried by the parser.

ghost use Rattle.std.specs.Prelude.{◌≡◌, map, IfOk, IfErr};
ghost use Rattle.vd_diag_source.specs.Following as follow;
ghost use Rattle.vd_diag_source.specs.Judging.{judged};
ghost use Rattle.vd_diag_source.specs.declared.follow.FollowFault.TheVariants as follow_fault;
ghost use Rattle.vd_source_lexer.specs.declared.token.TokenKind.{TokenKind as AnyKind};
ghost use Rattle.vd_parser.specs.Nesting.{NoneTooDeep};
ghost use Rattle.vd_parser.specs.Outcomes.{BeginSource};
ghost use Rattle.vd_parser.specs.Whole.{NoEnd};

use std::alloc::{AllocError, Global};
use thiserror::Error;
use vd_base::Items;
use vd_core::Source;
use vd_parser::{ParseFault, parse};
use vd_source_lexer::{Token, TokenKind, all_kinds, spell};

/// Why it is not told which tokens a source goes on with.
#[derive(Clone, Copy, PartialEq, Eq, Debug, Error)]
pub(crate) enum FollowFault {
    /// The tokens before, with a blank behind each, are longer than a source may be.
    #[error("the tokens are too many")]
    TooLong,
    /// There was no memory left.
    #[error("out of memory")]
    Memory,
}

impl From<AllocError> for FollowFault {
    ghost from_gives = { λ _ fault. fault ≡ follow_fault.Memory };

    fn from(_: AllocError) -> FollowFault {
        FollowFault::Memory
    }
}

fn kinds_of(alloc: Global, tokens: &[Token]) -> Result<Items<TokenKind>, AllocError>
    ensures { IfOk result (λ kinds. kinds ≡ map (λ t. t.kind) tokens.now) }
{
    let mut kinds = Items::new(alloc);
    for token in tokens {
        kinds.push(token.kind)?;
    }
    Ok(kinds)
}

/// The kinds of these tokens, and one more unless it is the end.
fn through(alloc: Global, before: &[Token], kind: TokenKind) -> Result<Items<TokenKind>, AllocError>
    ensures { IfOk result (λ kinds. kinds ≡ follow.through before.now kind) }
{
    let mut kinds = kinds_of(alloc, before)?;
    if kind.code() != TokenKind::End.code() {
        kinds.push(kind)?;
    }
    Ok(kinds)
}

/// What the parser's answer tells of the token of this number, behind which only the end stands.
fn judge(came: Result<Source, ParseFault>, number: usize) -> Result<bool, FollowFault>
    ensures { result ≡ judged came number }
{
    match came {
        Ok(_) => Ok(true),
        Err(ParseFault::Unexpected(refused, _)) => Ok(refused as usize != number),
        Err(ParseFault::TooDeep(_)) => Ok(true),
        Err(ParseFault::BadByte(_)) => Ok(false),
        Err(ParseFault::TooLong(_)) => Err(FollowFault::TooLong),
        Err(ParseFault::Memory) => Err(FollowFault::Memory),
    }
}

/// Whether a source goes on with a token of this kind.
fn goes_on(alloc: Global, before: &[Token], kind: TokenKind) -> Result<bool, FollowFault>
    requires { NoEnd before.now }
    ensures exact { BeginSource before.now → NoneTooDeep before.now → IfOk result (λ yes. yes ≡ follow.goes_on before.now kind) }
    ensures long { IfErr result (λ fault. fault ≡ follow_fault.TooLong → follow.IsTooLong before.now kind) }
{
    let kinds = through(alloc, before, kind)?;
    let text = spell(alloc, kinds.as_slice())?;
    judge(parse(alloc, text.as_slice()), before.len())
}

/// The kinds of tokens with which a source goes on behind these tokens, and no other, where they begin a source. The end is one of
/// them.
///
/// They are refused where the tokens, with a blank behind each, are longer than a source may be.
pub(crate) fn following(alloc: Global, before: &[Token]) -> Result<Items<TokenKind>, FollowFault>
    requires { NoEnd before.now }
    ensures exact { BeginSource before.now → NoneTooDeep before.now → IfOk result (λ kinds. kinds ≡ follow.following before.now) }
    ensures long { IfErr result (λ fault. fault ≡ follow_fault.TooLong → (k : AnyKind) × follow.IsTooLong before.now k) }
{
    let mut found = Items::new(alloc);
    for kind in all_kinds() {
        if goes_on(alloc, before, *kind)? {
            found.push(*kind)?;
        }
    }
    Ok(found)
}
