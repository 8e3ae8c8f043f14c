//! The reader of inputs.

ghost use Rattle.std.specs.Prelude.{◌≡◌, ◌≢◌, ℕ, ◌<◌, ◌≤◌, map, length, replicate, IfOk, IfErr, OnOk, MatchResult, List};
ghost use Rattle.vd_report.specs.declared.token.TokenKind.TheVariants as token_kind;
ghost use Rattle.vd_report.specs.Inputs.{Sections, words_of, between, named, go, stop, step, at_colon, Ends, Fails, inputs_read};
ghost use Rattle.vd_report.specs.InputsText.{GivesInputs, IsInputsText, InputsFollowGrammar};
ghost use Rattle.vd_report.specs.Outcome.{IsFaultOf, Accepts, Refuses, FirstWrong};
ghost use Rattle.vd_report.specs.Tokens.{capped};

use crate::fault::{ReadFault, offset};
use crate::hosts::host_of;
use crate::token::{Token, TokenKind, next_token};
use std::alloc::{AllocError, Global};
use vd_base::limits::INPUT_WORDS;
use vd_base::{Inputs, Items, Names, Words};

/// The words that an inputs file gives to each host, in order of declaration. A host without a section has none.
pub fn read_inputs(alloc: Global, bytes: &[u8], hosts: &Names) -> Result<Inputs, ReadFault>
    ensures given { Accepts result (GivesInputs hosts.now bytes.now) }
    ensures refused { Refuses result (FirstWrong IsInputsText hosts.now bytes.now) }
    ensures ok { IfOk result (λ inputs. inputs_read hosts.now bytes.now ≡ Ok inputs) }
    ensures err { IfErr result (λ fault. IsFaultOf (inputs_read hosts.now bytes.now) fault) }
{
    read_sections(alloc, bytes, hosts)
}

/// The words of each host, read section by section.
fn read_sections(alloc: Global, bytes: &[u8], hosts: &Names) -> Result<Inputs, ReadFault>
    ensures ok { IfOk result (λ inputs. inputs_read hosts.now bytes.now ≡ Ok inputs) }
    ensures err { IfErr result (λ fault. IsFaultOf (inputs_read hosts.now bytes.now) fault) }
{
    let mut sections = no_sections(alloc, hosts.as_slice().len())?;
    let mut at = 0;
    'sections: loop {
        let name = next_token(bytes, at);
        if let TokenKind::End = name.kind {
            return Ok(inputs_of(alloc, sections)?);
        }
        let host = section_host(bytes, hosts, &sections, name)?;
        let colon = next_token(bytes, name.end);
        expect_colon(colon)?;
        let (words, end) = read_words(alloc, bytes, colon.end)?;
        sections.set(host, Some(words));
        at = end;
    }
}

/// For each of so many hosts no section.
fn no_sections(alloc: Global, count: usize) -> Result<Items<Option<Words>>, AllocError>
    ensures { IfOk result (λ sections. sections ≡ replicate count None) }
{
    let mut sections = Items::new(alloc);
    for _ in 0..count {
        sections.push(None)?;
    }
    Ok(sections)
}

/// The words of each host, none where it has no section.
fn inputs_of(alloc: Global, sections: Items<Option<Words>>) -> Result<Inputs, AllocError>
    ensures { IfOk result (λ inputs. inputs ≡ map words_of sections) }
{
    let mut inputs = Items::new(alloc);
    for section in sections.into_vec() {
        let words = match section {
            Some(words) => words,
            None => Items::new(alloc),
        };
        inputs.push(words)?;
    }
    Ok(inputs)
}

/// The host whose section a token begins.
fn section_host(
    bytes: &[u8],
    hosts: &Names,
    sections: &Items<Option<Words>>,
    name: Token,
) -> Result<usize, ReadFault>
    requires within { name.start ≤ name.end }
    requires end { name.end ≤ length bytes.now }
    requires hosts { length sections.now ≡ length hosts.now }
    requires more { name.kind ≢ token_kind.End }
    ensures ok { IfOk result (λ host. host < length hosts.now) }
    ensures step { MatchResult result
        (λ host. step hosts.now bytes.now between sections.now name ≡ go (named host) sections.now)
        (λ fault. step hosts.now bytes.now between sections.now name ≡ stop (Err fault)) }
{
    let TokenKind::Name = name.kind else {
        return Err(ReadFault::Text(offset(name.start)));
    };
    let Some(host) = host_of(hosts, &bytes[name.start..name.end]) else {
        return Err(ReadFault::UnknownHost(offset(name.start)));
    };
    if sections[host].is_some() {
        return Err(ReadFault::Text(offset(name.start)));
    }
    Ok(host)
}

/// Refuses a token that is no colon.
fn expect_colon(colon: Token) -> Result<(), ReadFault>
    ensures ok { OnOk result (colon.kind ≡ token_kind.Colon) }
    ensures err { IfErr result (λ fault. (host : ℕ) (sections : Sections) →
        at_colon host sections (capped colon.start) colon.kind ≡ stop (Err fault)) }
{
    match colon.kind {
        TokenKind::Colon => Ok(()),
        _ => Err(ReadFault::Text(offset(colon.start))),
    }
}

/// The words of a section and the offset behind them.
fn read_words(alloc: Global, bytes: &[u8], start: usize) -> Result<(Words, usize), ReadFault>
    requires { start ≤ length bytes.now }
    ensures within { IfOk result (λ read. (start ≤ read.1) × (read.1 ≤ length bytes.now)) }
    ensures ok { IfOk result (λ read. Ends bytes.now start read.0 read.1) }
    ensures err { IfErr result (λ fault. Fails bytes.now start fault) }
{
    let mut words = Words::new(alloc);
    let mut at = start;
    'words: loop {
        let token = next_token(bytes, at);
        let TokenKind::Number(word) = token.kind else {
            return Ok((words, at));
        };
        if words.as_slice().len() == INPUT_WORDS as usize {
            return Err(ReadFault::Text(offset(token.start)));
        }
        words.push(word)?;
        at = token.end;
    }
}

/// Each inputs file either is a text of the grammar, and gives the words of its sections, or has one first token that cannot stand there, and the fault of that token.
pub fn inputs_follow_the_grammar()
    ensures { (hosts : List (List ℕ)) (bytes : List ℕ) → InputsFollowGrammar hosts bytes }
{}
