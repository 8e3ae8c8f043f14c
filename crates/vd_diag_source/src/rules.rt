//! Sentences on faults of names, kinds and sizes.

ghost use Rattle.std.specs.Prelude.{◌≡◌, IfOk};
ghost use Rattle.vd_diag_source.specs.Rules as rules;

use crate::kinds::kind_sentence;
use itoa::Buffer;
use std::alloc::{AllocError, Global};
use vd_base::limits::{CELLS, HOSTS, NESTING, PRINCIPALS, STATEMENTS, WEIGHTS};
use vd_base::{Bytes, Span};
use vd_diag::{Remark, TellFault, line_number, three, word_at};
use vd_resolve::{NameFault, Quantity};

/// What is counted.
fn quantity_phrase(quantity: Quantity) -> &'static str
    ensures { result.now ≡ rules.quantity_phrase quantity }
{
    match quantity {
        Quantity::Principals => "principals",
        Quantity::Hosts => "hosts",
        Quantity::Nesting => "loops around one statement",
        Quantity::Statements => "statements",
        Quantity::Weights => "executions of statements",
        Quantity::Cells => "cells of arrays",
    }
}

/// The greatest number that is allowed.
fn most_of(quantity: Quantity) -> u32
    ensures { result ≡ rules.most_of quantity }
{
    match quantity {
        Quantity::Principals => PRINCIPALS,
        Quantity::Hosts => HOSTS,
        Quantity::Nesting => NESTING,
        Quantity::Statements => STATEMENTS,
        Quantity::Weights => WEIGHTS,
        Quantity::Cells => CELLS,
    }
}

/// What is said of a count above its limit.
fn limit_sentence(alloc: Global, quantity: Quantity, count: u32) -> Result<Bytes, AllocError>
    ensures { IfOk result (λ text. text ≡ rules.limit_sentence quantity count) }
{
    let mut count_buffer = Buffer::new();
    let count = count_buffer.format(count).as_bytes();
    let mut most_buffer = Buffer::new();
    let most = most_buffer.format(most_of(quantity)).as_bytes();
    let there_are = three(alloc, b"there are ", count, b" ")?;
    let at_most = three(alloc, b", and at most ", most, b" are allowed")?;
    let what = quantity_phrase(quantity).as_bytes();
    three(alloc, there_are.as_slice(), what, at_most.as_slice())
}

/// A sentence on a span.
fn at_span(span: Span, sentence: Bytes) -> Remark
    ensures { result ≡ rules.at_span span sentence }
{
    Remark {
        offset: Some(span.start),
        sentence,
    }
}

/// What is said of a fault of names, kinds or sizes in these bytes. Of a fault of kinds it is said what met there, and of a name
/// that is twice where it is declared.
pub fn rule_remark(alloc: Global, bytes: &[u8], fault: NameFault) -> Result<Remark, TellFault>
    ensures { IfOk result (rules.IsRuleRemark bytes.now fault) }
{
    match fault {
        NameFault::Unknown(span) => {
            let sentence = unknown_sentence(alloc, word_at(bytes, span))?;
            Ok(at_span(span, sentence))
        }
        NameFault::Twice(span, first) => {
            let line = line_number(bytes, first.start as usize);
            let sentence = twice_sentence(alloc, word_at(bytes, span), line)?;
            Ok(at_span(span, sentence))
        }
        NameFault::Recursive(span) => {
            let sentence = recursive_sentence(alloc, word_at(bytes, span))?;
            Ok(at_span(span, sentence))
        }
        NameFault::Arity(span) => {
            let sentence = arity_sentence(alloc, word_at(bytes, span))?;
            Ok(at_span(span, sentence))
        }
        NameFault::Kind(span, met) => {
            let sentence = kind_sentence(alloc, word_at(bytes, span), met)?;
            Ok(at_span(span, sentence))
        }
        NameFault::Limit(quantity, count) => {
            let sentence = limit_sentence(alloc, quantity, count)?;
            Ok(Remark {
                offset: None,
                sentence,
            })
        }
        NameFault::Memory => Err(TellFault::Memory),
    }
}

fn unknown_sentence(alloc: Global, word: &[u8]) -> Result<Bytes, AllocError>
    ensures { IfOk result (λ text. text ≡ rules.unknown_sentence word.now) }
{
    three(alloc, b"the name `", word, b"` is unknown here")
}

/// Of a name that is declared already in this line.
fn twice_sentence(alloc: Global, word: &[u8], line: usize) -> Result<Bytes, AllocError>
    ensures { IfOk result (λ text. text ≡ rules.twice_sentence word.now line) }
{
    let mut buffer = Buffer::new();
    let line = buffer.format(line as u64).as_bytes();
    let name = three(
        alloc,
        b"the name `",
        word,
        b"` stands for something already",
    )?;
    three(alloc, name.as_slice(), b": it is declared in line ", line)
}

fn recursive_sentence(alloc: Global, word: &[u8]) -> Result<Bytes, AllocError>
    ensures { IfOk result (λ text. text ≡ rules.recursive_sentence word.now) }
{
    three(
        alloc,
        b"`",
        word,
        b"` is called here, and a function calls only functions that stand before it",
    )
}

fn arity_sentence(alloc: Global, word: &[u8]) -> Result<Bytes, AllocError>
    ensures { IfOk result (λ text. text ≡ rules.arity_sentence word.now) }
{
    three(
        alloc,
        b"`",
        word,
        b"` has another number of parameters than it is given arguments here",
    )
}
