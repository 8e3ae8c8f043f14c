//! The names of a document, by the places of an editor.

ghost use Rattle.std.specs.Prelude.{◌≡◌, ◌++◌, drop, map, take, IfOk, OnOk};
ghost use Rattle.vd_base.specs.Lexical.{keywords};
ghost use Rattle.vd_base.specs.Names.{is_among as among};
ghost use Rattle.vd_lsp_messages.specs.declared.kinds.Answer.TheVariants.{Edits as edits_in, Places as places_in};
ghost use Rattle.vd_lsp_names.specs.Asking.{places_of as spans_of};
ghost use Rattle.vd_lsp.specs.Names as names;

use crate::faults::text_of;
use std::alloc::{AllocError, Global};
use vd_base::{Items, Name, Span, Text, is_name};
use vd_lsp_messages::{Answer, Document, Edits, Range, Symbol, Word};
use vd_lsp_names::{Declared, Role, Use, declarations, places_of};
use vd_lsp_wire::{Place, place_of};

/// Whether a place stands before another one.
fn is_before(place: Place, other: Place) -> bool
    ensures { result ≡ names.is_before place other }
{
    place.line < other.line || (place.line == other.line && place.column < other.column)
}

/// From where to where a span stands.
pub(crate) fn range_of(text: &[u8], span: Span) -> Range
    ensures { result ≡ names.range_of text.now span }
{
    Range {
        start: place_of(text, span.start as usize),
        end: place_of(text, span.end as usize),
    }
}

/// From where to where these spans stand.
pub(crate) fn ranges_of(
    alloc: Global,
    text: &[u8],
    spans: &[Span],
) -> Result<Items<Range>, AllocError>
    ensures { IfOk result (λ ranges. ranges ≡ names.ranges_of text.now spans.now) }
{
    let mut ranges = Items::new(alloc);
    for span in spans {
        ranges.push(range_of(text, *span))?;
    }
    Ok(ranges)
}

/// Whether a name is at a place: it stands there, or ends.
fn is_at(text: &[u8], place: Place, name: Use) -> bool
    ensures { result ≡ names.is_at text.now place name }
{
    !is_before(place, place_of(text, name.at.start as usize))
        && !is_before(place_of(text, name.at.end as usize), place)
}

/// The first name at a place.
pub(crate) fn name_at(text: &[u8], uses: &[Use], place: Place) -> Option<Use>
    ensures { result ≡ names.name_at text.now uses.now place }
{
    for name in uses {
        if is_at(text, place, *name) {
            return Some(*name);
        }
    }
    None
}

/// What the name at a place stands for.
pub(crate) fn declared_at(text: &[u8], uses: &[Use], place: Place) -> Option<Declared>
    ensures { result ≡ names.declared_at text.now uses.now place }
{
    match name_at(text, uses, place) {
        Some(name) => name.declared,
        None => None,
    }
}

/// The bytes of a document.
pub(crate) fn bytes_of(document: &Document) -> &[u8]
    ensures { result.now ≡ document.now.text }
{
    document.text.as_str().as_bytes()
}

/// Ranges of a document.
fn places(alloc: Global, document: &Document, ranges: Items<Range>) -> Result<Answer, AllocError>
    ensures { IfOk result (λ answer. answer ≡ places_in document.now.uri ranges) }
{
    let uri = Text::copy_of(alloc, document.uri.as_str())?;
    Ok(Answer::Places(uri, ranges))
}

/// Where something is declared.
pub(crate) fn definition(
    alloc: Global,
    document: &Document,
    declared: Option<Declared>,
) -> Result<Answer, AllocError>
    ensures { IfOk result (λ answer. answer ≡ names.definition document.now declared) }
{
    match declared {
        Some(declared) => {
            let ranges = ranges_of(alloc, bytes_of(document), &[declared.at])?;
            places(alloc, document, ranges)
        }
        None => Ok(Answer::Nothing),
    }
}

/// Where the declaration of a name has names.
fn ranges_with(
    alloc: Global,
    document: &Document,
    uses: &[Use],
    declared: Declared,
) -> Result<Items<Range>, AllocError>
    ensures { IfOk result (λ ranges. ranges ≡ names.ranges_of document.now.text (spans_of declared.at.start uses.now)) }
{
    let spans = places_of(alloc, uses, declared.at.start)?;
    ranges_of(alloc, bytes_of(document), spans.as_slice())
}

/// Where something has names.
pub(crate) fn references(
    alloc: Global,
    document: &Document,
    uses: &[Use],
    declared: Option<Declared>,
) -> Result<Answer, AllocError>
    ensures { IfOk result (λ answer. answer ≡ names.references document.now uses.now declared) }
{
    match declared {
        Some(declared) => {
            let ranges = ranges_with(alloc, document, uses, declared)?;
            places(alloc, document, ranges)
        }
        None => Ok(Answer::Nothing),
    }
}

/// Whether one of these words is that one.
pub(crate) fn is_among(words: &[Name], word: &[u8]) -> bool
    ensures { result ≡ among words.now word.now }
{
    for known in words {
        if known.as_slice() == word {
            return true;
        }
    }
    false
}

/// Whether a word is a name that is none of these.
pub(crate) fn is_free(words: &[Name], word: &[u8]) -> bool
    ensures { result ≡ names.is_free words.now word.now }
{
    is_name(word) && !is_among(words, word)
}

/// That a word is to stand in each of these ranges.
fn edits_at(
    alloc: Global,
    document: &Document,
    ranges: Items<Range>,
    word: &str,
) -> Result<Answer, AllocError>
    ensures { IfOk result (λ answer. answer ≡ edits_in (record {
      uri = document.now.uri;
      version = document.now.version;
      ranges = ranges;
      word = word.now;
    })) }
{
    let uri = Text::copy_of(alloc, document.uri.as_str())?;
    let word = Text::copy_of(alloc, word)?;
    Ok(Answer::Edits(Edits {
        uri,
        version: document.version,
        ranges,
        word,
    }))
}

/// What is to be changed, so that what a name stands for is called by this word.
pub(crate) fn edits(
    alloc: Global,
    document: &Document,
    uses: &[Use],
    word: &str,
    declared: Option<Declared>,
) -> Result<Answer, AllocError>
    ensures { IfOk result (λ answer. answer ≡ names.edits document.now uses.now word.now declared) }
{
    match declared {
        Some(declared) => {
            let ranges = ranges_with(alloc, document, uses, declared)?;
            edits_at(alloc, document, ranges, word)
        }
        None => Ok(Answer::Nothing),
    }
}

/// The bytes before an offset.
fn front(bytes: &[u8], end: usize) -> &[u8]
    ensures { result.now ≡ take end bytes.now }
{
    &bytes[..end.min(bytes.len())]
}

/// The bytes from an offset on.
fn rest(bytes: &[u8], start: usize) -> &[u8]
    ensures { result.now ≡ drop start bytes.now }
{
    &bytes[start.min(bytes.len())..]
}

/// How a name is spelled.
pub(crate) fn spelled(text: &[u8], span: Span) -> &[u8]
    ensures { result.now ≡ names.spelled text.now span }
{
    rest(front(text, span.end as usize), span.start as usize)
}

/// A word of this sort.
fn word(alloc: Global, bytes: &[u8], sort: u8) -> Result<Word, AllocError>
    ensures { IfOk result (λ word. word ≡ names.word bytes.now sort) }
{
    let text = text_of(alloc, bytes)?;
    Ok(Word { text, sort })
}

/// The number that the protocol has for what has this role.
fn sort_of_role(role: Role) -> u8
    ensures { result ≡ names.sort_of_role role }
{
    match role {
        Role::Principal => 11,
        Role::Host => 2,
        Role::Function => 12,
        Role::Parameter | Role::Turn | Role::Variable => 13,
        Role::Constant => 14,
        Role::Array => 18,
    }
}

/// The number that the protocol has for what a name stands for.
fn sort_of(declared: Option<Declared>) -> u8
    ensures { result ≡ names.sort_of declared }
{
    match declared {
        Some(declared) => sort_of_role(declared.role),
        None => 13,
    }
}

/// What a name declares.
fn symbol_of(alloc: Global, text: &[u8], name: Use) -> Result<Symbol, AllocError>
    ensures { IfOk result (λ symbol. symbol ≡ names.symbol_of text.now name) }
{
    let word = word(alloc, spelled(text, name.at), sort_of(name.declared))?;
    Ok(Symbol {
        word,
        range: range_of(text, name.at),
    })
}

/// What these names declare.
fn symbols_of(alloc: Global, text: &[u8], uses: &[Use]) -> Result<Items<Symbol>, AllocError>
    ensures { IfOk result (λ symbols. symbols ≡ map (names.symbol_of text.now) uses.now) }
{
    let mut symbols = Items::new(alloc);
    for name in uses {
        let symbol = symbol_of(alloc, text, *name)?;
        symbols.push(symbol)?;
    }
    Ok(symbols)
}

/// What a text declares that has these names.
pub(crate) fn symbols(alloc: Global, text: &[u8], uses: &[Use]) -> Result<Items<Symbol>, AllocError>
    ensures { IfOk result (λ symbols. symbols ≡ names.symbols text.now uses.now) }
{
    let declaring = declarations(alloc, uses)?;
    symbols_of(alloc, text, declaring.as_slice())
}

/// The words that are no names.
const KEYWORDS: [&[u8]; 26] = [
    b"principals",
    b"host",
    b"fun",
    b"return",
    b"main",
    b"let",
    b"var",
    b"if",
    b"else",
    b"for",
    b"to",
    b"output",
    b"input",
    b"declassify",
    b"endorse",
    b"word",
    b"bool",
    b"true",
    b"false",
    b"min",
    b"max",
    b"mux",
    b"any",
    b"none",
    b"all",
    b"array",
];

/// Adds these words, which are of this sort.
fn push_words(
    alloc: Global,
    found: &mut Items<Word>,
    words: &[Name],
    sort: u8,
) -> Result<(), AllocError>
    ensures { OnOk result (found.new ≡ found.old ++ map (λ bytes. names.word bytes sort) words.now) }
{
    for bytes in words {
        let word = word(alloc, bytes.as_slice(), sort)?;
        found.push(word)?;
    }
    Ok(())
}

/// Adds words of the language, which are of this sort.
fn push_fixed(
    alloc: Global,
    found: &mut Items<Word>,
    words: &[&[u8]],
    sort: u8,
) -> Result<(), AllocError>
    ensures { OnOk result (found.new ≡ found.old ++ map (λ bytes. names.word bytes.now sort) words.now) }
{
    for bytes in words {
        let word = word(alloc, bytes, sort)?;
        found.push(word)?;
    }
    Ok(())
}

/// Adds the keywords.
fn push_keywords(alloc: Global, found: &mut Items<Word>) -> Result<(), AllocError>
    ensures { OnOk result (found.new ≡ found.old ++ map (λ bytes. names.word bytes 14) keywords) }
{
    push_fixed(alloc, found, &KEYWORDS, 14)
}

/// The words that stand in a text, and the keywords.
pub(crate) fn completions(alloc: Global, words: &[Name]) -> Result<Items<Word>, AllocError>
    ensures { IfOk result (λ found. found ≡ names.completions words.now) }
{
    let mut found = Items::new(alloc);
    push_words(alloc, &mut found, words, 6)?;
    push_keywords(alloc, &mut found)?;
    Ok(found)
}
