//! What questions are answered with, as JSON.

ghost use Rattle.std.specs.Prelude.{◌≡◌, IfOk};
ghost use Rattle.serde_json.specs.Data.{array};
ghost use Rattle.serde_json.specs.View.{view};
ghost use Rattle.vd_lsp_messages.specs.Answers as answers;

use crate::kinds::{Answer, Edits, Range, Symbol, Word};
use serde_json::{Value, json};
use std::alloc::{AllocError, Global};
use vd_lsp_wire::Place;

/// A place.
fn place_value(alloc: Global, place: Place) -> Result<Value, AllocError>
    ensures { IfOk result (λ value. view value ≡ answers.place_data place) }
{
    let line = place.line as u64;
    let column = place.column as u64;
    json!(in alloc; {"line": line, "character": column})
}

/// From where to where something stands.
pub(crate) fn range_value(alloc: Global, start: Place, end: Place) -> Result<Value, AllocError>
    ensures { IfOk result (λ value. view value ≡ answers.range_data start end) }
{
    let start = place_value(alloc, start)?;
    let end = place_value(alloc, end)?;
    json!(in alloc; {"start": start, "end": end})
}

/// A range of the document with this name.
fn location_value(alloc: Global, uri: &str, range: Range) -> Result<Value, AllocError>
    ensures { IfOk result (λ value. view value ≡ answers.location_data uri.now range) }
{
    let range = range_value(alloc, range.start, range.end)?;
    json!(in alloc; {"uri": uri, "range": range})
}

/// Ranges of the document with this name, in order.
fn locations_value(alloc: Global, uri: &str, ranges: &[Range]) -> Result<Value, AllocError>
    ensures { IfOk result (λ value. view value ≡ array (answers.locations_data uri.now ranges.now)) }
{
    let mut values = Vec::new(alloc);
    for range in ranges {
        let value = location_value(alloc, uri, *range)?;
        serde_json::push(&mut values, value)?;
    }
    Ok(Value::Array(values))
}

/// That a word is to stand in a range.
fn edit_value(alloc: Global, word: &str, range: Range) -> Result<Value, AllocError>
    ensures { IfOk result (λ value. view value ≡ answers.edit_data word.now range) }
{
    let range = range_value(alloc, range.start, range.end)?;
    json!(in alloc; {"range": range, "newText": word})
}

/// That a word is to stand in each of these ranges.
fn edit_values(alloc: Global, word: &str, ranges: &[Range]) -> Result<Value, AllocError>
    ensures { IfOk result (λ value. view value ≡ array (answers.edit_items word.now ranges.now)) }
{
    let mut values = Vec::new(alloc);
    for range in ranges {
        let value = edit_value(alloc, word, *range)?;
        serde_json::push(&mut values, value)?;
    }
    Ok(Value::Array(values))
}

/// What is to be changed in a document.
fn change_value(alloc: Global, edits: &Edits) -> Result<Value, AllocError>
    ensures { IfOk result (λ value. view value ≡ answers.change_data edits.now) }
{
    let values = edit_values(alloc, edits.word.as_str(), edits.ranges.as_slice())?;
    let uri = edits.uri.as_str();
    let version = edits.version;
    json!(in alloc; {"textDocument": {"uri": uri, "version": version}, "edits": values})
}

/// What is to be changed.
fn edits_value(alloc: Global, edits: &Edits) -> Result<Value, AllocError>
    ensures { IfOk result (λ value. view value ≡ answers.edits_data edits.now) }
{
    let change = change_value(alloc, edits)?;
    json!(in alloc; {"documentChanges": [change]})
}

/// A word that a document declares.
fn symbol_value(alloc: Global, symbol: &Symbol) -> Result<Value, AllocError>
    ensures { IfOk result (λ value. view value ≡ answers.symbol_data symbol.now) }
{
    let range = range_value(alloc, symbol.range.start, symbol.range.end)?;
    let selected = range_value(alloc, symbol.range.start, symbol.range.end)?;
    let name = symbol.word.text.as_str();
    let sort = symbol.word.sort;
    json!(in alloc; {"name": name, "kind": sort, "range": range, "selectionRange": selected})
}

/// Words that a document declares, in order.
fn symbols_value(alloc: Global, symbols: &[Symbol]) -> Result<Value, AllocError>
    ensures { IfOk result (λ value. view value ≡ array (answers.symbols_data symbols.now)) }
{
    let mut values = Vec::new(alloc);
    for symbol in symbols {
        let value = symbol_value(alloc, symbol)?;
        serde_json::push(&mut values, value)?;
    }
    Ok(Value::Array(values))
}

/// A word that may be written.
fn word_value(alloc: Global, word: &Word) -> Result<Value, AllocError>
    ensures { IfOk result (λ value. view value ≡ answers.word_data word.now) }
{
    let label = word.text.as_str();
    let sort = word.sort;
    json!(in alloc; {"label": label, "kind": sort})
}

/// Words that may be written, in order.
fn words_value(alloc: Global, words: &[Word]) -> Result<Value, AllocError>
    ensures { IfOk result (λ value. view value ≡ array (answers.words_data words.now)) }
{
    let mut values = Vec::new(alloc);
    for word in words {
        let value = word_value(alloc, word)?;
        serde_json::push(&mut values, value)?;
    }
    Ok(Value::Array(values))
}

/// What is said of a range.
fn said_value(alloc: Global, text: &str, range: Range) -> Result<Value, AllocError>
    ensures { IfOk result (λ value. view value ≡ answers.said_data text.now range) }
{
    let range = range_value(alloc, range.start, range.end)?;
    json!(in alloc; {"contents": {"kind": "plaintext", "value": text}, "range": range})
}

/// What a question is answered with.
pub(crate) fn answer_value(alloc: Global, answer: &Answer) -> Result<Value, AllocError>
    ensures { IfOk result (λ value. view value ≡ answers.answer_data answer.now) }
{
    match answer {
        Answer::Nothing => Ok(Value::Null),
        Answer::Places(uri, ranges) => locations_value(alloc, uri.as_str(), ranges.as_slice()),
        Answer::Edits(edits) => edits_value(alloc, edits),
        Answer::Symbols(symbols) => symbols_value(alloc, symbols.as_slice()),
        Answer::Words(words) => words_value(alloc, words.as_slice()),
        Answer::Said(text, range) => said_value(alloc, text.as_str(), *range),
    }
}
