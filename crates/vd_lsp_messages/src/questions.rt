//! What is asked of a document.

ghost use Rattle.std.specs.Prelude.{◌≡◌, option_map, IfOk};
ghost use Rattle.serde_json.specs.View.{view};
ghost use Rattle.vd_lsp_messages.specs.Questions as questions;

use crate::kinds::{Id, Incoming, Question};
use crate::members::uri_of;
use serde_json::Value;
use std::alloc::{AllocError, Global};
use vd_base::Text;
use vd_lsp_wire::Place;

/// A number of a place.
fn count_of(place: &Value, key: &str) -> Option<usize>
    ensures { result ≡ questions.count_of key.now (view place.now) }
{
    match place.get(key)?.as_u64() {
        Some(count) => Some(count as usize),
        None => None,
    }
}

/// The place of which a message speaks.
fn position_of(message: &Value) -> Option<&Value>
    ensures { option_map (λ place. view place.now) result ≡ questions.position_of (view message.now) }
{
    message.get("params")?.get("position")
}

/// The place of which a message speaks, as a place.
fn place_of(message: &Value) -> Option<Place>
    ensures { result ≡ questions.place_of (view message.now) }
{
    let place = position_of(message)?;
    let line = count_of(place, "line")?;
    let column = count_of(place, "character")?;
    Some(Place { line, column })
}

/// The new name of which a message speaks.
fn word_of(message: &Value) -> Option<&str>
    ensures { option_map (λ word. word.now) result ≡ questions.word_of (view message.now) }
{
    message.get("params")?.get("newName")?.as_str()
}

/// What a change of a name asks for, where its parts are there.
fn rename_of(alloc: Global, message: &Value) -> Result<Option<Question>, AllocError>
    ensures { IfOk result (λ question. question ≡ questions.rename_of (view message.now)) }
{
    let Some(place) = place_of(message) else {
        return Ok(None);
    };
    let Some(word) = word_of(message) else {
        return Ok(None);
    };
    let word = Text::copy_of(alloc, word)?;
    Ok(Some(Question::Rename(place, word)))
}

/// Where something is declared.
fn definition_of(message: &Value) -> Option<Question>
    ensures { result ≡ questions.definition_of (view message.now) }
{
    match place_of(message) {
        Some(place) => Some(Question::Definition(place)),
        None => None,
    }
}

/// Where something has names.
fn references_of(message: &Value) -> Option<Question>
    ensures { result ≡ questions.references_of (view message.now) }
{
    match place_of(message) {
        Some(place) => Some(Question::References(place)),
        None => None,
    }
}

/// What is to be said of something.
fn hover_of(message: &Value) -> Option<Question>
    ensures { result ≡ questions.hover_of (view message.now) }
{
    match place_of(message) {
        Some(place) => Some(Question::Hover(place)),
        None => None,
    }
}

/// What the request of this name asks of a document, if it asks something of one.
fn question_of(alloc: Global, name: &[u8], message: &Value) -> Result<Option<Question>, AllocError>
    ensures { IfOk result (λ question. question ≡ questions.question_of name.now (view message.now)) }
{
    if name == b"textDocument/definition".as_slice() {
        Ok(definition_of(message))
    } else if name == b"textDocument/references".as_slice() {
        Ok(references_of(message))
    } else if name == b"textDocument/rename".as_slice() {
        rename_of(alloc, message)
    } else if name == b"textDocument/documentSymbol".as_slice() {
        Ok(Some(Question::Symbols))
    } else if name == b"textDocument/completion".as_slice() {
        Ok(Some(Question::Completion))
    } else if name == b"textDocument/hover".as_slice() {
        Ok(hover_of(message))
    } else {
        Ok(None)
    }
}

/// A request with this question.
fn asked_of(
    alloc: Global,
    message: &Value,
    id: Id,
    question: Option<Question>,
) -> Result<Incoming, AllocError>
    ensures { IfOk result (λ incoming. incoming ≡ questions.asked_of (view message.now) id question) }
{
    let Some(question) = question else {
        return Ok(Incoming::Unknown(id));
    };
    let Some(uri) = uri_of(message) else {
        return Ok(Incoming::Unknown(id));
    };
    let uri = Text::copy_of(alloc, uri)?;
    Ok(Incoming::Asked(id, uri, question))
}

/// The request of this name that is neither for the beginning of a server nor for its end.
pub(crate) fn other_request(
    alloc: Global,
    name: &[u8],
    message: &Value,
    id: Id,
) -> Result<Incoming, AllocError>
    ensures { IfOk result (λ incoming. incoming ≡ questions.other_request name.now (view message.now) id) }
{
    let question = question_of(alloc, name, message)?;
    asked_of(alloc, message, id, question)
}
