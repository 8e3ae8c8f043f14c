//! The members of a message.

ghost use Rattle.std.specs.Prelude.{◌≡◌, option_map, is_some, IfOk};
ghost use Rattle.serde_json.specs.View.{view, items_view};
ghost use Rattle.vd_lsp_messages.specs.Members as members;

use crate::kinds::{Document, Id};
use serde_json::Value;
use std::alloc::{AllocError, Global};
use vd_base::Text;

/// The method that a message names.
pub(crate) fn name_of(message: &Value) -> Option<&str>
    ensures { option_map (λ name. name.now) result ≡ members.name_of (view message.now) }
{
    message.get("method")?.as_str()
}

/// Whether a message has a name for its answer.
pub(crate) fn has_id(message: &Value) -> bool
    ensures { result ≡ members.has_id (view message.now) }
{
    message.get("id").is_some()
}

/// Whether a message is an answer.
pub(crate) fn is_answer(message: &Value) -> bool
    ensures { result ≡ members.is_answer (view message.now) }
{
    message.get("result").is_some() || message.get("error").is_some()
}

/// What a value is as the name of a request.
fn id_from(alloc: Global, id: &Value) -> Result<Id, AllocError>
    ensures { IfOk result (λ id'. id' ≡ members.id_from (view id.now)) }
{
    if let Some(text) = id.as_str() {
        let text = Text::copy_of(alloc, text)?;
        return Ok(Id::Text(text));
    }
    match id.as_i64() {
        Some(number) => Ok(Id::Number(number)),
        None => Ok(Id::Null),
    }
}

/// With what a message is named.
pub(crate) fn id_of(alloc: Global, message: &Value) -> Result<Id, AllocError>
    ensures { IfOk result (λ id. id ≡ members.id_of (view message.now)) }
{
    match message.get("id") {
        Some(id) => id_from(alloc, id),
        None => Ok(Id::Null),
    }
}

/// The document of which a message speaks.
fn document_of(message: &Value) -> Option<&Value>
    ensures { option_map (λ document. view document.now) result ≡ members.document_of (view message.now) }
{
    message.get("params")?.get("textDocument")
}

/// The name of the document of which a message speaks.
pub(crate) fn uri_of(message: &Value) -> Option<&str>
    ensures { option_map (λ uri. uri.now) result ≡ members.uri_of (view message.now) }
{
    document_of(message)?.get("uri")?.as_str()
}

/// The version of the document of which a message speaks.
fn version_of(message: &Value) -> Option<i64>
    ensures { result ≡ members.version_of (view message.now) }
{
    document_of(message)?.get("version")?.as_i64()
}

/// The text of a document that was opened.
fn opened_text(message: &Value) -> Option<&str>
    ensures { option_map (λ text. text.now) result ≡ members.opened_text (view message.now) }
{
    document_of(message)?.get("text")?.as_str()
}

/// The last of these values.
fn last_of(values: &Vec<Value>) -> Option<&Value>
    ensures { option_map (λ value. view value.now) result ≡ members.last_item (items_view values.now.items) }
{
    values.as_slice().last()
}

/// The changes of a document, in order.
fn changes_of(message: &Value) -> Option<&Vec<Value>>
    ensures { option_map (λ changes. items_view changes.now.items) result ≡ members.changes_of (view message.now) }
{
    message.get("params")?.get("contentChanges")?.as_array()
}

/// The text of a document after its changes, each of which gives the whole text.
fn changed_text(message: &Value) -> Option<&str>
    ensures { option_map (λ text. text.now) result ≡ members.changed_text (view message.now) }
{
    last_of(changes_of(message)?)?.get("text")?.as_str()
}

/// A document with this text, where all its parts are there.
fn with_text(
    alloc: Global,
    message: &Value,
    text: Option<&str>,
) -> Result<Option<Document>, AllocError>
    ensures { IfOk result (λ document. document ≡ members.with_text (view message.now) (option_map (λ text. text.now) text.entry)) }
{
    let Some(text) = text else {
        return Ok(None);
    };
    let Some(uri) = uri_of(message) else {
        return Ok(None);
    };
    let Some(version) = version_of(message) else {
        return Ok(None);
    };
    let uri = Text::copy_of(alloc, uri)?;
    let text = Text::copy_of(alloc, text)?;
    Ok(Some(Document { uri, version, text }))
}

/// The document that was opened.
pub(crate) fn opened_document(
    alloc: Global,
    message: &Value,
) -> Result<Option<Document>, AllocError>
    ensures { IfOk result (λ document. document ≡ members.opened_document (view message.now)) }
{
    with_text(alloc, message, opened_text(message))
}

/// The document that was changed, as it is afterwards.
pub(crate) fn changed_document(
    alloc: Global,
    message: &Value,
) -> Result<Option<Document>, AllocError>
    ensures { IfOk result (λ document. document ≡ members.changed_document (view message.now)) }
{
    with_text(alloc, message, changed_text(message))
}
