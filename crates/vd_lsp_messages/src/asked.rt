//! What the body of a message asks for.

ghost use Rattle.std.specs.Prelude.{◌≡◌, IfOk, IsUtf8};
ghost use Rattle.serde_json.specs.Read.{read};
ghost use Rattle.serde_json.specs.View.{view};
ghost use Rattle.vd_lsp_messages.specs.Asked as asked;
ghost use Rattle.vd_lsp_messages.specs.Asked.{IsMessage};

use crate::kinds::{Id, Incoming};
use crate::members::{
    changed_document, has_id, id_of, is_answer, name_of, opened_document, uri_of,
};
use crate::questions::other_request;
use serde_json::Value;
use std::alloc::{AllocError, Global};
use vd_base::Text;

/// The request for this method.
fn request_of(alloc: Global, name: &[u8], message: &Value, id: Id) -> Result<Incoming, AllocError>
    ensures { IfOk result (λ incoming. incoming ≡ asked.request_of name.now (view message.now) id) }
{
    if name == b"initialize".as_slice() {
        Ok(Incoming::Initialize(id))
    } else if name == b"shutdown".as_slice() {
        Ok(Incoming::Shutdown(id))
    } else {
        other_request(alloc, name, message, id)
    }
}

/// A message that a document was opened.
fn opened_of(alloc: Global, message: &Value) -> Result<Incoming, AllocError>
    ensures { IfOk result (λ incoming. incoming ≡ asked.opened_of (view message.now)) }
{
    let document = opened_document(alloc, message)?;
    match document {
        Some(document) => Ok(Incoming::Opened(document)),
        None => Ok(Incoming::Passed),
    }
}

/// A message that a document was changed.
fn changed_of(alloc: Global, message: &Value) -> Result<Incoming, AllocError>
    ensures { IfOk result (λ incoming. incoming ≡ asked.changed_of (view message.now)) }
{
    let document = changed_document(alloc, message)?;
    match document {
        Some(document) => Ok(Incoming::Changed(document)),
        None => Ok(Incoming::Passed),
    }
}

/// A message that a document was closed.
fn closed_of(alloc: Global, message: &Value) -> Result<Incoming, AllocError>
    ensures { IfOk result (λ incoming. incoming ≡ asked.closed_of (view message.now)) }
{
    match uri_of(message) {
        Some(uri) => {
            let uri = Text::copy_of(alloc, uri)?;
            Ok(Incoming::Closed(uri))
        }
        None => Ok(Incoming::Passed),
    }
}

/// The notification of this name.
fn notice_of(alloc: Global, name: &[u8], message: &Value) -> Result<Incoming, AllocError>
    ensures { IfOk result (λ incoming. incoming ≡ asked.notice_of name.now (view message.now)) }
{
    if name == b"textDocument/didOpen".as_slice() {
        opened_of(alloc, message)
    } else if name == b"textDocument/didChange".as_slice() {
        changed_of(alloc, message)
    } else if name == b"textDocument/didClose".as_slice() {
        closed_of(alloc, message)
    } else if name == b"exit".as_slice() {
        Ok(Incoming::Exit)
    } else {
        Ok(Incoming::Passed)
    }
}

/// What a message without a method is.
fn unnamed(alloc: Global, message: &Value) -> Result<Incoming, AllocError>
    ensures { IfOk result (λ incoming. incoming ≡ asked.unnamed (view message.now)) }
{
    if is_answer(message) {
        return Ok(Incoming::Passed);
    }
    let id = id_of(alloc, message)?;
    Ok(Incoming::Invalid(id))
}

/// What a message with this method is.
fn named(alloc: Global, name: &[u8], message: &Value) -> Result<Incoming, AllocError>
    ensures { IfOk result (λ incoming. incoming ≡ asked.named name.now (view message.now)) }
{
    if has_id(message) {
        let id = id_of(alloc, message)?;
        request_of(alloc, name, message, id)
    } else {
        notice_of(alloc, name, message)
    }
}

/// What a message asks for.
fn incoming_of(alloc: Global, message: &Value) -> Result<Incoming, AllocError>
    ensures { IfOk result (λ incoming. incoming ≡ asked.incoming_of (view message.now)) }
{
    match name_of(message) {
        Some(name) => named(alloc, name.as_bytes(), message),
        None => unnamed(alloc, message),
    }
}

/// What a body asks for that is read as JSON.
fn read_value(alloc: Global, message: Value) -> Result<Incoming, AllocError>
    ensures { IfOk result (λ incoming. incoming ≡ asked.incoming_of (view message)) }
{
    incoming_of(alloc, &message)
}

/// What the body of a message asks for.
pub fn read_message(alloc: Global, body: &[u8]) -> Result<Incoming, AllocError>
    ensures { IfOk result (IsMessage body.now) }
{
    match Value::from_slice(alloc, body) {
        Ok(message) => read_value(alloc, message),
        Err(fault) if fault.is_memory() => Err(AllocError),
        Err(_) => Ok(Incoming::Malformed),
    }
}
