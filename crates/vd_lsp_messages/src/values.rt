//! What the server says, as JSON.

ghost use Rattle.std.specs.Prelude.{◌≡◌, IfOk};
ghost use Rattle.serde_json.specs.View.{view};
ghost use Rattle.serde_json.specs.Data.{array};
ghost use Rattle.vd_lsp_messages.specs.Answers.{answer_data};
ghost use Rattle.vd_lsp_messages.specs.Said as said;

use crate::answers::{answer_value, range_value};
use crate::kinds::{Answer, Code, Fault, Id, Outgoing, Published, Range};
use serde_json::{Value, json};
use std::alloc::{AllocError, Global};

/// The name of a request.
fn id_value(alloc: Global, id: &Id) -> Result<Value, AllocError>
    ensures { IfOk result (λ value. view value ≡ said.id_data id.now) }
{
    match id {
        Id::Null => Ok(Value::Null),
        Id::Number(number) => Ok(Value::from(*number)),
        Id::Text(text) => {
            let text = String::from_str(alloc, text.as_str())?;
            Ok(Value::String(text))
        }
    }
}

/// What the server can do.
fn initialized_value(alloc: Global, id: &Id) -> Result<Value, AllocError>
    ensures { IfOk result (λ value. view value ≡ said.initialized (said.id_data id.now)) }
{
    let id = id_value(alloc, id)?;
    json!(in alloc; {
        "jsonrpc": "2.0",
        "id": id,
        "result": {
            "capabilities": {
                "positionEncoding": "utf-16",
                "textDocumentSync": 1,
                "definitionProvider": true,
                "referencesProvider": true,
                "renameProvider": true,
                "documentSymbolProvider": true,
                "completionProvider": {},
                "hoverProvider": true
            },
            "serverInfo": {"name": "viaduct"}
        }
    })
}

/// That a request was carried out.
fn done_value(alloc: Global, id: &Id) -> Result<Value, AllocError>
    ensures { IfOk result (λ value. view value ≡ said.done (said.id_data id.now)) }
{
    let id = id_value(alloc, id)?;
    json!(in alloc; {"jsonrpc": "2.0", "id": id, "result": null})
}

/// The number of a code, as the protocol has it.
fn number_of(code: Code) -> i64
    ensures { result ≡ said.number_of code }
{
    match code {
        Code::Parse => -32700,
        Code::Invalid => -32600,
        Code::NoMethod => -32601,
        Code::Early => -32002,
        Code::Name => -32803,
    }
}

/// What is said of a refusal.
fn words_of(code: Code) -> &'static str
    ensures { result.now ≡ said.words_of code }
{
    match code {
        Code::Parse => "the body is no JSON",
        Code::Invalid => "the request cannot be made here",
        Code::NoMethod => "there is no such method",
        Code::Early => "the server was not initialized",
        Code::Name => "the new name is no name, or stands in the text",
    }
}

/// That a request is refused.
fn refused_value(alloc: Global, id: &Id, code: Code) -> Result<Value, AllocError>
    ensures { IfOk result (λ value. view value ≡ said.refused (said.id_data id.now) code) }
{
    let id = id_value(alloc, id)?;
    let number = number_of(code);
    let words = words_of(code);
    json!(in alloc; {"jsonrpc": "2.0", "id": id, "error": {"code": number, "message": words}})
}

/// A fault.
fn fault_value(alloc: Global, fault: &Fault) -> Result<Value, AllocError>
    ensures { IfOk result (λ value. view value ≡ said.fault_data fault.now) }
{
    let range = range_value(alloc, fault.start, fault.end)?;
    let status = fault.status;
    let sentence = fault.sentence.as_str();
    json!(in alloc; {
        "range": range,
        "severity": 1,
        "code": status,
        "source": "viaduct",
        "message": sentence
    })
}

/// A hint that nothing uses what is declared here.
fn unused_value(alloc: Global, range: Range) -> Result<Value, AllocError>
    ensures { IfOk result (λ value. view value ≡ said.unused_data range) }
{
    let range = range_value(alloc, range.start, range.end)?;
    json!(in alloc; {
        "range": range,
        "severity": 4,
        "source": "viaduct",
        "message": "nothing uses this name",
        "tags": [1]
    })
}

/// These faults, in order, and then the hints.
fn diagnostics_value(alloc: Global, faults: &[Fault], unused: &[Range]) -> Result<Value, AllocError>
    ensures { IfOk result (λ value. view value ≡ array (said.diagnostics faults.now unused.now)) }
{
    let mut values = Vec::new(alloc);
    for fault in faults {
        let value = fault_value(alloc, fault)?;
        serde_json::push(&mut values, value)?;
    }
    for range in unused {
        let value = unused_value(alloc, *range)?;
        serde_json::push(&mut values, value)?;
    }
    Ok(Value::Array(values))
}

/// The faults of a document with this name, at a version.
fn params_value(
    alloc: Global,
    uri: &str,
    version: Option<i64>,
    faults: Value,
) -> Result<Value, AllocError>
    ensures { IfOk result (λ value. view value ≡ said.params uri.now version (view faults)) }
{
    match version {
        Some(version) => {
            json!(in alloc; {"uri": uri, "version": version, "diagnostics": faults})
        }
        None => json!(in alloc; {"uri": uri, "diagnostics": faults}),
    }
}

/// The faults of a document.
fn published_value(alloc: Global, published: &Published) -> Result<Value, AllocError>
    ensures { IfOk result (λ value. view value ≡ said.published published.now) }
{
    let faults = published.faults.as_slice();
    let faults = diagnostics_value(alloc, faults, published.unused.as_slice())?;
    let params = params_value(alloc, published.uri.as_str(), published.version, faults)?;
    json!(in alloc; {
        "jsonrpc": "2.0",
        "method": "textDocument/publishDiagnostics",
        "params": params
    })
}

/// The answer to a question.
fn answered_value(alloc: Global, id: &Id, answer: &Answer) -> Result<Value, AllocError>
    ensures { IfOk result (λ value. view value ≡ said.answered (said.id_data id.now) (answer_data answer.now)) }
{
    let id = id_value(alloc, id)?;
    let answer = answer_value(alloc, answer)?;
    json!(in alloc; {"jsonrpc": "2.0", "id": id, "result": answer})
}

/// What the server says.
pub(crate) fn value_of(alloc: Global, outgoing: &Outgoing) -> Result<Value, AllocError>
    ensures { IfOk result (λ value. view value ≡ said.data_of outgoing.now) }
{
    match outgoing {
        Outgoing::Initialized(id) => initialized_value(alloc, id),
        Outgoing::Done(id) => done_value(alloc, id),
        Outgoing::Answered(id, answer) => answered_value(alloc, id, answer),
        Outgoing::Refused(id, code) => refused_value(alloc, id, *code),
        Outgoing::Published(published) => published_value(alloc, published),
    }
}
