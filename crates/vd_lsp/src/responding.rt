//! What a server answers to a message.

ghost use Rattle.std.specs.Prelude.{◌≡◌, ◌++◌, ◌∷◌, [], IfOk, option_copied};
ghost use Rattle.vd_lsp.specs.States as states;
ghost use Rattle.vd_lsp.specs.States.{AreHintsOf, IsAsked, IsFlushed, IsPublished, IsReplied, IsStep, IsTurn};

use crate::answering::answer_to;
use crate::faults::faults_of;
use crate::names::{bytes_of, ranges_of};
use crate::states::{Phase, Server};
use std::alloc::{AllocError, Global};
use vd_base::{Items, Text};
use vd_lsp_messages::{
    Answer, Code, Document, Fault, Id, Incoming, Outgoing, Published, Question, Range,
};
use vd_lsp_names::{names_of, unused};

/// What a server does after a message.
#[derive(Drop)]
pub enum Turn {
    /// It says nothing.
    Silent,
    Says(Outgoing),
    /// It ends with this status.
    Ends(u8),
}

/// What a server says before it answers a message, what it answers, and what it keeps.
#[derive(Drop)]
pub struct Step {
    pub before: Option<Outgoing>,
    pub turn: Turn,
    pub server: Server,
}

/// Whether a document has another name.
fn is_other(document: &Document, uri: &str) -> bool
    ensures { result ≡ states.is_other uri.now document.now }
{
    document.uri.as_str() != uri
}

/// Lets the document with this name go.
fn let_go(documents: &mut Vec<Document>, uri: &str)
    ensures { documents.new.items ≡ states.without uri.now documents.old.items }
{
    documents.retain(|document| is_other(document, uri));
}

/// These documents without the one with this name.
fn without(documents: Items<Document>, uri: &str) -> Items<Document>
    ensures { result ≡ states.without uri.now documents }
{
    let mut documents = documents.into_vec();
    let_go(&mut documents, uri);
    Items::from_vec(documents)
}

/// These documents with another one, or another text of one, which is then the last.
fn with_document(
    documents: Items<Document>,
    document: Document,
) -> Result<Items<Document>, AllocError>
    ensures { IfOk result (λ now. now ≡ states.without document.uri documents ++ document ∷ []) }
{
    let mut documents = without(documents, document.uri.as_str());
    documents.push(document)?;
    Ok(documents)
}

/// The document whose faults are still to be published.
fn due_of(server: &Server) -> Option<&Document>
    ensures { option_copied result ≡ states.due_of server.now }
{
    if server.due {
        server.documents.as_slice().last()
    } else {
        None
    }
}

/// Whether this is the name of a document, if there is one.
fn names(document: Option<&Document>, uri: &str) -> bool
    ensures { result ≡ states.names uri.now (option_copied document.entry) }
{
    match document {
        Some(document) => document.uri.as_str() == uri,
        None => false,
    }
}

/// Whether a message gives the due document another text, so that the one that it had is not looked at.
fn replaces(message: &Incoming, due: Option<&Document>) -> bool
    ensures { result ≡ states.replaces message.now (option_copied due.entry) }
{
    match message {
        Incoming::Opened(document) => names(due, document.uri.as_str()),
        Incoming::Changed(document) => names(due, document.uri.as_str()),
        Incoming::Closed(uri) => names(due, uri.as_str()),
        _ => false,
    }
}

/// Where a text declares what it does not use.
fn unused_of(alloc: Global, text: &[u8]) -> Result<Items<Range>, AllocError>
    ensures { IfOk result (AreHintsOf text.now []) }
{
    let names = names_of(alloc, text)?;
    let spans = unused(alloc, names.as_slice())?;
    ranges_of(alloc, text, spans.as_slice())
}

/// Where a text declares what it does not use, if it has no faults.
fn hints_of(alloc: Global, text: &[u8], faults: &[Fault]) -> Result<Items<Range>, AllocError>
    ensures { IfOk result (AreHintsOf text.now faults.now) }
{
    match faults {
        [] => unused_of(alloc, text),
        [_fault, ..] => Ok(Items::new(alloc)),
    }
}

/// The faults of a document.
fn publish(alloc: Global, document: &Document) -> Result<Outgoing, AllocError>
    ensures { IfOk result (IsPublished document.now) }
{
    let text = bytes_of(document);
    let faults = faults_of(alloc, document.uri.as_str(), text)?;
    let unused = hints_of(alloc, text, faults.as_slice())?;
    let uri = Text::copy_of(alloc, document.uri.as_str())?;
    Ok(Outgoing::Published(Published {
        uri,
        version: Some(document.version),
        faults,
        unused,
    }))
}

/// The faults of a document, if there is one.
fn flushed(alloc: Global, due: Option<&Document>) -> Result<Option<Outgoing>, AllocError>
    ensures { IfOk result (IsFlushed (option_copied due.entry)) }
{
    match due {
        Some(document) => {
            let published = publish(alloc, document)?;
            Ok(Some(published))
        }
        None => Ok(None),
    }
}

/// The faults that are due, which are published where no more messages are there.
pub fn flush(alloc: Global, server: &Server) -> Result<Option<Outgoing>, AllocError>
    ensures { IfOk result (IsFlushed (states.due_of server.now)) }
{
    flushed(alloc, due_of(server))
}

/// The faults that are published before a message is answered.
fn before(
    alloc: Global,
    server: &Server,
    message: &Incoming,
) -> Result<Option<Outgoing>, AllocError>
    ensures { IfOk result (IsFlushed (states.due_before server.now message.now)) }
{
    let due = due_of(server);
    if replaces(message, due) {
        Ok(None)
    } else {
        flushed(alloc, due)
    }
}

/// The server, of which nothing is due any more.
pub(crate) fn settled(server: Server) -> Server
    ensures { result ≡ states.settled server }
{
    let Server {
        phase,
        documents,
        ..
    } = server;
    Server {
        phase,
        documents,
        due: false,
    }
}

/// Takes the text of a document.
fn opened(server: Server, document: Document) -> Result<Server, AllocError>
    ensures { IfOk result (λ now. now ≡ states.opened_in server.phase document server) }
{
    let Server {
        phase,
        documents,
        due,
    } = server;
    match phase {
        Phase::Running => {
            let documents = with_document(documents, document)?;
            Ok(Server {
                phase,
                documents,
                due: true,
            })
        }
        _ => Ok(Server {
            phase,
            documents,
            due,
        }),
    }
}

/// Lets a document go.
fn closed(server: Server, uri: &str) -> Server
    ensures { result ≡ states.closed_in server.phase uri.now server }
{
    let Server {
        phase,
        documents,
        due,
    } = server;
    let documents = match phase {
        Phase::Running => without(documents, uri),
        _ => documents,
    };
    Server {
        phase,
        documents,
        due,
    }
}

/// Where a server stands after `initialize`.
fn begun(phase: Phase) -> Phase
    ensures { result ≡ states.begun phase }
{
    match phase {
        Phase::Fresh => Phase::Running,
        other => other,
    }
}

/// Where a server stands after `shutdown`.
fn ended(phase: Phase) -> Phase
    ensures { result ≡ states.ended phase }
{
    match phase {
        Phase::Running => Phase::Ended,
        other => other,
    }
}

/// The server in another phase.
fn in_phase(server: Server, phase: Phase) -> Server
    ensures { result ≡ record server { phase = phase } }
{
    let Server { documents, due, .. } = server;
    Server {
        phase,
        documents,
        due,
    }
}

/// What becomes of a server, of which nothing is due, by a message.
fn after(server: Server, message: Incoming) -> Result<Server, AllocError>
    ensures { IfOk result (λ now. now ≡ states.after server message) }
{
    let phase = server.phase;
    match message {
        Incoming::Initialize(_id) => Ok(in_phase(server, begun(phase))),
        Incoming::Shutdown(_id) => Ok(in_phase(server, ended(phase))),
        Incoming::Opened(document) => opened(server, document),
        Incoming::Changed(document) => opened(server, document),
        Incoming::Closed(uri) => Ok(closed(server, uri.as_str())),
        _ => Ok(server),
    }
}

/// Why a request is refused that asks for something else.
fn refusal(phase: Phase) -> Code
    ensures { result ≡ states.refusal phase }
{
    match phase {
        Phase::Fresh => Code::Early,
        Phase::Running => Code::NoMethod,
        Phase::Ended => Code::Invalid,
    }
}

/// A copy of the name of a request.
fn copy_of(alloc: Global, id: &Id) -> Result<Id, AllocError>
    ensures { IfOk result (λ copy. copy ≡ id.now) }
{
    match id {
        Id::Null => Ok(Id::Null),
        Id::Number(number) => Ok(Id::Number(*number)),
        Id::Text(text) => {
            let text = Text::copy_of(alloc, text.as_str())?;
            Ok(Id::Text(text))
        }
    }
}

/// The answer to `initialize`.
fn to_initialize(phase: Phase, id: Id) -> Outgoing
    ensures { result ≡ states.to_initialize phase id }
{
    match phase {
        Phase::Fresh => Outgoing::Initialized(id),
        _ => Outgoing::Refused(id, Code::Invalid),
    }
}

/// The answer to `shutdown`.
fn to_shutdown(phase: Phase, id: Id) -> Outgoing
    ensures { result ≡ states.to_shutdown phase id }
{
    match phase {
        Phase::Running => Outgoing::Done(id),
        other => Outgoing::Refused(id, refusal(other)),
    }
}

/// What is said of a document that was closed: that it has no faults any more.
fn to_closed(alloc: Global, phase: Phase, uri: &str) -> Result<Turn, AllocError>
    ensures { IfOk result (λ turn. turn ≡ states.to_closed phase uri.now) }
{
    match phase {
        Phase::Running => {
            let uri = Text::copy_of(alloc, uri)?;
            Ok(Turn::Says(Outgoing::Published(Published {
                uri,
                version: None,
                faults: Items::new(alloc),
                unused: Items::new(alloc),
            })))
        }
        _ => Ok(Turn::Silent),
    }
}

/// The status with which a server ends at `exit`.
fn exit_status(phase: Phase) -> u8
    ensures { result ≡ states.exit_status phase }
{
    match phase {
        Phase::Ended => 0,
        _ => 1,
    }
}

/// The refusal of a request.
fn refused(alloc: Global, id: &Id, code: Code) -> Result<Turn, AllocError>
    ensures { IfOk result (λ turn. turn ≡ states.refused id.now code) }
{
    let id = copy_of(alloc, id)?;
    Ok(Turn::Says(Outgoing::Refused(id, code)))
}

/// The answer to `initialize`, as a turn.
fn initialize_turn(alloc: Global, phase: Phase, id: &Id) -> Result<Turn, AllocError>
    ensures { IfOk result (λ turn. turn ≡ states.turn_to (states.to_initialize phase id.now)) }
{
    let id = copy_of(alloc, id)?;
    Ok(Turn::Says(to_initialize(phase, id)))
}

/// The answer to `shutdown`, as a turn.
fn shutdown_turn(alloc: Global, phase: Phase, id: &Id) -> Result<Turn, AllocError>
    ensures { IfOk result (λ turn. turn ≡ states.turn_to (states.to_shutdown phase id.now)) }
{
    let id = copy_of(alloc, id)?;
    Ok(Turn::Says(to_shutdown(phase, id)))
}

/// The document with this name, if it is open.
fn document_at<'a>(documents: &'a [Document], uri: &str) -> Option<&'a Document>
    ensures { option_copied result ≡ states.document_at uri.now documents.now }
{
    for document in documents {
        if document.uri.as_str() == uri {
            return Some(document);
        }
    }
    None
}

/// The answer to a question, or the refusal of a new name.
fn reply(id: Id, answer: Option<Answer>) -> Outgoing
    ensures { result ≡ states.reply id answer }
{
    match answer {
        Some(answer) => Outgoing::Answered(id, answer),
        None => Outgoing::Refused(id, Code::Name),
    }
}

/// The answer to a question on a document, or on none.
fn replied(
    alloc: Global,
    id: &Id,
    document: Option<&Document>,
    question: &Question,
) -> Result<Turn, AllocError>
    ensures { IfOk result (IsReplied id.now (option_copied document.entry) question.now) }
{
    let id = copy_of(alloc, id)?;
    match document {
        Some(document) => {
            let answer = answer_to(alloc, document, question)?;
            Ok(Turn::Says(reply(id, answer)))
        }
        None => Ok(Turn::Says(Outgoing::Answered(id, Answer::Nothing))),
    }
}

/// The answer to a question on the document with this name.
fn asked(
    alloc: Global,
    server: &Server,
    id: &Id,
    uri: &str,
    question: &Question,
) -> Result<Turn, AllocError>
    ensures { IfOk result (IsAsked server.now.phase id.now (states.document_at uri.now server.now.documents) question.now) }
{
    match server.phase {
        Phase::Running => {
            let document = document_at(server.documents.as_slice(), uri);
            replied(alloc, id, document, question)
        }
        other => refused(alloc, id, refusal(other)),
    }
}

/// What a server answers to a message.
fn turn_of(alloc: Global, server: &Server, message: &Incoming) -> Result<Turn, AllocError>
    ensures { IfOk result (IsTurn server.now message.now) }
{
    let phase = server.phase;
    match message {
        Incoming::Malformed => refused(alloc, &Id::Null, Code::Parse),
        Incoming::Invalid(id) => refused(alloc, id, Code::Invalid),
        Incoming::Initialize(id) => initialize_turn(alloc, phase, id),
        Incoming::Shutdown(id) => shutdown_turn(alloc, phase, id),
        Incoming::Asked(id, uri, question) => asked(alloc, server, id, uri.as_str(), question),
        Incoming::Unknown(id) => refused(alloc, id, refusal(phase)),
        Incoming::Opened(_) | Incoming::Changed(_) | Incoming::Passed => Ok(Turn::Silent),
        Incoming::Closed(uri) => to_closed(alloc, phase, uri.as_str()),
        Incoming::Exit => Ok(Turn::Ends(exit_status(phase))),
    }
}

/// What a server does with a message: what it says before, what it answers, and what it keeps.
pub fn respond(alloc: Global, server: Server, message: Incoming) -> Result<Step, AllocError>
    ensures { IfOk result (IsStep server message) }
{
    let before = before(alloc, &server, &message)?;
    let turn = turn_of(alloc, &server, &message)?;
    let server = after(settled(server), message)?;
    Ok(Step {
        before,
        turn,
        server,
    })
}
