use vd_base::{Items, Text};
use vd_lsp_wire::Place;

/// With what a request is named, so that its answer can be told from others.
#[derive(Drop)]
pub enum Id {
    /// It has no name, or none that the protocol knows.
    Null,
    Number(i64),
    Text(Text),
}

/// The text of a document that an editor has open, and its version.
#[derive(Drop)]
pub struct Document {
    pub uri: Text,
    pub version: i64,
    pub text: Text,
}

/// What is asked of a document.
#[derive(Drop)]
pub enum Question {
    /// Where the name at this place is declared.
    Definition(Place),
    /// Where the declaration of the name at this place has names.
    References(Place),
    /// What is to be changed, so that the declaration of the name at this place has that name.
    Rename(Place, Text),
    /// What the document declares.
    Symbols,
    /// Which words may be written.
    Completion,
    /// What is to be said of the name at this place.
    Hover(Place),
}

/// What the body of a message asks for.
#[derive(Drop)]
pub enum Incoming {
    /// The body is no JSON.
    Malformed,
    /// JSON that is neither a request, a notification nor an answer.
    Invalid(Id),
    Initialize(Id),
    Shutdown(Id),
    /// A question on the document with this name.
    Asked(Id, Text, Question),
    /// A request for something else.
    Unknown(Id),
    /// A document was opened.
    Opened(Document),
    /// A document has another text.
    Changed(Document),
    /// The document with this name was closed.
    Closed(Text),
    Exit,
    /// A notification of something else, or an answer: nothing is to be done.
    Passed,
}

/// Why a request is refused.
#[derive(Clone, Copy)]
pub enum Code {
    /// The body is no JSON.
    Parse,
    /// The request cannot be made, or not now.
    Invalid,
    /// There is no such method.
    NoMethod,
    /// The server was not initialized.
    Early,
    /// The new name of something is no name, or is there.
    Name,
}

/// From where to where something stands in a text.
#[derive(Clone, Copy)]
pub struct Range {
    pub start: Place,
    pub end: Place,
}

/// A fault of a text: from where to where it is marked, the number of its status, and what is said of it.
#[derive(Drop)]
pub struct Fault {
    pub start: Place,
    pub end: Place,
    pub status: u8,
    pub sentence: Text,
}

/// The faults of a document at a version, and where it declares what is not used; at no version, where it was closed.
#[derive(Drop)]
pub struct Published {
    pub uri: Text,
    pub version: Option<i64>,
    pub faults: Items<Fault>,
    pub unused: Items<Range>,
}

/// A word that a document declares or that may be written, with the number that the protocol has for its sort.
#[derive(Drop)]
pub struct Word {
    pub text: Text,
    pub sort: u8,
}

/// A word that a document declares, and where.
#[derive(Drop)]
pub struct Symbol {
    pub word: Word,
    pub range: Range,
}

/// What is to be changed in a document at this version: in each of the ranges that word is to stand.
#[derive(Drop)]
pub struct Edits {
    pub uri: Text,
    pub version: i64,
    pub ranges: Items<Range>,
    pub word: Text,
}

/// What a question is answered with.
#[derive(Drop)]
pub enum Answer {
    Nothing,
    /// Ranges of the document with this name.
    Places(Text, Items<Range>),
    Edits(Edits),
    Symbols(Items<Symbol>),
    Words(Items<Word>),
    /// What is said of a range.
    Said(Text, Range),
}

/// What the server says.
#[derive(Drop)]
pub enum Outgoing {
    /// What the server can do.
    Initialized(Id),
    /// The request was carried out, and has no result.
    Done(Id),
    /// The answer to a question.
    Answered(Id, Answer),
    Refused(Id, Code),
    Published(Published),
}
