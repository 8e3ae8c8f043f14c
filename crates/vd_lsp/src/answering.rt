//! What questions on a document are answered with.

ghost use Rattle.std.specs.Prelude.{IfOk};
ghost use Rattle.vd_lsp_messages.specs.declared.kinds.Question.TheVariants as asks;
ghost use Rattle.vd_lsp.specs.Answering.{IsAnswer, IsRenaming};

use crate::hovers::hover;
use crate::names::{
    bytes_of, completions, declared_at, definition, edits, is_free, name_at, references, symbols,
};
use std::alloc::{AllocError, Global};
use vd_base::{Name, Text};
use vd_lsp_messages::{Answer, Document, Question};
use vd_lsp_names::{names_of, words_of};
use vd_lsp_wire::Place;

/// Where the name at a place is declared.
fn to_definition(
    alloc: Global,
    document: &Document,
    place: Place,
) -> Result<Option<Answer>, AllocError>
    ensures { IfOk result (IsAnswer document.now (asks.Definition place)) }
{
    let text = bytes_of(document);
    let names = names_of(alloc, text)?;
    let declared = declared_at(text, names.as_slice(), place);
    let answer = definition(alloc, document, declared)?;
    Ok(Some(answer))
}

/// Where the declaration of the name at a place has names.
fn to_references(
    alloc: Global,
    document: &Document,
    place: Place,
) -> Result<Option<Answer>, AllocError>
    ensures { IfOk result (IsAnswer document.now (asks.References place)) }
{
    let text = bytes_of(document);
    let names = names_of(alloc, text)?;
    let declared = declared_at(text, names.as_slice(), place);
    let answer = references(alloc, document, names.as_slice(), declared)?;
    Ok(Some(answer))
}

/// What is to be changed, so that the declaration of the name at a place has a name that is none of these words.
fn renamed(
    alloc: Global,
    document: &Document,
    place: Place,
    word: &str,
    words: &[Name],
) -> Result<Option<Answer>, AllocError>
    ensures { IfOk result (IsRenaming document.now place word.now words.now) }
{
    let text = bytes_of(document);
    let names = names_of(alloc, text)?;
    if !is_free(words, word.as_bytes()) {
        return Ok(None);
    }
    let declared = declared_at(text, names.as_slice(), place);
    let answer = edits(alloc, document, names.as_slice(), word, declared)?;
    Ok(Some(answer))
}

/// What is to be changed, so that the declaration of the name at a place has that name.
fn to_rename(
    alloc: Global,
    document: &Document,
    place: Place,
    word: &Text,
) -> Result<Option<Answer>, AllocError>
    ensures { IfOk result (IsAnswer document.now (asks.Rename place word.now)) }
{
    let words = words_of(alloc, bytes_of(document))?;
    renamed(alloc, document, place, word.as_str(), words.as_slice())
}

/// What a document declares.
fn to_symbols(alloc: Global, document: &Document) -> Result<Option<Answer>, AllocError>
    ensures { IfOk result (IsAnswer document.now asks.Symbols) }
{
    let text = bytes_of(document);
    let names = names_of(alloc, text)?;
    let found = symbols(alloc, text, names.as_slice())?;
    Ok(Some(Answer::Symbols(found)))
}

/// Which words may be written.
fn to_completion(alloc: Global, document: &Document) -> Result<Option<Answer>, AllocError>
    ensures { IfOk result (IsAnswer document.now asks.Completion) }
{
    let words = words_of(alloc, bytes_of(document))?;
    let found = completions(alloc, words.as_slice())?;
    Ok(Some(Answer::Words(found)))
}

/// What is to be said of the name at a place.
fn to_hover(alloc: Global, document: &Document, place: Place) -> Result<Option<Answer>, AllocError>
    ensures { IfOk result (IsAnswer document.now (asks.Hover place)) }
{
    let text = bytes_of(document);
    let names = names_of(alloc, text)?;
    let name = name_at(text, names.as_slice(), place);
    let answer = hover(alloc, document, name)?;
    Ok(Some(answer))
}

/// What a question on a document is answered with: with nothing of a new name that is none, or that stands in the text.
pub(crate) fn answer_to(
    alloc: Global,
    document: &Document,
    question: &Question,
) -> Result<Option<Answer>, AllocError>
    ensures { IfOk result (IsAnswer document.now question.now) }
{
    match question {
        Question::Definition(place) => to_definition(alloc, document, *place),
        Question::References(place) => to_references(alloc, document, *place),
        Question::Rename(place, word) => to_rename(alloc, document, *place, word),
        Question::Symbols => to_symbols(alloc, document),
        Question::Completion => to_completion(alloc, document),
        Question::Hover(place) => to_hover(alloc, document, *place),
    }
}
