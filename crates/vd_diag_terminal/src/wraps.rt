//! What is said of the operators that wrapped in a run of `clear`.

ghost use Rattle.std.specs.Prelude.{◌≡◌, ◌++◌, true, IfOk, OnOk, flat_map};
ghost use Rattle.std.specs.List.{list_any};
ghost use Rattle.vd_diag_terminal.specs.Files as names;
ghost use Rattle.vd_diag_terminal.specs.Wraps as lines;

use crate::telling::{Destination, said_of_fault};
use crate::words::{INPUTS, SOURCE, is_command, word_at};
use itoa::Buffer;
use std::alloc::{AllocError, Global};
use vd_base::limits::{INPUTS_BYTES, SOURCE_BYTES};
use vd_base::{Bytes, Items, Texts};
use vd_cmd_labels::what_wraps;
use vd_cmd_plan::Status;
use vd_core::Infix;
use vd_diag::{TellFault, headline, three};
use vd_outside::{FetchFault, Files, Sink, write_all};
use vd_semantics::Wrap;

/// Whether two operators stand at one place.
fn is_at(wrap: Wrap, other: Wrap) -> bool
    ensures { result ≡ lines.is_at wrap other }
{
    wrap.at.start == other.at.start
}

/// Whether an operator is among these.
fn is_among(places: &[Wrap], wrap: Wrap) -> bool
    ensures { result ≡ list_any (lines.is_at wrap) places.now }
{
    for place in places {
        if is_at(wrap, *place) {
            return true;
        }
    }
    false
}

/// Adds a place that is not there yet.
fn add_place(places: &mut Items<Wrap>, wrap: Wrap) -> Result<(), AllocError>
    ensures { OnOk result (places.new ≡ lines.with_place places.old wrap) }
{
    if !is_among(places.as_slice(), wrap) {
        places.push(wrap)?;
    }
    Ok(())
}

/// Each place once, in the order in which they wrapped first.
fn places_of(alloc: Global, wraps: &[Wrap]) -> Result<Items<Wrap>, AllocError>
    ensures { IfOk result (λ places. places ≡ lines.places_of wraps.now) }
{
    let mut places = Items::new(alloc);
    for wrap in wraps {
        add_place(&mut places, *wrap)?;
    }
    Ok(places)
}

/// How often an operator wrapped.
fn times_at(wraps: &[Wrap], wrap: Wrap) -> usize
    ensures { result ≡ lines.times_at wraps.now wrap }
{
    let mut times = 0;
    for other in wraps {
        if is_at(wrap, *other) {
            times += 1;
        }
    }
    times
}

/// Which operator wrapped, and how.
fn which_text(operator: Infix) -> &'static [u8]
    ensures { result.now ≡ lines.which_text operator }
{
    match operator {
        Infix::Add => b"this sum went above 4294967295 and wrapped, ",
        Infix::Sub => b"this difference went below 0 and wrapped, ",
        Infix::Mul
        | Infix::Equal
        | Infix::NotEqual
        | Infix::Less
        | Infix::LessEqual
        | Infix::Greater
        | Infix::GreaterEqual
        | Infix::Or
        | Infix::Xor
        | Infix::And
        | Infix::Div
        | Infix::Rem => b"this product went above 4294967295 and wrapped, ",
    }
}

/// What so many times are called.
fn noun_of(times: usize) -> &'static str
    ensures { result.now ≡ lines.noun_of times }
{
    if times == 1 { " time" } else { " times" }
}

/// What is said of an operator that wrapped so often.
fn wrap_sentence(alloc: Global, operator: Infix, times: usize) -> Result<Bytes, AllocError>
    ensures { IfOk result (λ text. text ≡ lines.wrap_sentence operator times) }
{
    let mut buffer = Buffer::new();
    let number = buffer.format(times as u64).as_bytes();
    three(
        alloc,
        which_text(operator),
        number,
        noun_of(times).as_bytes(),
    )
}

/// Puts the line of a place at the end.
fn push_line(
    text: &mut Bytes,
    alloc: Global,
    coloured: bool,
    name: &str,
    bytes: &[u8],
    wraps: &[Wrap],
    wrap: Wrap,
) -> Result<(), AllocError>
    ensures { OnOk result (text.new ≡ text.old ++ lines.wrap_line coloured name.now bytes.now wraps.now wrap) }
{
    let sentence = wrap_sentence(alloc, wrap.operator, times_at(wraps, wrap))?;
    let offset = wrap.at.start as usize;
    let line = headline(alloc, coloured, name, bytes, offset, sentence.as_slice())?;
    text.extend_from_slice(line.as_slice())
}

/// Puts a line for each of these places at the end.
fn push_lines(
    text: &mut Bytes,
    alloc: Global,
    coloured: bool,
    name: &str,
    bytes: &[u8],
    wraps: &[Wrap],
    places: &[Wrap],
) -> Result<(), AllocError>
    ensures { OnOk result (text.new ≡ text.old ++ flat_map (lines.wrap_line coloured name.now bytes.now wraps.now) places.now) }
{
    for place in places {
        push_line(text, alloc, coloured, name, bytes, wraps, *place)?;
    }
    Ok(())
}

/// A line for each place.
fn wrap_lines(
    alloc: Global,
    coloured: bool,
    name: &str,
    bytes: &[u8],
    wraps: &[Wrap],
) -> Result<Bytes, AllocError>
    ensures { IfOk result (λ text. text ≡ lines.wrap_lines coloured name.now bytes.now wraps.now) }
{
    let places = places_of(alloc, wraps)?;
    let mut text = Bytes::new(alloc);
    push_lines(
        &mut text,
        alloc,
        coloured,
        name,
        bytes,
        wraps,
        places.as_slice(),
    )?;
    Ok(text)
}

/// What is said of a run over the texts of a source and of inputs.
fn wraps_text(
    alloc: Global,
    coloured: bool,
    name: &str,
    bytes: &[u8],
    words: &[u8],
) -> Result<Bytes, AllocError>
    ensures { IfOk result (lines.IsWrapsText coloured name.now bytes.now words.now) }
{
    let wraps = what_wraps(alloc, bytes, words)?;
    wrap_lines(alloc, coloured, name, bytes, wraps.as_slice())
}

/// The same, by what the fetch of the inputs gave.
fn told_of_words(
    alloc: Global,
    coloured: bool,
    name: &str,
    bytes: &[u8],
    given: Result<Bytes, FetchFault>,
) -> Result<Bytes, TellFault>
    ensures { IfOk result (lines.IsToldOfWords coloured name.now bytes.now given) }
{
    match given {
        Ok(words) => {
            let text = wraps_text(alloc, coloured, name, bytes, words.as_slice())?;
            Ok(text)
        }
        Err(fault) => said_of_fault(alloc, fault),
    }
}

/// The same, by what both fetches gave.
fn told_of_run(
    alloc: Global,
    coloured: bool,
    name: &str,
    came: Result<Bytes, FetchFault>,
    given: Result<Bytes, FetchFault>,
) -> Result<Bytes, TellFault>
    ensures { IfOk result (lines.IsToldOfRun coloured name.now came given) }
{
    match came {
        Ok(bytes) => told_of_words(alloc, coloured, name, bytes.as_slice(), given),
        Err(fault) => said_of_fault(alloc, fault),
    }
}

/// What is said of a run over the files with these names.
fn said_of_run<F: Files>(
    alloc: Global,
    coloured: bool,
    files: &mut F,
    source: &str,
    inputs: &str,
) -> Result<Bytes, TellFault>
    ensures { lines.IsSaidOfRun coloured source.now inputs.now (F.view files.old) (F.view files.new) result }
{
    let came = files.fetch(source, SOURCE_BYTES);
    let given = files.fetch(inputs, INPUTS_BYTES);
    told_of_run(alloc, coloured, source, came, given)
}

/// The same; nothing where no word names the inputs.
fn said_of_named<F: Files>(
    alloc: Global,
    coloured: bool,
    words: &Texts,
    files: &mut F,
    source: &str,
) -> Result<Bytes, TellFault>
    ensures { lines.IsSaidOfNamed coloured source.now (names.word_at words.now 2) (F.view files.old) (F.view files.new) result }
{
    match word_at(words, INPUTS) {
        Some(inputs) => said_of_run(alloc, coloured, files, source, inputs),
        None => Ok(Bytes::new(alloc)),
    }
}

/// What is said of a run of `clear` with these words; nothing where they do not name its files.
fn said_of_clear<F: Files>(
    alloc: Global,
    coloured: bool,
    words: &Texts,
    files: &mut F,
) -> Result<Bytes, TellFault>
    ensures { lines.IsSaidOfNames coloured (names.word_at words.now 1) (names.word_at words.now 2)
        (F.view files.old) (F.view files.new) result }
{
    match word_at(words, SOURCE) {
        Some(source) => said_of_named(alloc, coloured, words, files, source),
        None => Ok(Bytes::new(alloc)),
    }
}

/// Says it, as far as the stream takes it. It is refused where there is no memory for the text; then nothing is written.
fn say_of_clear<F: Files, E: Sink>(
    alloc: Global,
    coloured: bool,
    words: &Texts,
    files: &mut F,
    err: &mut E,
) -> Result<(), TellFault>
    ensures { lines.SaysOfRun coloured words.now (F.view files.old) (F.view files.new) (E.view err.old) (E.view err.new) result }
{
    let text = said_of_clear(alloc, coloured, words, files)?;
    let _ = write_all(err, text.as_slice());
    Ok(())
}

/// Whether a run of `clear` ended well.
fn is_clear_run(words: &Texts, status: &Status) -> bool
    ensures { result ≡ lines.is_clear_run words.now status.now }
{
    match status {
        Status::Ended => is_command(words, b"clear"),
        _ => false,
    }
}

/// Says what wrapped in a run of `clear`, by where the error stream goes.
fn say_where<F: Files, E: Sink>(
    alloc: Global,
    destination: Destination,
    words: &Texts,
    files: &mut F,
    err: &mut E,
) -> Result<(), TellFault>
    ensures { lines.SaysWhere true destination words.now (F.view files.old) (F.view files.new) (E.view err.old) (E.view err.new) result }
{
    match destination {
        Destination::File => Ok(()),
        Destination::Asked => say_of_clear(alloc, false, words, files, err),
        Destination::Terminal { coloured } => say_of_clear(alloc, coloured, words, files, err),
    }
}

/// Says which sums, differences and products wrapped in a run of `clear` that ended well, and how often: to the person at a terminal,
/// and elsewhere to whom asks. Both files are fetched again for it. It is refused where there is no memory for the text.
pub fn say_wraps<F: Files, E: Sink>(
    alloc: Global,
    destination: Destination,
    words: &Texts,
    files: &mut F,
    err: &mut E,
    status: &Status,
) -> Result<(), TellFault>
    ensures { lines.SaysWraps destination words.now status.now (F.view files.old) (F.view files.new)
        (E.view err.old) (E.view err.new) result }
{
    if is_clear_run(words, status) {
        say_where(alloc, destination, words, files, err)
    } else {
        Ok(())
    }
}
