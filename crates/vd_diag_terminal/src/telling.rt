//! What is said of a status to a person, besides its line.

ghost use Rattle.std.specs.Prelude.{◌≡◌, ◌++◌, IfOk, OnOk, Some, []};
ghost use Rattle.vd_diag_terminal.specs.Said as texts;
ghost use Rattle.vd_diag_terminal.specs.Saying.{SaysMore, SaysTo};

use crate::alone::alone;
use crate::diag_flow::flow_steps;
use crate::files::{Reading, reading_of};
use crate::remarks::remark_on;
use crate::words::word_at;
use std::alloc::{AllocError, Global};
use vd_base::{Bytes, Items, Texts};
use vd_cmd_plan::Status;
use vd_diag::{Remark, TellFault, tell, tell_place};
use vd_outside::{FetchFault, Files, Sink, write_all};

/// Where standard error goes.
#[derive(Clone, Copy)]
pub enum Destination {
    /// Into a file or a pipe, which get the line of a status and no more.
    File,
    /// Into a file or a pipe of somebody who asks for more, without colours.
    Asked,
    /// To a terminal, with colours or without.
    Terminal { coloured: bool },
}

/// A remark on the bytes of the file with this name as it is printed: of inputs, which are secret, no line is shown.
fn print_remark(
    alloc: Global,
    coloured: bool,
    name: &str,
    bytes: &[u8],
    status: &Status,
    remark: &Remark,
) -> Result<Bytes, AllocError>
    ensures { IfOk result (λ text. text ≡ texts.told_of status.now coloured name.now bytes.now remark.now) }
{
    match status {
        Status::InputText(_) => tell_place(alloc, coloured, name, bytes, remark),
        _ => tell(alloc, coloured, name, bytes, remark),
    }
}

/// The remark on the bytes of the file with this name, as it is printed; nothing where there is none.
fn remark_told(
    alloc: Global,
    coloured: bool,
    name: &str,
    bytes: &[u8],
    status: &Status,
) -> Result<Bytes, TellFault>
    ensures { IfOk result (texts.IsRemarkTold coloured status.now name.now bytes.now) }
{
    let found = remark_on(alloc, bytes, status)?;
    match found {
        Some(remark) => {
            let text = print_remark(alloc, coloured, name, bytes, status, &remark)?;
            Ok(text)
        }
        None => Ok(Bytes::new(alloc)),
    }
}

/// The steps to a status of the file with these bytes: of a flow that is not allowed a place and a sentence for each rule by which its
/// check fails, from where the label enters; of others none.
pub fn steps_on(alloc: Global, bytes: &[u8], status: &Status) -> Result<Items<Remark>, TellFault>
    ensures { IfOk result (texts.AreStepsOn bytes.now status.now) }
{
    match status {
        Status::Flow(fault) => flow_steps(alloc, bytes, fault.number),
        _ => Ok(Items::new(alloc)),
    }
}

/// Adds steps as they are printed.
fn add_steps(
    alloc: Global,
    text: &mut Bytes,
    coloured: bool,
    name: &str,
    bytes: &[u8],
    steps: &[Remark],
) -> Result<(), AllocError>
    ensures { OnOk result (text.new ≡ text.old ++ texts.steps_told coloured name.now bytes.now steps.now) }
{
    for step in steps {
        let told = tell(alloc, coloured, name, bytes, step)?;
        text.extend_from_slice(told.as_slice())?;
    }
    Ok(())
}

/// The remark on the bytes of the file with this name, and the steps behind it, as they are printed.
fn all_told(
    alloc: Global,
    coloured: bool,
    name: &str,
    bytes: &[u8],
    status: &Status,
) -> Result<Bytes, TellFault>
    ensures { IfOk result (texts.IsAllTold coloured status.now name.now bytes.now) }
{
    let mut text = remark_told(alloc, coloured, name, bytes, status)?;
    let steps = steps_on(alloc, bytes, status)?;
    add_steps(alloc, &mut text, coloured, name, bytes, steps.as_slice())?;
    Ok(text)
}

/// What is said where a file is not given: nothing, unless there was no memory for it.
pub(crate) fn said_of_fault(alloc: Global, fault: FetchFault) -> Result<Bytes, TellFault>
    ensures { IfOk result (λ text. text ≡ []) }
{
    match fault {
        FetchFault::Failed | FetchFault::TooLong => Ok(Bytes::new(alloc)),
        FetchFault::Memory => Err(TellFault::Memory),
    }
}

/// What is said of a status by the file with this name; nothing where it is not given or is longer than the limit.
fn said_of_file<F: Files>(
    alloc: Global,
    coloured: bool,
    files: &mut F,
    name: &str,
    limit: u32,
    status: &Status,
) -> Result<Bytes, TellFault>
    ensures { texts.IsSaidOfFile coloured status.now name.now limit (F.view files.old) (F.view files.new) result }
{
    match files.fetch(name, limit) {
        Ok(bytes) => all_told(alloc, coloured, name, bytes.as_slice(), status),
        Err(fault) => said_of_fault(alloc, fault),
    }
}

/// What is said of a status by the file that is read for it; nothing where no word names it.
fn said_by<F: Files>(
    alloc: Global,
    coloured: bool,
    words: &Texts,
    files: &mut F,
    reading: Reading,
    status: &Status,
) -> Result<Bytes, TellFault>
    ensures { texts.IsSaidBy coloured words.now status.now (Some reading) (F.view files.old) (F.view files.new) result }
{
    match word_at(words, reading.word) {
        Some(name) => said_of_file(alloc, coloured, files, name, reading.limit, status),
        None => Ok(Bytes::new(alloc)),
    }
}

/// What is said of a status; nothing where there is no more to say.
fn said<F: Files>(
    alloc: Global,
    coloured: bool,
    words: &Texts,
    files: &mut F,
    status: &Status,
) -> Result<Bytes, TellFault>
    ensures { texts.IsSaid coloured words.now status.now (F.view files.old) (F.view files.new) result }
{
    match reading_of(words, status) {
        Some(reading) => said_by(alloc, coloured, words, files, reading, status),
        None => {
            let text = alone(alloc, words, status)?;
            Ok(text)
        }
    }
}

/// Says more of a status at a terminal, where there is more to say: the text that belongs to it, as far as the stream takes
/// it. It is refused where there is no memory for the text; then nothing is written.
fn say_at_terminal<F: Files, E: Sink>(
    alloc: Global,
    coloured: bool,
    words: &Texts,
    files: &mut F,
    err: &mut E,
    status: &Status,
) -> Result<(), TellFault>
    ensures { SaysMore coloured words.now status.now (F.view files.old) (F.view files.new) (E.view err.old) (E.view err.new) result }
{
    let text = said(alloc, coloured, words, files, status)?;
    let _ = write_all(err, text.as_slice());
    Ok(())
}

/// Says more of a status to the person at a terminal, and elsewhere to whom asks: the text that belongs to it, where there is one. At most one file is
/// fetched for it, and none is stored. It is refused where there is no memory for the text; then nothing is written.
pub fn say_more<F: Files, E: Sink>(
    alloc: Global,
    destination: Destination,
    words: &Texts,
    files: &mut F,
    err: &mut E,
    status: &Status,
) -> Result<(), TellFault>
    ensures { SaysTo destination words.now status.now (F.view files.old) (F.view files.new) (E.view err.old) (E.view err.new) result }
{
    match destination {
        Destination::File => Ok(()),
        Destination::Asked => say_at_terminal(alloc, false, words, files, err, status),
        Destination::Terminal { coloured } => {
            say_at_terminal(alloc, coloured, words, files, err, status)
        }
    }
}
