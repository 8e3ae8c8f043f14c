//! What is said of a status of which no file is read.

ghost use Rattle.std.specs.Prelude.{◌≡◌, IfOk, Some};
ghost use Rattle.vd_diag.specs.Files as sentences;
ghost use Rattle.vd_diag_terminal.specs.Alone as texts;
ghost use Rattle.vd_diag_terminal.specs.Files as files;

use crate::words::{CERTIFICATE, DEAL, PREFIX, PROGRAM, command, is_command, word_at};
use crate::wrong::wrong_of;
use std::alloc::{AllocError, Global};
use vd_base::{Bytes, Texts};
use vd_cmd_plan::{HostStatus, Status, file_name};
use vd_diag::{Remark, certificate_sentence, deal_sentence, program_sentence, tell, usage_of};

/// How the command that was meant is called, and which word is wrong.
fn of_usage(alloc: Global, words: &Texts) -> Result<Bytes, AllocError>
    ensures { IfOk result (λ text. text ≡ texts.of_usage words.now) }
{
    let wrong = wrong_of(alloc, words)?;
    let mut text = Bytes::from_slice(alloc, usage_of(command(words)))?;
    text.extend_from_slice(wrong.as_slice())?;
    Ok(text)
}

/// A sentence on the whole file with this name.
fn of_whole(alloc: Global, name: &str, sentence: Bytes) -> Result<Bytes, AllocError>
    ensures { IfOk result (λ text. text ≡ texts.of_whole name.now sentence) }
{
    let remark = Remark {
        offset: None,
        sentence,
    };
    tell(alloc, false, name, b"", &remark)
}

/// A sentence on the whole file that the word at this place names; nothing where there is no such word.
fn of_word(alloc: Global, words: &Texts, place: usize, sentence: Bytes) -> Result<Bytes, AllocError>
    ensures { IfOk result (λ text. text ≡ texts.of_word words.now place sentence) }
{
    match word_at(words, place) {
        Some(name) => of_whole(alloc, name, sentence),
        None => Ok(Bytes::new(alloc)),
    }
}

/// What is said of a certificate that goes on as none does from this byte on.
fn of_certificate(alloc: Global, words: &Texts, offset: u32) -> Result<Bytes, AllocError>
    ensures { IfOk result (λ text. text ≡ texts.of_word words.now 2 (sentences.certificate_sentence offset)) }
{
    let sentence = certificate_sentence(alloc, offset)?;
    of_word(alloc, words, CERTIFICATE, sentence)
}

/// What is said of the deal file with this prefix and number, which goes on as none does from this byte on.
fn of_prefixed(alloc: Global, prefix: &str, number: u8, offset: u32) -> Result<Bytes, AllocError>
    ensures { IfOk result (λ text. text ≡ texts.of_numbered (Some prefix.now) number offset) }
{
    let name = file_name(alloc, prefix, usize::from(number), ".deal")?;
    let sentence = deal_sentence(alloc, offset)?;
    of_whole(alloc, name.as_str(), sentence)
}

/// The same, where a word names the prefix; nothing where there is no such word.
fn of_numbered(alloc: Global, words: &Texts, number: u8, offset: u32) -> Result<Bytes, AllocError>
    ensures { IfOk result (λ text. text ≡ texts.of_numbered (files.word_at words.now 3) number offset) }
{
    match word_at(words, PREFIX) {
        Some(prefix) => of_prefixed(alloc, prefix, number, offset),
        None => Ok(Bytes::new(alloc)),
    }
}

/// What is said of the deal file of the host with this number, which goes on as none does from this byte on; nothing of those of
/// `excuse`, whose prefix is another word.
fn of_deal(alloc: Global, words: &Texts, number: u8, offset: u32) -> Result<Bytes, AllocError>
    ensures { IfOk result (λ text. text ≡ texts.of_deal words.now number offset) }
{
    if is_command(words, b"excuse") {
        return Ok(Bytes::new(alloc));
    }
    if is_command(words, b"check")
        || is_command(words, b"host")
        || is_command(words, b"host-within")
    {
        let sentence = deal_sentence(alloc, offset)?;
        return of_word(alloc, words, DEAL, sentence);
    }
    of_numbered(alloc, words, number, offset)
}

/// What is said of a host program that goes on as none does from this byte on.
fn of_program(alloc: Global, words: &Texts, offset: u32) -> Result<Bytes, AllocError>
    ensures { IfOk result (λ text. text ≡ texts.of_word words.now 1 (sentences.program_sentence offset)) }
{
    let sentence = program_sentence(alloc, offset)?;
    of_word(alloc, words, PROGRAM, sentence)
}

/// What is said of a host that did not run to its end.
fn of_host(alloc: Global, words: &Texts, fault: &HostStatus) -> Result<Bytes, AllocError>
    ensures { IfOk result (λ text. text ≡ texts.of_host words.now fault.now) }
{
    match fault {
        HostStatus::ProgramText(offset) => of_program(alloc, words, *offset),
        _ => Ok(Bytes::new(alloc)),
    }
}

/// What is said of a status of which no file is read; nothing where there is no more to say.
pub(crate) fn alone(alloc: Global, words: &Texts, status: &Status) -> Result<Bytes, AllocError>
    ensures { IfOk result (λ text. text ≡ texts.alone words.now status.now) }
{
    match status {
        Status::Usage => of_usage(alloc, words),
        Status::CertificateText(offset) => of_certificate(alloc, words, *offset),
        Status::DealText(_, number, offset) => of_deal(alloc, words, *number, *offset),
        Status::Host(fault) => of_host(alloc, words, fault),
        _ => Ok(Bytes::new(alloc)),
    }
}
