//! The command `check`.

ghost use Rattle.std.specs.Prelude.{◌≡◌, Ok, Some, IfOk};
ghost use Rattle.vd_hostcode.specs.Outcome.{CanRun, IsHeaded};
ghost use Rattle.vd_outside.specs.Files.{FilesView};
ghost use Rattle.vd_cmd_host.specs.Checking.{HostChecks, LooksFor, TellsFindings, amounts_in, check_text, end_after, end_of, first_short};
ghost use Rattle.vd_cmd_host.specs.Loading.{LoadsFiles};

use crate::amounts::{amounts_in, first_short};
use crate::check_lines::check_text;
use crate::loading::{Loaded, load_files};
use crate::marking::mark_name;
use std::alloc::{AllocError, Global};
use vd_base::{Bytes, CallFault, Failed, Text};
use vd_channel_crypto::Secrets;
use vd_cmd::CheckWords;
use vd_cmd_plan::{HostStatus, Status};
use vd_outside::{Files, Marks, Sink, write_all};

/// Whether the mark of a deal of version 2 stands. A look that fails is a fault of the deal's file.
fn look_for_mark<M: Marks>(
    alloc: Global,
    marks: &mut M,
    words: &CheckWords,
    loaded: &Loaded,
    secrets: &Secrets,
) -> Result<bool, Status>
    requires { loaded.now.dealt.secrets ≡ Some secrets.now }
    ensures { LooksFor words.now loaded.now (M.view marks.old) (M.view marks.new) result }
{
    let name = mark_name(alloc, &secrets.id, loaded.program.me)?;
    let deal = Text::copy_of(alloc, words.deal.as_str())?;
    match marks.is_taken(words.deal.as_str(), name.as_slice()) {
        Ok(used) => Ok(used),
        Err(CallFault::Failed) => Err(Status::ReadFault(deal)),
        Err(CallFault::Memory) => Err(Status::Memory),
    }
}

/// Whether the deal was used. One of version 1 has no mark.
fn look<M: Marks>(
    alloc: Global,
    marks: &mut M,
    words: &CheckWords,
    loaded: &Loaded,
) -> Result<bool, Status>
    ensures { LooksFor words.now loaded.now (M.view marks.old) (M.view marks.new) result }
{
    match &loaded.dealt.secrets {
        None => Ok(false),
        Some(secrets) => look_for_mark(alloc, marks, words, loaded, secrets),
    }
}

/// How a check ends whose text is written, by whether the deal was used and where a list is short.
fn end_of(
    alloc: Global,
    words: &CheckWords,
    used: bool,
    short: Option<HostStatus>,
) -> Result<Status, AllocError>
    ensures { IfOk result (λ end. end ≡ end_of words.now used short) }
{
    if used {
        let deal = Text::copy_of(alloc, words.deal.as_str())?;
        return Ok(Status::DealUsed(deal));
    }
    match short {
        Some(short) => Ok(Status::Host(short)),
        None => Ok(Status::Ended),
    }
}

/// What a check finds: what it prints, and how it ends where that is written.
#[derive(Drop)]
struct Findings {
    text: Bytes,
    end: Status,
}

/// What a check of files that were read finds.
fn look_through(
    alloc: Global,
    words: &CheckWords,
    loaded: &Loaded,
    used: bool,
) -> Result<Findings, AllocError>
    requires heading { IsHeaded loaded.now.program }
    requires code { CanRun loaded.now.program }
    ensures text { IfOk result (λ findings. findings.text ≡ check_text loaded.now (amounts_in loaded.now) used) }
    ensures end { IfOk result (λ findings. findings.end ≡ end_of words.now used (first_short (amounts_in loaded.now))) }
{
    let amounts = amounts_in(alloc, loaded)?;
    let text = check_text(alloc, loaded, &amounts, used)?;
    let end = end_of(alloc, words, used, first_short(&amounts))?;
    Ok(Findings { text, end })
}

/// How a check ends, by whether its text was written.
fn end_after(written: Result<(), Failed>, end: Status) -> Status
    ensures { result ≡ end_after written end }
{
    match written {
        Ok(()) => end,
        Err(Failed) => Status::WriteFault,
    }
}

/// Writes what a check finds, and tells how it ends.
fn tell_findings<O: Sink>(
    alloc: Global,
    out: &mut O,
    words: &CheckWords,
    loaded: &Loaded,
    used: bool,
) -> Status
    requires heading { IsHeaded loaded.now.program }
    requires code { CanRun loaded.now.program }
    ensures { TellsFindings words.now loaded.now used (O.view out.old) (O.view out.new) result }
{
    match look_through(alloc, words, loaded, used) {
        Ok(findings) => {
            let written = write_all(out, findings.text.as_slice());
            end_after(written, findings.end)
        }
        Err(error) => Status::from(error),
    }
}

/// Checks a host whose files were read.
fn check_loaded<M: Marks, O: Sink>(
    alloc: Global,
    marks: &mut M,
    out: &mut O,
    words: &CheckWords,
    loaded: &Loaded,
) -> Status
    requires heading { IsHeaded loaded.now.program }
    requires code { CanRun loaded.now.program }
    ensures { (before now : FilesView) → LoadsFiles words.now before now (Ok loaded.now) →
        HostChecks words.now before now (M.view marks.old) (M.view marks.new) (O.view out.old) (O.view out.new) result }
{
    match look(alloc, marks, words, loaded) {
        Err(status) => status,
        Ok(used) => tell_findings(alloc, out, words, loaded, used),
    }
}

/// Checks the three files of a host before it is run: it prints the plan, how many inputs and items the code takes at most and how many
/// there are, and whether the deal was used. Where something is short or used, it ends as the host might. No mark is taken.
pub fn check<F: Files, M: Marks, O: Sink>(
    alloc: Global,
    files: &mut F,
    marks: &mut M,
    out: &mut O,
    words: &CheckWords,
) -> Status
    ensures { HostChecks words.now (F.view files.old) (F.view files.new) (M.view marks.old) (M.view marks.new)
        (O.view out.old) (O.view out.new) result }
{
    match load_files(alloc, files, words) {
        Err(status) => status,
        Ok(loaded) => check_loaded(alloc, marks, out, words, &loaded),
    }
}
