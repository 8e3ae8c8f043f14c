//! The faults of a text, as an editor shows them.

ghost use Rattle.std.specs.Prelude.{◌≡◌, IfOk};
ghost use Rattle.std.specs.Str.Lossy.{utf8_lossy};
ghost use Rattle.vd_lsp.specs.Faults.{AreFaultsOf, IsFaultOf, IsOnlyFault, IsRefused};
ghost use Rattle.vd_lsp.specs.Faults as faults;

use crate::checking::check_text;
use std::alloc::{AllocError, Global};
use vd_base::{Items, Text};
use vd_cmd_plan::Status;
use vd_diag::Remark;
use vd_diag_terminal::remark_on;
use vd_lsp_messages::Fault;
use vd_lsp_wire::{Place, mark_end, place_of};

/// What is said of a text that is too long.
const LONG_SENTENCE: &[u8] = b"a source has at most 65536 bytes";

/// A sentence as text, with U+FFFD for what is no UTF-8.
pub(crate) fn text_of(alloc: Global, sentence: &[u8]) -> Result<Text, AllocError>
    ensures { IfOk result (λ text. text ≡ utf8_lossy sentence.now) }
{
    let text = String::from_utf8_lossy(alloc, sentence)?;
    Text::copy_of(alloc, text.as_str())
}

/// The place from which a fault is marked.
fn start_of(text: &[u8], offset: Option<u32>) -> Place
    ensures { result ≡ faults.start_of text.now offset }
{
    match offset {
        Some(offset) => place_of(text, offset as usize),
        None => place_of(text, 0),
    }
}

/// The place to which a fault is marked.
fn end_of(text: &[u8], offset: Option<u32>) -> Place
    ensures { result ≡ faults.end_of text.now offset }
{
    match offset {
        Some(offset) => place_of(text, mark_end(text, offset)),
        None => place_of(text, 0),
    }
}

/// A fault with this sentence.
fn marked(
    alloc: Global,
    text: &[u8],
    status: u8,
    offset: Option<u32>,
    sentence: &[u8],
) -> Result<Fault, AllocError>
    ensures { IfOk result (λ fault. fault ≡ faults.marked text.now status offset sentence.now) }
{
    let sentence = text_of(alloc, sentence)?;
    Ok(Fault {
        start: start_of(text, offset),
        end: end_of(text, offset),
        status,
        sentence,
    })
}

/// A fault, by what is said of its status.
fn remarked(
    alloc: Global,
    text: &[u8],
    status: u8,
    remark: Option<Remark>,
) -> Result<Fault, AllocError>
    ensures { IfOk result (λ fault. fault ≡ faults.fault_of text.now status remark) }
{
    match remark {
        Some(remark) => {
            let sentence = remark.sentence.as_slice();
            marked(alloc, text, status, remark.offset, sentence)
        }
        None => marked(alloc, text, status, None, LONG_SENTENCE),
    }
}

/// The fault of a text whose check came to this status.
fn fault_of(alloc: Global, text: &[u8], status: &Status) -> Result<Fault, AllocError>
    ensures { IfOk result (IsFaultOf text.now status.now) }
{
    match remark_on(alloc, text, status) {
        Ok(remark) => remarked(alloc, text, status.code(), remark),
        Err(_) => Err(AllocError),
    }
}

/// The faults of a text whose check came to this status, which is not that there was no memory.
fn only_fault(alloc: Global, text: &[u8], status: &Status) -> Result<Items<Fault>, AllocError>
    ensures { IfOk result (IsOnlyFault text.now status.now) }
{
    let mut faults = Items::new(alloc);
    let fault = fault_of(alloc, text, status)?;
    faults.push(fault)?;
    Ok(faults)
}

/// The faults of a text whose check came to this status. There are none to tell where it wanted memory.
fn faults_for(alloc: Global, text: &[u8], status: &Status) -> Result<Items<Fault>, AllocError>
    ensures { IfOk result (IsRefused text.now status.now) }
{
    match status {
        Status::Memory => Err(AllocError),
        _ => only_fault(alloc, text, status),
    }
}

/// The faults of the text with this name.
pub fn faults_of(alloc: Global, name: &str, text: &[u8]) -> Result<Items<Fault>, AllocError>
    ensures { IfOk result (AreFaultsOf name.now text.now) }
{
    match check_text(alloc, name, text) {
        Ok(_labels) => Ok(Items::new(alloc)),
        Err(status) => faults_for(alloc, text, &status),
    }
}
