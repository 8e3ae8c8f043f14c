//! Sentences on names of hosts, schedules and machine-written files, and on a search.

ghost use Rattle.std.specs.Prelude.{◌≡◌, IfOk};
ghost use Rattle.vd_diag.specs.Files as files;
ghost use Rattle.vd_diag.specs.Inputs.{token_at as token_there};

use crate::inputs::token_at;
use crate::parts::three;
use itoa::Buffer;
use std::alloc::{AllocError, Global};
use vd_base::Bytes;

/// What is said of a name at an offset that is no host of the source.
pub fn host_sentence(alloc: Global, bytes: &[u8], offset: u32) -> Result<Bytes, AllocError>
    ensures { IfOk result (λ text. text ≡ files.host_sentence (token_there bytes.now offset)) }
{
    three(
        alloc,
        b"`",
        token_at(bytes, offset),
        b"` is no host of the source",
    )
}

/// What a schedule has.
#[tactic(auto, unfolding(crate::specs::Files::schedule_sentence))]
pub fn schedule_sentence() -> &'static str
    ensures { result.now ≡ files.schedule_sentence }
{
    "a schedule has names of hosts, and may end with `all`"
}

/// What is said of a file from a byte on.
fn from_byte(alloc: Global, offset: u32, said: &[u8]) -> Result<Bytes, AllocError>
    ensures { IfOk result (λ text. text ≡ files.from_byte offset said.now) }
{
    let mut buffer = Buffer::new();
    three(alloc, b"from byte ", buffer.format(offset).as_bytes(), said)
}

/// What is said of a deal file behind this offset: whether the number of hosts is another one, or that of the host.
fn deal_said(offset: u32) -> &'static str
    ensures { result.now ≡ files.deal_said offset }
{
    if offset == 15 {
        " on no deal of this program goes on as this file does: there stands the number of its hosts"
    } else if offset == 17 {
        " on no deal of this host goes on as this file does: there stands the number of the host whose deal it is"
    } else {
        " on no deal file goes on as this file does; `viaduct deal` makes deal files"
    }
}

/// What is said of a deal file that goes on as no deal does from this byte on.
pub fn deal_sentence(alloc: Global, offset: u32) -> Result<Bytes, AllocError>
    ensures { IfOk result (λ text. text ≡ files.deal_sentence offset) }
{
    from_byte(alloc, offset, deal_said(offset).as_bytes())
}

/// What is said of a certificate that goes on as none does from this byte on.
pub fn certificate_sentence(alloc: Global, offset: u32) -> Result<Bytes, AllocError>
    ensures { IfOk result (λ text. text ≡ files.certificate_sentence offset) }
{
    from_byte(
        alloc,
        offset,
        b" on no certificate goes on as this file does; `viaduct choose` makes certificates",
    )
}

/// What is said of a host program that goes on as none does from this byte on.
pub fn program_sentence(alloc: Global, offset: u32) -> Result<Bytes, AllocError>
    ensures { IfOk result (λ text. text ≡ files.program_sentence offset) }
{
    from_byte(
        alloc,
        offset,
        b" on no host program goes on as this file does; `viaduct compile` makes host programs",
    )
}

/// What is said of a search that needs more than this budget.
pub fn spent_sentence(alloc: Global, budget: u32) -> Result<Bytes, AllocError>
    ensures { IfOk result (λ text. text ≡ files.spent_sentence budget) }
{
    let mut buffer = Buffer::new();
    let budget = buffer.format(budget).as_bytes();
    three(
        alloc,
        b"the search opened ",
        budget,
        b" prefixes of choices and needs more; at most 200000 may be given",
    )
}

/// What is said where no choice of protocols is valid.
#[tactic(auto, unfolding(crate::specs::Files::no_assignment_sentence))]
pub fn no_assignment_sentence() -> &'static str
    ensures { result.now ≡ files.no_assignment_sentence }
{
    "no choice of protocols is valid for this source"
}
