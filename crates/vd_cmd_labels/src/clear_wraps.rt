//! What wraps in a run of `clear`.

ghost use Rattle.std.specs.Prelude.{◌≡◌, ◌≢◌, IfOk};
ghost use Rattle.vd_cmd_labels.specs.WhatWraps.{IsWhatWraps, IsWhatWrapsIn};
ghost use Rattle.vd_semantics.specs.Wraps.{source_wraps};

use crate::sources::names_of_hosts;
use std::alloc::{AllocError, Global};
use vd_base::{Inputs, Items};
use vd_core::Source;
use vd_parser::{ParseFault, parse};
use vd_report::{ReadFault, read_inputs};
use vd_semantics::{SourceRun, Wrap, watch_source};

/// What wraps in a run of this source over these inputs.
fn of_inputs(alloc: Global, source: &Source, inputs: &Inputs) -> Result<Items<Wrap>, AllocError>
    ensures { IfOk result (λ wraps. wraps ≡ source_wraps source.now inputs.now) }
{
    let run = watch_source(alloc, source, inputs)?;
    let SourceRun { outputs: _, wraps } = run;
    Ok(wraps)
}

/// Nothing wraps where a text of inputs is refused, unless there was no memory for it.
fn of_read_fault(alloc: Global, fault: ReadFault) -> Result<Items<Wrap>, AllocError>
    ensures { IfOk result (λ wraps. fault ≢ ReadFault.Memory) }
{
    match fault {
        ReadFault::Memory => Err(AllocError),
        ReadFault::Text(_) | ReadFault::UnknownHost(_) => Ok(Items::new(alloc)),
    }
}

/// The same where a text is no source.
fn of_parse_fault(alloc: Global, fault: ParseFault) -> Result<Items<Wrap>, AllocError>
    ensures { IfOk result (λ wraps. fault ≢ ParseFault.Memory) }
{
    match fault {
        ParseFault::Memory => Err(AllocError),
        ParseFault::BadByte(_)
        | ParseFault::Unexpected(_, _)
        | ParseFault::TooDeep(_)
        | ParseFault::TooLong(_) => Ok(Items::new(alloc)),
    }
}

/// What wraps in a run of this source over the words that a text hands in.
fn of_source(alloc: Global, source: &Source, words: &[u8]) -> Result<Items<Wrap>, AllocError>
    ensures { IfOk result (IsWhatWrapsIn source.now words.now) }
{
    let names = names_of_hosts(alloc, source)?;
    match read_inputs(alloc, words, &names) {
        Ok(inputs) => of_inputs(alloc, source, &inputs),
        Err(fault) => of_read_fault(alloc, fault),
    }
}

/// What wraps in a run of `clear` over the texts of a source and of inputs: each operator as often as it does. Nothing is told of other
/// texts, which `clear` refuses.
pub fn what_wraps(alloc: Global, bytes: &[u8], words: &[u8]) -> Result<Items<Wrap>, AllocError>
    ensures { IfOk result (IsWhatWraps bytes.now words.now) }
{
    match parse(alloc, bytes) {
        Ok(source) => of_source(alloc, &source, words),
        Err(fault) => of_parse_fault(alloc, fault),
    }
}
