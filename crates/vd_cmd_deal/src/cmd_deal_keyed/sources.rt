//! Where the key of a dealing comes from: the system draws it, or a file has it.

ghost use Rattle.std.specs.Prelude.{◌≡◌, ◌<◌, ◌≤◌, true, length};
ghost use Rattle.vd_outside.specs.Files.{FilesView};
ghost use Rattle.vd_cmd_plan.specs.Plans.{Checks, Executes};
ghost use Rattle.vd_cmd.specs.Commands.{AreWithin};
ghost use Rattle.vd_cmd_deal.specs.Sources.{RunsKeyDeal, bytes_plan, file_plan, is_printed, is_written, key_in, not_drawn};

use crate::cmd_deal_keyed::key_command::deal_by_key;
use std::alloc::Global;
use vd_base::{CallFault, Text};
use vd_cmd::{KeyDealWords, KeySource};
use vd_cmd_plan::{Answer, Status, finish, load};
use vd_outside::{Files, Marks, Sink};
use vd_tape::Counts;

/// As many bytes as a key has.
const KEY_BYTES: u32 = 32;

/// Whether a byte is one of a printed text: a letter, a digit, a sign, a blank or an end of a line.
fn is_printed(byte: u8) -> bool
    ensures { result ≡ is_printed byte }
{
    (32 <= byte && byte < 127) || (9 <= byte && byte < 14)
}

/// Whether bytes are a text, as somebody writes one: such are guessed, and not random.
fn is_written(bytes: &[u8]) -> bool
    ensures { result ≡ is_written bytes.now }
{
    bytes.iter().all(|byte| is_printed(*byte))
}

/// The key that the bytes of a file are. It is none where they are too few, or a text.
fn key_in(alloc: Global, name: &str, bytes: &[u8]) -> Result<[u8; 32], Status>
    requires { length bytes.now ≤ 32 }
    ensures { Checks (key_in name.now bytes.now) result }
{
    if bytes.len() < KEY_BYTES as usize || is_written(bytes) {
        let file = Text::copy_of(alloc, name)?;
        return Err(Status::ShortKey(file, bytes.len() as u32));
    }
    let mut key = [0; 32];
    key.copy_from_slice(bytes);
    Ok(key)
}

/// What `deal` does with the bytes of a key's file.
fn deal_in_bytes(
    alloc: Global,
    counts: Counts,
    name: &str,
    prefix: &str,
    bytes: &[u8],
) -> Result<Answer, Status>
    requires counts { AreWithin counts }
    requires fit { length bytes.now ≤ 32 }
    ensures { (files : FilesView) → Executes true (bytes_plan counts name.now prefix.now bytes.now) files files result }
{
    let key = key_in(alloc, name, bytes)?;
    deal_by_key(alloc, counts, &key, prefix)
}

/// The command `deal` for a key that stands in a file of 32 bytes.
fn deal_by_file<F: Files>(
    alloc: Global,
    files: &mut F,
    counts: Counts,
    name: &str,
    prefix: &str,
) -> Result<Answer, Status>
    requires { AreWithin counts }
    ensures { Executes true (file_plan counts name.now prefix.now) (F.view files.old) (F.view files.new) result }
{
    let bytes = load(alloc, files, name, KEY_BYTES)?;
    deal_in_bytes(alloc, counts, name, prefix, bytes.as_slice())
}

/// The status of a draw that failed.
fn not_drawn(fault: CallFault, draw: Text) -> Status
    ensures { result ≡ not_drawn draw fault }
{
    match fault {
        CallFault::Failed => Status::ReadFault(draw),
        CallFault::Memory => Status::Memory,
    }
}

/// The command `deal` for a key of 32 bytes, which is drawn or read. A draw that fails is a fault of a file named `draw`.
pub fn deal_by_source<F: Files, M: Marks, O: Sink>(
    alloc: Global,
    words: &KeyDealWords,
    files: &mut F,
    marks: &mut M,
    out: &mut O,
) -> Status
    requires { AreWithin words.now.counts }
    ensures { RunsKeyDeal words.now (F.view files.old) (F.view files.new) (M.view marks.old) (M.view marks.new) (O.view out.old)
        (O.view out.new) result }
{
    let prefix = words.prefix.as_str();
    let name = match &words.key {
        KeySource::InFile(name) => {
            let came = deal_by_file(alloc, files, words.counts, name.as_str(), prefix);
            return finish(came, files, out);
        }
        KeySource::Drawn => Text::copy_of(alloc, "draw"),
    };
    let Ok(name) = name else {
        return Status::Memory;
    };
    match marks.draw() {
        Ok(key) => finish(deal_by_key(alloc, words.counts, &key, prefix), files, out),
        Err(fault) => not_drawn(fault, name),
    }
}
