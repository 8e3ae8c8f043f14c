//! The file from whose bytes more is said of a status.

ghost use Rattle.std.specs.Prelude.{◌≡◌};
ghost use Rattle.vd_diag_terminal.specs.Files as files;

use crate::words::{INPUTS, SCHEDULE, SOURCE, is_command};
use vd_base::Texts;
use vd_base::limits::{INPUTS_BYTES, SCHEDULE_BYTES, SOURCE_BYTES};
use vd_cmd_plan::Status;

/// A file that is read: the place of the word that names it, and the most bytes that it may have.
#[derive(Clone, Copy)]
pub(crate) struct Reading {
    pub word: usize,
    pub limit: u32,
}

/// The source; none where the command is this one, whose words name none.
fn source_unless(other: &[u8], words: &Texts) -> Option<Reading>
    ensures { result ≡ files.source_unless other.now words.now }
{
    if is_command(words, other) {
        None
    } else {
        Some(Reading {
            word: SOURCE,
            limit: SOURCE_BYTES,
        })
    }
}

/// The inputs; none of `excuse`, whose words name two files of inputs.
fn inputs_of(words: &Texts) -> Option<Reading>
    ensures { result ≡ files.inputs_of words.now }
{
    if is_command(words, b"excuse") {
        None
    } else {
        Some(Reading {
            word: INPUTS,
            limit: INPUTS_BYTES,
        })
    }
}

/// The file from whose bytes more is said of a status, if there is one. `trial` makes its source, and reads none.
pub(crate) fn reading_of(words: &Texts, status: &Status) -> Option<Reading>
    ensures { result ≡ files.reading_of words.now status.now }
{
    match status {
        Status::Syntax(_)
        | Status::Names(_)
        | Status::Flow(_)
        | Status::NoAssignment(_)
        | Status::Spent(_, _) => source_unless(b"trial", words),
        Status::InputText(_) => inputs_of(words),
        Status::ScheduleText(_) => Some(Reading {
            word: SCHEDULE,
            limit: SCHEDULE_BYTES,
        }),
        _ => None,
    }
}
