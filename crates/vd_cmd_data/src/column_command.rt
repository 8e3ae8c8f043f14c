//! The command `column`.

ghost use Rattle.vd_cmd_data.specs.Columns.{ColumnsTell, ExecutesBytes, ExecutesColumn};
ghost use Rattle.vd_report.specs.SectionLines.{section_text};
ghost use Rattle.vd_cmd_plan.specs.Plans.{Computes, ended};
ghost use Rattle.std.specs.Prelude.{[]};

use crate::section::section_text;
use crate::table::table_words;
use std::alloc::Global;
use vd_base::limits::INPUTS_BYTES;
use vd_base::{Items, Words};
use vd_cmd::ColumnWords;
use vd_cmd_plan::{Answer, Status, load};
use vd_outside::Files;

/// The answer that prints the section of a host.
fn section_answer(alloc: Global, host: &str, rows: &Items<Words>) -> Result<Answer, Status>
    ensures { Computes (ended [] (section_text host.now rows.now)) result }
{
    let printed = section_text(alloc, host, rows)?;
    Ok(Answer {
        status: Status::Ended,
        stores: Items::new(alloc),
        printed,
    })
}

/// What `column` does with the bytes of a file.
fn column_bytes(alloc: Global, words: &ColumnWords, bytes: &[u8]) -> Result<Answer, Status>
    ensures { ExecutesBytes words.now bytes.now result }
{
    let rows = table_words(alloc, words.file.as_str(), &words.columns, bytes)?;
    section_answer(alloc, words.host.as_str(), &rows)
}

/// The command `column`: prints the section of a host in an inputs file, of the rows of a CSV file.
pub fn column<F: Files>(alloc: Global, files: &mut F, words: &ColumnWords) -> Result<Answer, Status>
    ensures { ExecutesColumn words.now (F.view files.old) (F.view files.new) result }
{
    let bytes = load(alloc, files, words.file.as_str(), INPUTS_BYTES)?;
    column_bytes(alloc, words, bytes.as_slice())
}

/// Where the plan of `column` ends well, the file is a table that gives the rows of words whose section it prints.
pub fn columns_tell()
    ensures { ColumnsTell }
{}
