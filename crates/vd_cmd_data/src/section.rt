//! A section of an inputs file.

ghost use Rattle.std.specs.Prelude.{◌≡◌, ◌++◌, IfOk, OnOk};
ghost use Rattle.vd_report.specs.SectionLines.{row_line, section_text};
ghost use Rattle.vd_report.specs.Lines.{number_field};

use itoa::Buffer;
use std::alloc::{AllocError, Global};
use vd_base::{Bytes, Items, Words};

/// Puts a number at the end, behind a space.
fn push_number(text: &mut Bytes, number: u32) -> Result<(), AllocError>
    ensures { OnOk result (text.new ≡ text.old ++ number_field number) }
{
    text.push(b' ')?;
    text.extend_from_slice(Buffer::new().format(number).as_bytes())
}

/// Puts the line of a row at the end.
fn push_row(text: &mut Bytes, words: &[u32]) -> Result<(), AllocError>
    ensures { OnOk result (text.new ≡ text.old ++ row_line words.now) }
{
    for word in words {
        push_number(text, *word)?;
    }
    text.push(b'\n')
}

/// The section of a host, with a line for each row.
pub(crate) fn section_text(
    alloc: Global,
    host: &str,
    rows: &Items<Words>,
) -> Result<Bytes, AllocError>
    ensures { IfOk result (λ text. text ≡ section_text host.now rows.now) }
{
    let mut text = Bytes::from_slice(alloc, host.as_bytes())?;
    text.extend_from_slice(b":\n")?;
    for row in rows.as_slice() {
        push_row(&mut text, row.as_slice())?;
    }
    Ok(text)
}
