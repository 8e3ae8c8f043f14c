//! The excerpt that shows a place.

ghost use Rattle.std.specs.Prelude.{◌≡◌, ◌++◌, replicate, codes, IfOk, OnOk};
ghost use Rattle.vd_diag.specs.Excerpts as excerpts;

use crate::diag_place::lines::{line_before, line_behind, line_number};
use crate::diag_place::terminal::shown;
use itoa::Buffer;
use std::alloc::{AllocError, Global};
use unicode_width::UnicodeWidthStr;
use vd_base::Bytes;

/// `LINE:COLUMN` of an offset of a text. Columns are those of a terminal, from 1.
pub fn spot(alloc: Global, bytes: &[u8], offset: usize) -> Result<Bytes, AllocError>
    ensures { IfOk result (λ text. text ≡ excerpts.spot bytes.now offset) }
{
    let before = shown(alloc, line_before(bytes, offset))?;
    let line = line_number(bytes, offset);
    let column = before.as_str().width() + 1;
    let mut text = Bytes::new(alloc);
    text.extend_from_slice(Buffer::new().format(line as u64).as_bytes())?;
    text.extend_from_slice(b":")?;
    text.extend_from_slice(Buffer::new().format(column as u64).as_bytes())?;
    Ok(text)
}

/// Puts `FILE:LINE:COLUMN:` at the end.
fn push_place(text: &mut Bytes, file: &str, line: usize, column: usize) -> Result<(), AllocError>
    ensures { OnOk result (text.new ≡ text.old ++ excerpts.place file.now line column) }
{
    text.extend_from_slice(file.as_bytes())?;
    text.extend_from_slice(b":")?;
    text.extend_from_slice(Buffer::new().format(line as u64).as_bytes())?;
    text.extend_from_slice(b":")?;
    text.extend_from_slice(Buffer::new().format(column as u64).as_bytes())?;
    text.extend_from_slice(b":")
}

/// Puts a place at the end, in bold if colours are wanted.
fn push_bold_place(
    text: &mut Bytes,
    coloured: bool,
    file: &str,
    line: usize,
    column: usize,
) -> Result<(), AllocError>
    ensures { OnOk result (text.new ≡ text.old ++ excerpts.bold coloured (excerpts.place file.now line column)) }
{
    if coloured {
        text.extend_from_slice(b"\x1b[1m")?;
        push_place(text, file, line, column)?;
        text.extend_from_slice(b"\x1b[0m")
    } else {
        push_place(text, file, line, column)
    }
}

/// Puts a caret at the end, in red if colours are wanted.
fn push_caret(text: &mut Bytes, coloured: bool) -> Result<(), AllocError>
    ensures { OnOk result (text.new ≡ text.old ++ excerpts.red coloured (codes "^")) }
{
    if coloured {
        text.extend_from_slice(b"\x1b[1;31m^\x1b[0m")
    } else {
        text.extend_from_slice(b"^")
    }
}

/// Puts so many blanks at the end.
fn push_blanks(text: &mut Bytes, count: usize) -> Result<(), AllocError>
    ensures { OnOk result (text.new ≡ text.old ++ replicate count 32) }
{
    for _blank in 0..count {
        text.push(b' ')?;
    }
    Ok(())
}

/// Puts the line with the caret below it at the end.
fn push_line(
    text: &mut Bytes,
    coloured: bool,
    before: &str,
    behind: &str,
    width: usize,
) -> Result<(), AllocError>
    ensures { OnOk result (text.new ≡ text.old ++ excerpts.marked coloured before.now behind.now width) }
{
    text.extend_from_slice(before.as_bytes())?;
    text.extend_from_slice(behind.as_bytes())?;
    text.extend_from_slice(b"\n")?;
    push_blanks(text, width)?;
    push_caret(text, coloured)?;
    text.extend_from_slice(b"\n")
}

/// What is told of an offset of a file: `FILE:LINE:COLUMN: SENTENCE`, and the line with a caret below the column.
/// Columns are those of a terminal.
pub fn excerpt(
    alloc: Global,
    coloured: bool,
    file: &str,
    bytes: &[u8],
    offset: usize,
    sentence: &[u8],
) -> Result<Bytes, AllocError>
    ensures { IfOk result (λ text. text ≡ excerpts.excerpt coloured file.now bytes.now offset sentence.now) }
{
    let before = shown(alloc, line_before(bytes, offset))?;
    let behind = shown(alloc, line_behind(bytes, offset))?;
    let width = before.as_str().width();
    let mut text = Bytes::new(alloc);
    push_head(
        &mut text,
        coloured,
        file,
        line_number(bytes, offset),
        width + 1,
        sentence,
    )?;
    push_line(&mut text, coloured, before.as_str(), behind.as_str(), width)?;
    Ok(text)
}

/// What is told of an offset of a file whose text is shown to nobody: `FILE:LINE:COLUMN: SENTENCE`.
pub fn headline(
    alloc: Global,
    coloured: bool,
    file: &str,
    bytes: &[u8],
    offset: usize,
    sentence: &[u8],
) -> Result<Bytes, AllocError>
    ensures { IfOk result (λ text. text ≡ excerpts.headline coloured file.now bytes.now offset sentence.now) }
{
    let before = shown(alloc, line_before(bytes, offset))?;
    let mut text = Bytes::new(alloc);
    push_head(
        &mut text,
        coloured,
        file,
        line_number(bytes, offset),
        before.as_str().width() + 1,
        sentence,
    )?;
    Ok(text)
}

/// Puts the place and the sentence at the end.
fn push_head(
    text: &mut Bytes,
    coloured: bool,
    file: &str,
    line: usize,
    column: usize,
    sentence: &[u8],
) -> Result<(), AllocError>
    ensures { OnOk result (text.new ≡ text.old ++ excerpts.head coloured (excerpts.place file.now line column) sentence.now) }
{
    push_bold_place(text, coloured, file, line, column)?;
    text.extend_from_slice(b" ")?;
    text.extend_from_slice(sentence)?;
    text.extend_from_slice(b"\n")
}
