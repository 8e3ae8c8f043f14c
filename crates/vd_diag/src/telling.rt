//! What is printed of a remark.

ghost use Rattle.std.specs.Prelude.{◌≡◌, ◌++◌, IfOk, codes};
ghost use Rattle.vd_diag.specs.Parts.{three as three_parts};
ghost use Rattle.vd_diag.specs.Remarks.{told, told_place};

use crate::diag_place::{excerpt, headline};
use crate::parts::three;
use crate::remark::Remark;
use std::alloc::{AllocError, Global};
use vd_base::Bytes;

/// What is printed of a remark on a file of these bytes: of an offset its line and column, the sentence, and the line with a
/// caret below it; else the file's name and the sentence.
pub fn tell(
    alloc: Global,
    coloured: bool,
    file: &str,
    bytes: &[u8],
    remark: &Remark,
) -> Result<Bytes, AllocError>
    ensures { IfOk result (λ text. text ≡ told coloured file.now bytes.now remark.now) }
{
    match remark.offset {
        Some(offset) => {
            let sentence = remark.sentence.as_slice();
            excerpt(alloc, coloured, file, bytes, offset as usize, sentence)
        }
        None => tell_file(alloc, file, remark.sentence.as_slice()),
    }
}

/// What is printed of a remark on a file whose text is shown to nobody: as [`tell`] has it, without the line and its caret.
pub fn tell_place(
    alloc: Global,
    coloured: bool,
    file: &str,
    bytes: &[u8],
    remark: &Remark,
) -> Result<Bytes, AllocError>
    ensures { IfOk result (λ text. text ≡ told_place coloured file.now bytes.now remark.now) }
{
    match remark.offset {
        Some(offset) => {
            let sentence = remark.sentence.as_slice();
            headline(alloc, coloured, file, bytes, offset as usize, sentence)
        }
        None => tell_file(alloc, file, remark.sentence.as_slice()),
    }
}

/// The file's name and a sentence.
fn tell_file(alloc: Global, file: &str, sentence: &[u8]) -> Result<Bytes, AllocError>
    ensures { IfOk result (λ text. text ≡ three_parts file.now (codes ": ") (sentence.now ++ codes "\n")) }
{
    let mut text = three(alloc, file.as_bytes(), b": ", sentence)?;
    text.push(b'\n')?;
    Ok(text)
}
