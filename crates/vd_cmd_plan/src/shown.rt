//! Names in lines, which are shown without control characters.

ghost use Rattle.std.specs.Prelude.{◌≡◌, ◌++◌};
ghost use Rattle.std.specs.List.{flat_map};
ghost use Rattle.vd_outside.specs.Sink.{WritesAll};
ghost use Rattle.vd_cmd_plan.specs.Shown.{NamesAreShownPlain, shown, shown_byte};

use crate::deliver::write_parts;
use vd_base::Failed;
use vd_outside::{Sink, write_all};

/// A byte as it is shown: a control character as a blank.
pub fn shown_byte(byte: u8) -> u8
    ensures { result ≡ shown_byte byte }
{
    if byte < b' ' || byte == 127 {
        b' '
    } else {
        byte
    }
}

/// A name has nothing that a terminal takes for a command where it is shown, and a name without such bytes is shown as it is.
pub fn names_are_shown_plain()
    ensures { NamesAreShownPlain }
{}

/// Writes a name as it is shown.
fn write_shown<O: Sink>(out: &mut O, name: &[u8]) -> Result<(), Failed>
    ensures { WritesAll (shown name.now) (O.view out.old) (O.view out.new) result }
{
    for byte in name {
        write_all(out, &[shown_byte(*byte)])?;
    }
    Ok(())
}

/// Writes a text, a name behind it as it is shown, and these parts.
pub(crate) fn write_named<O: Sink>(
    out: &mut O,
    text: &[u8],
    name: &[u8],
    behind: &[&[u8]],
) -> Result<(), Failed>
    ensures { WritesAll (text.now ++ (shown name.now ++ flat_map (λ part. part.now) behind.now)) (O.view out.old) (O.view out.new)
        result }
{
    write_all(out, text)?;
    write_shown(out, name)?;
    write_parts(out, behind)
}
