//! The names in a set.

ghost use Rattle.std.specs.Prelude.{◌≡◌, ◌++◌, if◌then◌else◌, OnOk};
ghost use Rattle.vd_formula.specs.TruthTable.{has};
ghost use Rattle.vd_report.specs.LabelLines.{joined, members};

use std::alloc::AllocError;
use vd_base::{Bytes, Names};

/// Puts the names in a set at the end, with the separator between them.
pub(crate) fn push_members(
    text: &mut Bytes,
    names: &Names,
    separator: &[u8],
    set: u8,
) -> Result<(), AllocError>
    ensures { OnOk result (text.new ≡ text.old ++ joined separator.now (members 0 names.now set)) }
{
    let names = names.as_slice();
    let mut is_first = true;
    for place in 0..names.len() {
        if is_member(set, place) {
            push_member(text, names[place].as_slice(), separator, is_first)?;
            is_first = false;
        }
    }
    Ok(())
}

/// Puts a name in a set at the end, behind its separator where it is not the first.
fn push_member(
    text: &mut Bytes,
    name: &[u8],
    separator: &[u8],
    is_first: bool,
) -> Result<(), AllocError>
    ensures { OnOk result (text.new ≡ text.old ++ (if is_first then name.now else separator.now ++ name.now)) }
{
    if !is_first {
        text.extend_from_slice(separator)?;
    }
    text.extend_from_slice(name)
}

/// Whether what has this number is in a set.
fn is_member(set: u8, place: usize) -> bool
    ensures { result ≡ has set place }
{
    place < 8 && set >> place & 1 == 1
}
