//! Writing at the end of a text.

ghost use Rattle.std.specs.Prelude.{◌≡◌, ◌++◌, OnOk};
ghost use Rattle.vd_base_codec.specs.Reading.{field};

use itoa::Buffer;
use std::alloc::AllocError;
use vd_base::Bytes;

/// Puts a number at the end, behind a space.
pub fn push_field(text: &mut Bytes, number: u64) -> Result<(), AllocError>
    ensures { OnOk result (text.new ≡ text.old ++ field number) }
{
    text.push(b' ')?;
    text.extend_from_slice(Buffer::new().format(number).as_bytes())
}
