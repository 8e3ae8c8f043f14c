//! Names of the hosts' files.

ghost use Rattle.std.specs.Prelude.{◌≡◌, IfOk};
ghost use Rattle.vd_cmd_plan.specs.Numbered.{file_name};

use std::alloc::{AllocError, Global};
use vd_base::Text;

/// The name of a host's file: `PREFIX.i` and an ending.
pub fn file_name(
    alloc: Global,
    prefix: &str,
    number: usize,
    ending: &str,
) -> Result<Text, AllocError>
    ensures { IfOk result (λ name. name ≡ file_name prefix.now number ending.now) }
{
    let name = format!(in alloc; "{prefix}.{number}{ending}")?;
    Text::copy_of(alloc, name.as_str())
}
