ghost use Rattle.std.specs.Prelude.{◌≡◌, OnOk};
ghost use Rattle.vd_split.specs.Lines.{with_more, if_lines, else_lines, end_lines};

use std::alloc::AllocError;
use vd_base::HostId;
use vd_duet::Duet;
use vd_execution::{Line, Reg};

/// An `if` at each host that takes part.
pub(crate) fn open_branch(parts: &[(u8, u32)], to: &mut Duet) -> Result<(), AllocError>
    ensures { OnOk result (to.new ≡ with_more (if_lines parts.now) to.old) }
{
    for part in parts {
        to.mark(Line::If(HostId(part.0), Reg(part.1)))?;
    }
    Ok(())
}

/// An `else` at each host that takes part.
pub(crate) fn turn_branch(parts: &[(u8, u32)], to: &mut Duet) -> Result<(), AllocError>
    ensures { OnOk result (to.new ≡ with_more (else_lines parts.now) to.old) }
{
    for part in parts {
        to.mark(Line::Else(HostId(part.0)))?;
    }
    Ok(())
}

/// An `end` at each host that takes part.
pub(crate) fn close(parts: &[(u8, u32)], to: &mut Duet) -> Result<(), AllocError>
    ensures { OnOk result (to.new ≡ with_more (end_lines parts.now) to.old) }
{
    for part in parts {
        to.mark(Line::End(HostId(part.0)))?;
    }
    Ok(())
}
