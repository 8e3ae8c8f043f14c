//! Why a call of the outside gave nothing, and how often that was a fault.

ghost use Rattle.std.specs.Prelude.{◌≡◌, ◌≢◌, ◌≤◌};
ghost use Rattle.std_io.specs.IoError.{error_kind};
ghost use Rattle.vd_base.specs.declared.faults.CallFault.TheVariants as call_fault;
ghost use Rattle.vd_outside.specs.Causes.{Rose};

use std::io::{Error, ErrorKind};
use vd_base::CallFault;

/// Whether memory ran out, or the outside failed.
pub fn fault_of(error: &Error) -> CallFault
    ensures memory { error_kind error.now ≡ ErrorKind.OutOfMemory → result ≡ call_fault.Memory }
    ensures failed { error_kind error.now ≢ ErrorKind.OutOfMemory → result ≡ call_fault.Failed }
{
    match error.kind() {
        ErrorKind::OutOfMemory => CallFault::Memory,
        _ => CallFault::Failed,
    }
}

/// Counts a fault of the outside.
pub fn count_fault(faults: &mut u64, fault: CallFault)
    ensures later { faults.old ≤ faults.new }
    ensures rose { fault ≡ call_fault.Failed → Rose faults.old faults.new }
{
    if fault == CallFault::Failed {
        *faults = faults.saturating_add(1);
    }
}
