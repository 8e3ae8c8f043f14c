//! The statuses of refusals: a fault is carried as it is, and running out of memory is that of the command.

ghost use Rattle.std.specs.Prelude.{◌≡◌};
ghost use Rattle.vd_cmd_plan.specs.Refusals as refusals;

use crate::Status;
use vd_bound::CheckFault;
use vd_report::ReadFault;
use vd_resolve::NameFault;

/// The status of a source that breaks a rule.
pub fn rule_status(fault: NameFault) -> Status
    ensures { result ≡ refusals.rule_status fault }
{
    match fault {
        NameFault::Memory => Status::Memory,
        _ => Status::Names(fault),
    }
}

/// The status of inputs that are refused.
pub fn input_status(fault: ReadFault) -> Status
    ensures { result ≡ refusals.input_status fault }
{
    match fault {
        ReadFault::Memory => Status::Memory,
        _ => Status::InputText(fault),
    }
}

/// The status of a schedule that is refused.
pub fn schedule_status(fault: ReadFault) -> Status
    ensures { result ≡ refusals.schedule_status fault }
{
    match fault {
        ReadFault::Memory => Status::Memory,
        _ => Status::ScheduleText(fault),
    }
}

/// The status of a certificate that is not accepted.
pub fn check_status(fault: CheckFault) -> Status
    ensures { result ≡ refusals.check_status fault }
{
    match fault {
        CheckFault::Memory => Status::Memory,
        _ => Status::CertificateRefused(fault),
    }
}
