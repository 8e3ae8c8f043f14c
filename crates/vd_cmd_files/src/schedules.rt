//! The schedule of a command.

ghost use Rattle.std.specs.Prelude.{◌≡◌, ◌≤◌, length, IfOk};
ghost use Rattle.vd_base.specs.Limits.{most_hosts};
ghost use Rattle.vd_cmd_plan.specs.Held.{Finds};
ghost use Rattle.vd_cmd_plan.specs.Plans.{Checks};
ghost use Rattle.vd_report.specs.ScheduleText.{GivesSchedule};
ghost use Rattle.vd_cmd_files.specs.Outcomes.{ReplayOutcomes};
ghost use Rattle.vd_cmd_files.specs.Schedules.{HoldsSchedule, LoadsSchedule, schedule_of};

use std::alloc::Global;
use vd_base::Names;
use vd_base::limits::SCHEDULE_BYTES;
use vd_cmd_plan::{Status, load, schedule_status};
use vd_outside::Files;
use vd_report::{Schedule, read_schedule};

/// The schedule that a text gives for these hosts, or why it gives none.
fn schedule_in(alloc: Global, bytes: &[u8], hosts: &Names) -> Result<Schedule, Status>
    requires { length hosts.now ≤ most_hosts }
    ensures reads { (outcomes : ReplayOutcomes) → Checks (schedule_of outcomes hosts.now bytes.now) result }
    ensures given { IfOk result (GivesSchedule hosts.now bytes.now) }
{
    match read_schedule(alloc, bytes, hosts) {
        Ok(schedule) => Ok(schedule),
        Err(fault) => Err(schedule_status(fault)),
    }
}

/// Fetches the schedule of these hosts, and reads it.
pub(crate) fn load_schedule<F: Files>(
    alloc: Global,
    files: &mut F,
    name: &str,
    hosts: &Names,
) -> Result<Schedule, Status>
    requires { length hosts.now ≤ most_hosts }
    ensures loads { LoadsSchedule name.now hosts.now (F.view files.old) (F.view files.new) result }
    ensures given { Finds (F.view files.old) result (HoldsSchedule name.now hosts.now) }
{
    let bytes = load(alloc, files, name, SCHEDULE_BYTES)?;
    schedule_in(alloc, bytes.as_slice(), hosts)
}
