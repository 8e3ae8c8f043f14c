//! What the hosts of a program are to run on.

ghost use Rattle.std.specs.Prelude.{◌≤◌, length, IfOk};
ghost use Rattle.vd_base.specs.Limits.{most_hosts};
ghost use Rattle.vd_cmd_plan.specs.Held.{Finds};
ghost use Rattle.vd_cmd_files.specs.Asking.{AreAsked, HoldAsked, LoadsAsked};

use crate::deals::load_deals;
use crate::run_files::RunFiles;
use crate::schedules::load_schedule;
use std::alloc::Global;
use vd_base::{Names, inputs_fit};
use vd_cmd::ReplayWords;
use vd_cmd_labels::load_inputs;
use vd_cmd_plan::Status;
use vd_outside::Files;

/// Fetches the inputs, the deals and the schedule of these hosts, and reads them.
pub fn load_run_files<F: Files>(
    alloc: Global,
    files: &mut F,
    words: &ReplayWords,
    names: &Names,
) -> Result<RunFiles, Status>
    requires { length names.now ≤ most_hosts }
    ensures loads { LoadsAsked words.now names.now (F.view files.old) (F.view files.new) result }
    ensures asked { IfOk result (AreAsked (length names.now)) }
    ensures given { Finds (F.view files.old) result (HoldAsked words.now names.now) }
{
    let inputs = load_inputs(alloc, files, words.inputs.as_str(), names)?;
    inputs_fit(&inputs);
    let deals = load_deals(alloc, files, words.prefix.as_str(), names.as_slice())?;
    let schedule = load_schedule(alloc, files, words.schedule.as_str(), names)?;
    Ok(RunFiles {
        inputs,
        deals,
        schedule,
        messages: words.messages,
    })
}
