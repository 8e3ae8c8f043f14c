//! The two runs that are compared.

ghost use Rattle.std.specs.Prelude.{◌≤◌, length, IfOk};
ghost use Rattle.vd_base.specs.Limits.{most_hosts};
ghost use Rattle.vd_cmd_plan.specs.Held.{Finds};
ghost use Rattle.vd_cmd_excuse.specs.Runs.{AreRead, HoldRuns, LoadsRuns};

use crate::dealing::{Dealing, load_dealing};
use std::alloc::Global;
use vd_base::{Inputs, Names, inputs_fit};
use vd_cmd::ExcuseWords;
use vd_cmd_labels::load_inputs;
use vd_cmd_plan::Status;
use vd_outside::Files;

/// The inputs of a run, other inputs, and what the hosts of the run were dealt.
#[derive(Drop)]
pub(crate) struct Runs {
    pub first: Inputs,
    pub second: Inputs,
    pub dealing: Dealing,
}

/// Fetches both inputs and the deals of these hosts, and reads them.
pub(crate) fn load_runs<F: Files>(
    alloc: Global,
    files: &mut F,
    words: &ExcuseWords,
    names: &Names,
) -> Result<Runs, Status>
    requires { length names.now ≤ most_hosts }
    ensures loads { LoadsRuns words.now names.now (F.view files.old) (F.view files.new) result }
    ensures read { IfOk result (AreRead (length names.now)) }
    ensures given { Finds (F.view files.old) result (HoldRuns words.now names.now) }
{
    let first = load_inputs(alloc, files, words.inputs.as_str(), names)?;
    inputs_fit(&first);
    let second = load_inputs(alloc, files, words.second.as_str(), names)?;
    inputs_fit(&second);
    let dealing = load_dealing(alloc, files, words.prefix.as_str(), names.as_slice())?;
    Ok(Runs {
        first,
        second,
        dealing,
    })
}
