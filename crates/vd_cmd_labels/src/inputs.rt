//! The inputs of a command.

ghost use Rattle.std.specs.Prelude.{◌≡◌, ◌≤◌, length, IfOk};
ghost use Rattle.vd_base.specs.Limits.{most_inputs_bytes};
ghost use Rattle.vd_cmd_plan.specs.Held.{Finds};
ghost use Rattle.vd_cmd_plan.specs.Plans.{Checks, ExecutesStep};
ghost use Rattle.vd_report.specs.InputsText.{GivesInputs};
ghost use Rattle.vd_cmd_labels.specs.Outcomes.{TextOutcomes};
ghost use Rattle.vd_cmd_labels.specs.Inputs.{HoldsInputs, words_of, inputs_then};

use std::alloc::Global;
use vd_base::limits::INPUTS_BYTES;
use vd_base::{Inputs, Names};
use vd_cmd_plan::{Status, input_status, load};
use vd_outside::Files;
use vd_report::read_inputs;

/// The words that a text hands in for these hosts, or why it does not.
fn inputs_of(alloc: Global, bytes: &[u8], hosts: &Names) -> Result<Inputs, Status>
    requires { length bytes.now ≤ most_inputs_bytes }
    ensures words { (texts : TextOutcomes) → Checks (words_of texts hosts.now bytes.now) result }
    ensures given { IfOk result (λ inputs. GivesInputs hosts.now bytes.now inputs) }
    ensures all { IfOk result (λ inputs. length inputs ≡ length hosts.now) }
{
    match read_inputs(alloc, bytes, hosts) {
        Ok(inputs) => Ok(inputs),
        Err(fault) => Err(input_status(fault)),
    }
}

/// Fetches the inputs of these hosts, and reads them: a list for each host.
pub fn load_inputs<F: Files>(
    alloc: Global,
    files: &mut F,
    name: &str,
    hosts: &Names,
) -> Result<Inputs, Status>
    ensures loads { (texts : TextOutcomes) → ExecutesStep (inputs_then texts name.now hosts.now) (F.view files.old)
        (F.view files.new) result }
    ensures given { Finds (F.view files.old) result (HoldsInputs name.now hosts.now) }
    ensures all { IfOk result (λ inputs. length inputs ≡ length hosts.now) }
{
    let bytes = load(alloc, files, name, INPUTS_BYTES)?;
    inputs_of(alloc, bytes.as_slice(), hosts)
}
