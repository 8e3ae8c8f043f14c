//! The command `clear`.

ghost use Rattle.std.specs.Prelude.{true, []};
ghost use Rattle.vd_semantics.specs.SourceMeaning.{source_outputs};
ghost use Rattle.vd_report.specs.Lines.{output_lines};
ghost use Rattle.vd_cmd_plan.specs.Plans.{Computes, Executes, ended};
ghost use Rattle.vd_cmd_labels.specs.Outcomes.{TextOutcomes};
ghost use Rattle.vd_cmd_labels.specs.Clear.{clear_plan, resolved_plan};

use crate::inputs::load_inputs;
use crate::sources::{load_source, names_of_hosts};
use std::alloc::Global;
use vd_base::{Inputs, Items, Names};
use vd_cmd_plan::{Answer, Status};
use vd_core::Source;
use vd_outside::Files;
use vd_report::outputs_text;
use vd_semantics::clear_source;

/// Runs the source in clear, and prints the outputs to each host.
fn clear_answer(
    alloc: Global,
    source: &Source,
    names: &Names,
    inputs: &Inputs,
) -> Result<Answer, Status>
    ensures { Computes (ended [] (output_lines names.now (source_outputs source.now inputs.now))) result }
{
    let outputs = clear_source(alloc, source, inputs)?;
    let printed = outputs_text(alloc, names, &outputs)?;
    Ok(Answer {
        status: Status::Ended,
        stores: Items::new(alloc),
        printed,
    })
}

/// What `clear` does with a source that meets every rule.
fn clear_resolved<F: Files>(
    alloc: Global,
    files: &mut F,
    inputs: &str,
    source: &Source,
) -> Result<Answer, Status>
    ensures { (texts : TextOutcomes) → Executes true (resolved_plan texts inputs.now source.now) (F.view files.old)
        (F.view files.new) result }
{
    let names = names_of_hosts(alloc, source)?;
    let words = load_inputs(alloc, files, inputs, &names)?;
    clear_answer(alloc, source, &names, &words)
}

/// The command `clear`: the outputs to each host, computed in clear on one machine.
pub fn clear<F: Files>(
    alloc: Global,
    files: &mut F,
    source: &str,
    inputs: &str,
) -> Result<Answer, Status>
    ensures { (texts : TextOutcomes) → Executes true (clear_plan texts source.now inputs.now) (F.view files.old) (F.view files.new) result }
{
    let resolved = load_source(alloc, files, source)?;
    clear_resolved(alloc, files, inputs, resolved.source())
}
