//! What `labels` comes to on a text.

ghost use Rattle.std.specs.Prelude.{◌≤◌, ℕ, List, length};
ghost use Rattle.vd_base.specs.Limits.{most_source_bytes};
ghost use Rattle.vd_cmd_labels.specs.Outcomes.{LabelOutcomes, TextOutcomes};
ghost use Rattle.vd_cmd_plan.specs.Plans.{Checks};
ghost use Rattle.vd_core.specs.Named.{HasNames};
ghost use Rattle.vd_lsp.specs.Outcomes.{outcome_of, source_outcome, tree_outcome};

use std::alloc::Global;
use vd_base::Text;
use vd_base::limits::SOURCE_BYTES;
use vd_cmd_labels::{least_labels, normal_program, read_source, resolve_source};
use vd_cmd_plan::Status;
use vd_constraints::Labels;
use vd_core::Source;
use vd_resolve::Resolved;

/// The least labels of a source that meets every rule, or the first check that fails.
fn label_source(alloc: Global, source: Resolved) -> Result<Labels, Status>
    ensures { (least : LabelOutcomes) → Checks (source_outcome least source) result }
{
    let program = normal_program(alloc, source)?;
    least_labels(alloc, &program)
}

/// The least labels of a tree, or why it has none.
fn label_tree(alloc: Global, tree: Source) -> Result<Labels, Status>
    requires { HasNames tree }
    ensures { (least : LabelOutcomes) → Checks (tree_outcome least tree) result }
{
    let source = resolve_source(alloc, tree)?;
    label_source(alloc, source)
}

/// The least labels of a text that is not too long, or why it has none.
fn label_text(alloc: Global, text: &[u8]) -> Result<Labels, Status>
    requires { length text.now ≤ most_source_bytes }
    ensures { (texts : TextOutcomes) (least : LabelOutcomes) (name : List ℕ) → Checks (outcome_of texts least name text.now) result }
{
    let tree = read_source(alloc, text)?;
    label_tree(alloc, tree)
}

/// The least labels of the text with this name, or why it has none.
pub(crate) fn check_text(alloc: Global, name: &str, text: &[u8]) -> Result<Labels, Status>
    ensures { (texts : TextOutcomes) (least : LabelOutcomes) → Checks (outcome_of texts least name.now text.now) result }
{
    if text.len() > SOURCE_BYTES as usize {
        let name = Text::copy_of(alloc, name)?;
        return Err(Status::TooLong(name, SOURCE_BYTES));
    }
    label_text(alloc, text)
}
