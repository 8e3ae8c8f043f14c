//! A source that is compiled for a run.

use vd_base::Names;
use vd_cmd_plan::Answer;

/// The names of the hosts of a source, and what `compile` comes to.
#[derive(Drop)]
pub(crate) struct Compiled {
    pub names: Names,
    pub answer: Answer,
}
