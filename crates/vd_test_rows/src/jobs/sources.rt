//! The space of choices for a source.

use anyhow::bail;
use std::alloc::Global;
use vd_base::limits;
use vd_cmd_choice::program_of;
use vd_cmd_choose::least_space;
use vd_space_api::Space;

/// The space of choices for the program that is run for a source, under its least labels.
pub(crate) fn space_of(alloc: Global, source: &str) -> anyhow::Result<Space> {
    if source.len() > limits::SOURCE_BYTES as usize {
        bail!("the source is too long");
    }
    let Ok(program) = program_of(alloc, source.as_bytes()) else {
        bail!("the source breaks a rule");
    };
    let Ok(space) = least_space(alloc, &program) else {
        bail!("the source has no labels");
    };
    Ok(space)
}
