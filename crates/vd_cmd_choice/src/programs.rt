//! The program that is run for a source.

ghost use Rattle.std.specs.Prelude.{◌≤◌, IfOk, length};
ghost use Rattle.vd_base.specs.Limits.{most_source_bytes};
ghost use Rattle.vd_cmd_plan.specs.Held.{Finds};
ghost use Rattle.vd_cmd_choice.specs.Programs.{HasText, HoldsProgram, IsProgramOf, LoadsProgram, LoadsSourceProgram, ReadsProgram};

use std::alloc::Global;
use vd_base::Bytes;
use vd_base::limits::SOURCE_BYTES;
use vd_cmd_labels::{read_source, resolve_source};
use vd_cmd_plan::{Status, load};
use vd_cmd_rewrite::executed_program;
use vd_core::Program;
use vd_outside::Files;

/// A source that was fetched, and the program that is run for it.
#[derive(Drop)]
pub struct SourceProgram {
    pub text: Bytes,
    pub program: Program,
}

/// The program that is run for the source with this text.
pub fn program_of(alloc: Global, text: &[u8]) -> Result<Program, Status>
    requires { length text.now ≤ most_source_bytes }
    ensures reads { ReadsProgram text.now result }
    ensures is_run { IfOk result (IsProgramOf text.now) }
{
    let tree = read_source(alloc, text)?;
    let source = resolve_source(alloc, tree)?;
    let program = executed_program(alloc, source)?;
    Ok(program)
}

/// Fetches a source: its text, and the program that is run for it.
pub fn load_source_program<F: Files>(
    alloc: Global,
    files: &mut F,
    name: &str,
) -> Result<SourceProgram, Status>
    ensures loads { LoadsSourceProgram name.now (F.view files.old) (F.view files.new) result }
    ensures is_run { IfOk result (λ loaded. IsProgramOf loaded.text loaded.program) }
    ensures given { Finds (F.view files.old) result (λ contents loaded. HasText name.now contents loaded.text) }
{
    let text = load(alloc, files, name, SOURCE_BYTES)?;
    let program = program_of(alloc, text.as_slice())?;
    Ok(SourceProgram { text, program })
}

/// Fetches a source: the program that is run for it.
pub fn load_program<F: Files>(alloc: Global, files: &mut F, name: &str) -> Result<Program, Status>
    ensures loads { LoadsProgram name.now (F.view files.old) (F.view files.new) result }
    ensures given { Finds (F.view files.old) result (HoldsProgram name.now) }
{
    let text = load(alloc, files, name, SOURCE_BYTES)?;
    program_of(alloc, text.as_slice())
}
