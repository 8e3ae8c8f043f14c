//! The program of a file, or the status of its refusal.

ghost use Rattle.std.specs.Prelude.{IfErr, IfOk, Ok};
ghost use Rattle.vd_hostcode.specs.Outcome.{CanRun, IsHeaded, IsOutcome};
ghost use Rattle.vd_cmd_plan.specs.Plans.{Checks};
ghost use Rattle.vd_cmd_plan.specs.Programs.{IsProgramEnd, ProgramOutcomes, program_in};

use crate::{HostStatus, Status};
use std::alloc::Global;
use vd_hostcode::{CodeFault, HostProgram, read};

/// The program of a file.
pub fn program_in(alloc: Global, bytes: &[u8]) -> Result<HostProgram, Status>
    ensures checks { (outcomes : ProgramOutcomes) → Checks (program_in outcomes bytes.now) result }
    ensures given { IfOk result (λ program. IsOutcome bytes.now (Ok program)) }
    ensures heading { IfOk result IsHeaded }
    ensures code { IfOk result CanRun }
    ensures refused { IfErr result (IsProgramEnd bytes.now) }
{
    match read(alloc, bytes) {
        Ok(program) => Ok(program),
        Err(CodeFault::Text(offset)) => Err(Status::Host(HostStatus::ProgramText(offset))),
        Err(CodeFault::Range(number)) => Err(Status::Host(HostStatus::ProgramRange(number))),
        Err(CodeFault::Memory) => Err(Status::Memory),
    }
}
