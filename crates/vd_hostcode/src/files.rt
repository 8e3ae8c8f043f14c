//! Files of host programs within the ranges.

ghost use Rattle.std.specs.Prelude.{◌≡◌, ◌≢◌, ◌≤◌, Err, IfOk, IfErr, length};
ghost use Rattle.vd_execution.specs.Code.{Code};
ghost use Rattle.vd_execution.specs.Text.{IsCodeOf};
ghost use Rattle.vd_hostcode.specs.HostTextOutcome.{IsFileOf};
ghost use Rattle.vd_hostcode.specs.declared.fault.CodeFault.TheVariants as code_fault;
ghost use Rattle.vd_hostcode.specs.Outcome.{Answers, CanRun, Checked, IsHeaded, IsOutcome, IsTextRefused};

use crate::fault::CodeFault;
use crate::host_text::{HostProgram, parse};
use crate::ranges::{first_broken, numbered};
use crate::steps::count_steps;
use std::alloc::Global;
use vd_base::{FileFault, HostId};
use vd_base_codec::offset;
use vd_execution::Instr;

/// The most static steps of a program.
const STEPS: u64 = 4_294_967_295;

/// The program of one host, from its file.
///
/// Refuses bytes that are no such file, with the first offset at which they go on as none does; a file of which an instruction
/// breaks a range of host code, with the first that does; and fails where memory runs out. Too many static steps are the fault of the
/// last instruction.
pub fn read(alloc: Global, bytes: &[u8]) -> Result<HostProgram, CodeFault>
    ensures answer { Answers bytes.now result }
    ensures heading { IfOk result (λ program. IsHeaded program) }
    ensures code { IfOk result (λ program. CanRun program) }
{
    read_program(alloc, bytes)
}

/// The program, where it is within the ranges.
fn read_program(alloc: Global, bytes: &[u8]) -> Result<HostProgram, CodeFault>
    ensures { result ≢ Err code_fault.Memory → IsOutcome bytes.now result }
{
    let program = read_text(alloc, bytes)?;
    check(
        alloc,
        program.hosts.as_slice().len(),
        program.me,
        program.code.as_slice(),
    )?;
    Ok(program)
}

/// The program of the text.
fn read_text(alloc: Global, bytes: &[u8]) -> Result<HostProgram, CodeFault>
    ensures given { IfOk result (λ program. IsFileOf bytes.now program) }
    ensures refused { IfErr result (λ fault. IsTextRefused bytes.now fault) }
{
    match parse(alloc, bytes) {
        Ok(program) => Ok(program),
        Err(FileFault::Text(at)) => Err(CodeFault::Text(at)),
        Err(FileFault::Memory) => Err(CodeFault::Memory),
    }
}

/// Tests the ranges of the code of one of so many hosts.
fn check(alloc: Global, hosts: usize, me: HostId, code: &[Instr]) -> Result<(), CodeFault>
    requires { (nested : Code) × IsCodeOf code.now nested }
    ensures { Checked hosts me code.now result }
{
    if let Some(number) = first_broken(hosts, me, code) {
        return Err(CodeFault::Range(offset(number)));
    }
    let steps = count_steps(alloc, code)?;
    if steps > STEPS {
        return Err(CodeFault::Range(offset(numbered(code).saturating_sub(1))));
    }
    Ok(())
}
