//! The program of a host, and what it takes.

ghost use Rattle.std.specs.Prelude.{◌≡◌, [], IfOk};
ghost use Rattle.vd_hostcode.specs.Outcome.{CanRun, IsHeaded};
ghost use Rattle.vd_cmd_plan.specs.Plans.{Computes, ended};
ghost use Rattle.vd_cmd_needs.specs.Needing.{ExecutesHost, is_program_text, program_text};
ghost use Rattle.vd_cmd_needs.specs.Needed.{needs_in};
ghost use Rattle.vd_cmd_needs.specs.Lines.{program_lines};
ghost use Rattle.vd_cmd_needs.specs.RoundsLines.{told_in};
ghost use Rattle.vd_cmd_needs.specs.Telling.{TellsHost};

use crate::lines::host_text;
use crate::needs_command::printing;
use crate::rounds_lines::told_text;
use std::alloc::{AllocError, Global};
use vd_base::Bytes;
use vd_cmd::NeedsKind;
use vd_cmd_plan::{Answer, Status, program_in};
use vd_deal_needs::{HostNeeds, host_needs};
use vd_hostcode::HostProgram;

/// Whether the bytes begin as the program of a host does, and as no source does.
pub(crate) fn is_program(bytes: &[u8]) -> bool
    ensures { result ≡ is_program_text bytes.now }
{
    bytes.starts_with(b"viaduct-host ")
}

/// What the host of a program takes.
fn needs_in(alloc: Global, program: &HostProgram) -> Result<HostNeeds, AllocError>
    requires heading { IsHeaded program.now }
    requires code { CanRun program.now }
    ensures { IfOk result (λ needs. needs ≡ needs_in program.now) }
{
    let hosts = program.hosts.as_slice().len() as u8;
    host_needs(alloc, hosts, program.code.as_slice())
}

/// What the host of a program takes, as it is printed.
fn items_text(alloc: Global, program: &HostProgram) -> Result<Bytes, AllocError>
    requires heading { IsHeaded program.now }
    requires code { CanRun program.now }
    ensures { IfOk result (λ text. text ≡ program_lines program.now) }
{
    let needs = needs_in(alloc, program)?;
    host_text(alloc, &program.hosts, usize::from(program.me.0), &needs)
}

/// What the host of a program tells each other one, as it is printed.
fn told_by(alloc: Global, program: &HostProgram) -> Result<Bytes, AllocError>
    requires heading { IsHeaded program.now }
    requires code { CanRun program.now }
    ensures { IfOk result (λ text. text ≡ told_in program.now) }
{
    let me = usize::from(program.me.0);
    let code = program.code.as_slice();
    told_text(alloc, &program.hosts, me, code)
}

/// What is printed of the program of a host.
fn program_text(alloc: Global, program: &HostProgram, kind: NeedsKind) -> Result<Bytes, AllocError>
    requires heading { IsHeaded program.now }
    requires code { CanRun program.now }
    ensures { IfOk result (λ text. text ≡ program_text kind program.now) }
{
    match kind {
        NeedsKind::Sizes => items_text(alloc, program),
        NeedsKind::Each => items_text(alloc, program),
        NeedsKind::Rounds => told_by(alloc, program),
    }
}

/// Prints what the host of a program takes, or tells.
fn answer_host(alloc: Global, program: &HostProgram, kind: NeedsKind) -> Result<Answer, Status>
    requires heading { IsHeaded program.now }
    requires code { CanRun program.now }
    ensures { Computes (ended [] (program_text kind program.now)) result }
{
    let printed = program_text(alloc, program, kind)?;
    Ok(printing(alloc, printed))
}

/// What `needs` or `rounds` does with the program of a host.
pub(crate) fn needs_in_host(alloc: Global, bytes: &[u8], kind: NeedsKind) -> Result<Answer, Status>
    ensures executes { ExecutesHost kind bytes.now result }
    ensures tells { TellsHost kind bytes.now result }
{
    let program = program_in(alloc, bytes)?;
    answer_host(alloc, &program, kind)
}
