ghost use Rattle.std.specs.Prelude.{◌≡◌, [], IfOk, map};
ghost use Rattle.std.specs.List.{range_with_len};
ghost use Rattle.vd_execution.specs.Text.{pick};
ghost use Rattle.vd_reorder.specs.Packets as packets;
ghost use Rattle.vd_reorder.specs.Passing.{hastened_by};
ghost use Rattle.vd_choreography_reorder.specs.Testing as testing;
ghost use Rattle.vd_projection.specs.Programs.{CanRunAt};
ghost use Rattle.vd_projection.specs.Early.{AreEarlyCodes, ComeEarly};

use crate::{host_count, joint_lines};
use std::alloc::{AllocError, Global};
use vd_base::{HostId, Items, Proto};
use vd_choreography_reorder::{bring_forward, early_code, join_packets};
use vd_core::Program;
use vd_execution::{Instr, Line, Reg};
use vd_reorder::opened_in;
use vd_split::host_code;

/// The registers that the packets of a host open.
fn opened_at(alloc: Global, lines: &[Line], host: HostId) -> Result<Items<Reg>, AllocError>
    ensures { IfOk result (λ opened. opened ≡ packets.opened_in [] (pick host.0 lines.now)) }
{
    let code = host_code(alloc, lines, host)?;
    opened_in(alloc, code.as_slice())
}

/// For each of so many hosts, the registers that its packets open.
fn opened_by(alloc: Global, hosts: u8, lines: &[Line]) -> Result<Items<Items<Reg>>, AllocError>
    ensures { IfOk result (λ opened. opened ≡ map (λ h. packets.opened_in [] (pick h lines.now)) (range_with_len 0 hosts)) }
{
    let mut opened = Items::new(alloc);
    for number in 0..hosts {
        let registers = opened_at(alloc, lines, HostId(number))?;
        opened.push(registers)?;
    }
    Ok(opened)
}

/// The hastened code of a host.
fn code_at(
    alloc: Global,
    lines: &[Line],
    opened: &[Items<Reg>],
    host: HostId,
) -> Result<Items<Instr>, AllocError>
    ensures { IfOk result (λ code. code ≡ hastened_by (testing.opened_at opened.now host.0) (pick host.0 lines.now)) }
{
    let code = host_code(alloc, lines, host)?;
    Ok(early_code(code, opened, host))
}

/// The hastened code of each of so many hosts.
fn hastened_codes(
    alloc: Global,
    hosts: u8,
    lines: &[Line],
    opened: &[Items<Reg>],
) -> Result<Items<Items<Instr>>, AllocError>
    ensures { IfOk result (λ codes. codes ≡
        map (λ h. hastened_by (testing.opened_at opened.now h) (pick h lines.now)) (range_with_len 0 hosts)) }
{
    let mut codes = Items::new(alloc);
    for number in 0..hosts {
        let code = code_at(alloc, lines, opened, HostId(number))?;
        codes.push(code)?;
    }
    Ok(codes)
}

/// The codes of so many hosts in an order that waits less, with packets that share.
fn early_codes(
    alloc: Global,
    hosts: u8,
    lines: Items<Line>,
) -> Result<Items<Items<Instr>>, AllocError>
    ensures { IfOk result (ComeEarly hosts lines) }
{
    let opened = opened_by(alloc, hosts, lines.as_slice())?;
    let known = opened.as_slice();
    let forward = bring_forward(alloc, lines, known)?;
    let joined = join_packets(alloc, forward)?;
    hastened_codes(alloc, hosts, joined.as_slice(), known)
}

/// The code of each host of a program in an order that waits less, by host, at a valid assignment of protocols to its slots.
pub fn split_early(
    alloc: Global,
    program: &Program,
    protocols: &[Proto],
) -> Result<Items<Items<Instr>>, AllocError>
    requires { CanRunAt program.now protocols.now }
    ensures { IfOk result (AreEarlyCodes program.now protocols.now) }
{
    let hosts = host_count(program);
    let lines = joint_lines(alloc, program, protocols)?;
    early_codes(alloc, hosts, lines)
}
