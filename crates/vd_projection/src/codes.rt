ghost use Rattle.std.specs.Prelude.{◌≡◌, [], IfOk, length, map};
ghost use Rattle.std.specs.List.{range_with_len};
ghost use Rattle.vd_execution.specs.Text.{flat, pick};
ghost use Rattle.vd_projection.specs.Programs.{CanRunAt, host_codes, joint_of};

use std::alloc::{AllocError, Global};
use vd_backends::AllProtocols;
use vd_base::{HostId, Items, Proto};
use vd_core::Program;
use vd_execution::{Instr, Line};
use vd_split::{host_code, joint_code};

/// The number of hosts of a program.
pub fn host_count(program: &Program) -> u8
    ensures { result ≡ length program.now.hosts }
{
    program.form().hosts.as_slice().len() as u8
}

/// What all hosts of a program do together, at a valid assignment of protocols to its slots.
pub fn joint_lines(
    alloc: Global,
    program: &Program,
    protocols: &[Proto],
) -> Result<Items<Line>, AllocError>
    requires { CanRunAt program.now protocols.now }
    ensures { IfOk result (λ lines. lines ≡ flat (joint_of program.now protocols.now) []) }
{
    let hosts = host_count(program);
    let built = AllProtocols::new(alloc, hosts);
    joint_code(alloc, &built, protocols, program)
}

/// The code of each of so many hosts, in order.
pub fn codes_of(alloc: Global, hosts: u8, lines: &[Line]) -> Result<Items<Items<Instr>>, AllocError>
    ensures { IfOk result (λ codes. codes ≡ map (λ h. pick h lines.now) (range_with_len 0 hosts)) }
{
    let mut codes = Items::new(alloc);
    for number in 0..hosts {
        let code = host_code(alloc, lines, HostId(number))?;
        codes.push(code)?;
    }
    Ok(codes)
}

/// The code of each host of a program, in order, at a valid assignment of protocols to its slots.
pub fn split(
    alloc: Global,
    program: &Program,
    protocols: &[Proto],
) -> Result<Items<Items<Instr>>, AllocError>
    requires { CanRunAt program.now protocols.now }
    ensures { IfOk result (λ codes. codes ≡ host_codes program.now protocols.now) }
{
    let hosts = host_count(program);
    let lines = joint_lines(alloc, program, protocols)?;
    let codes = codes_of(alloc, hosts, lines.as_slice())?;
    Ok(codes)
}
