ghost use Rattle.std.specs.Prelude.{◌≡◌, ◌∷◌, ◌++◌, [], if◌then◌else◌, IfOk, OnOk};
ghost use Rattle.vd_execution.specs.Text.{pick, pick_act};

use std::alloc::{AllocError, Global};
use vd_base::{HostId, Items};
use vd_execution::{Act, Instr, Line};

/// An instruction at the end, where the host has it.
fn add_where(here: bool, instr: Instr, code: &mut Items<Instr>) -> Result<(), AllocError>
    ensures { OnOk result (code.new ≡ code.old ++ (if here then instr ∷ [] else [])) }
{
    if here { code.push(instr) } else { Ok(()) }
}

/// What a host does of an act.
fn add_act(
    alloc: Global,
    host: HostId,
    act: &Act,
    code: &mut Items<Instr>,
) -> Result<(), AllocError>
    ensures { OnOk result (code.new ≡ code.old ++ pick_act host.0 act.now []) }
{
    match act {
        Act::Do(at, action) => add_where(host.0 == at.0, Instr::Do(*action), code)?,
        Act::Msg(from, said, to, heard) => {
            if host.0 == from.0 {
                let registers = Items::from_slice(alloc, said.as_slice())?;
                code.push(Instr::Send(*to, registers))?
            } else if host.0 == to.0 {
                let registers = Items::from_slice(alloc, heard.as_slice())?;
                code.push(Instr::Recv(*from, registers))?
            }
        }
    }
    Ok(())
}

/// What a host has of a line.
fn add_line(
    alloc: Global,
    host: HostId,
    line: &Line,
    code: &mut Items<Instr>,
) -> Result<(), AllocError>
    ensures { OnOk result (code.new ≡ code.old ++ pick host.0 (line.now ∷ [])) }
{
    match line {
        Line::Act(act) => add_act(alloc, host, act, code),
        Line::If(at, guard) => add_where(host.0 == at.0, Instr::If(*guard), code),
        Line::Else(at) => add_where(host.0 == at.0, Instr::Else, code),
        Line::For(at, turn, count) => add_where(host.0 == at.0, Instr::For(*turn, *count), code),
        Line::End(at) => add_where(host.0 == at.0, Instr::End, code),
    }
}

/// A host's code: what it does of the joint code, in text order.
pub fn host_code(alloc: Global, lines: &[Line], host: HostId) -> Result<Items<Instr>, AllocError>
    ensures { IfOk result (λ code. code ≡ pick host.0 lines.now) }
{
    let mut code = Items::new(alloc);
    for line in lines {
        add_line(alloc, host, line, &mut code)?;
    }
    Ok(code)
}
