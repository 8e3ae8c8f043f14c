//! The writer of host programs.

ghost use Rattle.std.specs.Prelude.{◌≡◌, ◌++◌, IfOk, OnOk, flat_map, map};
ghost use Rattle.std.specs.List.{list_any};
ghost use Rattle.vd_base_codec.specs.Reading.{field};
ghost use Rattle.vd_hostcode.specs.Words as words;
ghost use Rattle.vd_hostcode.specs.Text as text;

use crate::host_text::program::HostProgram;
use crate::host_text::words::{is_array, spelling, word_of};
use std::alloc::{AllocError, Global};
use vd_base::{Bytes, Name};
use vd_base_codec::{push_field, push_key};
use vd_execution::{Action, Instr, Reg};

/// The one text of a host's program.
pub fn print(alloc: Global, program: &HostProgram) -> Result<Bytes, AllocError>
    ensures { IfOk result (λ bytes. bytes ≡ text.program_text program.now) }
{
    let mut bytes = Bytes::new(alloc);
    push_head(&mut bytes, program)?;
    push_code(&mut bytes, program.code.as_slice())?;
    bytes.extend_from_slice(b"end\n")?;
    Ok(bytes)
}

/// Puts the lines before the code at the end: the format, the names of the hosts, the own number, and the plan.
#[tactic(auto, unfolding(crate::specs::Text::head))]
fn push_head(bytes: &mut Bytes, program: &HostProgram) -> Result<(), AllocError>
    ensures { OnOk result (bytes.new ≡ bytes.old ++ text.head program.now) }
{
    push_version(bytes, program.code.as_slice())?;
    push_names(bytes, program.hosts.as_slice())?;
    push_number(bytes, program.me.0)?;
    push_plan(bytes, &program.plan.bytes)
}

/// Puts the format of the file at the end.
fn push_version(bytes: &mut Bytes, code: &[Instr]) -> Result<(), AllocError>
    ensures { OnOk result (bytes.new ≡ bytes.old ++ text.version_line code.now) }
{
    bytes.extend_from_slice(b"viaduct-host ")?;
    bytes.extend_from_slice(version(code))
}

/// The number of the format.
#[tactic(auto, unfolding(crate::specs::Text::version))]
fn version(code: &[Instr]) -> &'static [u8]
    ensures { result.now ≡ text.version (list_any words.is_array code.now) }
{
    if has_array(code) { b"2" } else { b"1" }
}

/// Whether an instruction on arrays is there.
fn has_array(code: &[Instr]) -> bool
    ensures { result ≡ list_any words.is_array code.now }
{
    code.iter().any(|instruction| is_array(instruction))
}

/// Puts the line of names at the end.
fn push_names(bytes: &mut Bytes, names: &[Name]) -> Result<(), AllocError>
    ensures { OnOk result (bytes.new ≡ bytes.old ++ text.names_line names.now) }
{
    bytes.extend_from_slice(b"\nhosts")?;
    for name in names {
        push_name(bytes, name.as_slice())?;
    }
    Ok(())
}

/// Puts a name at the end, behind a space.
#[tactic(auto, unfolding(crate::specs::Text::name_field))]
fn push_name(bytes: &mut Bytes, name: &[u8]) -> Result<(), AllocError>
    ensures { OnOk result (bytes.new ≡ bytes.old ++ text.name_field name.now) }
{
    bytes.push(b' ')?;
    bytes.extend_from_slice(name)
}

/// Puts the line of the own number at the end.
fn push_number(bytes: &mut Bytes, me: u8) -> Result<(), AllocError>
    ensures { OnOk result (bytes.new ≡ bytes.old ++ text.number_line me) }
{
    bytes.extend_from_slice(b"\nme")?;
    push_field(bytes, u64::from(me))
}

/// Puts the line of the plan at the end.
fn push_plan(bytes: &mut Bytes, plan: &[u8]) -> Result<(), AllocError>
    ensures { OnOk result (bytes.new ≡ bytes.old ++ text.plan_line plan.now) }
{
    bytes.extend_from_slice(b"\nplan ")?;
    push_key(bytes, plan)?;
    bytes.push(b'\n')
}

/// Puts the lines of instructions at the end.
fn push_code(bytes: &mut Bytes, code: &[Instr]) -> Result<(), AllocError>
    ensures { OnOk result (bytes.new ≡ bytes.old ++ flat_map text.line code.now) }
{
    for instruction in code {
        push_line(bytes, instruction)?;
    }
    Ok(())
}

/// Puts the line of an instruction at the end.
#[tactic(auto, unfolding(crate::specs::Text::line))]
fn push_line(bytes: &mut Bytes, instruction: &Instr) -> Result<(), AllocError>
    ensures { OnOk result (bytes.new ≡ bytes.old ++ text.line instruction.now) }
{
    bytes.extend_from_slice(spelling(word_of(instruction)))?;
    push_operands(bytes, instruction)?;
    bytes.push(b'\n')
}

/// Puts the numbers of an instruction at the end.
fn push_operands(bytes: &mut Bytes, instruction: &Instr) -> Result<(), AllocError>
    ensures { OnOk result (bytes.new ≡ bytes.old ++ flat_map field (words.operands instruction.now)) }
{
    match instruction {
        Instr::Do(action) => push_action(bytes, action),
        Instr::Send(peer, registers) | Instr::Recv(peer, registers) => {
            push_field(bytes, u64::from(peer.0))?;
            push_registers(bytes, registers.as_slice())
        }
        Instr::If(guard) => push_fields(bytes, &[guard.0]),
        Instr::For(counter, count) => push_fields(bytes, &[counter.0, *count]),
        Instr::Else | Instr::End => Ok(()),
    }
}

/// Puts the numbers of what a host does by itself at the end.
fn push_action(bytes: &mut Bytes, action: &Action) -> Result<(), AllocError>
    ensures { OnOk result (bytes.new ≡ bytes.old ++ flat_map field (words.action_operands action.now)) }
{
    match *action {
        Action::Const(r, k) => push_fields(bytes, &[r.0, k]),
        Action::Copy(r, x) => push_fields(bytes, &[r.0, x.0]),
        Action::Apply(_, r, x, y) => push_fields(bytes, &[r.0, x.0, y.0]),
        Action::Shl(r, x, k) => push_fields(bytes, &[r.0, x.0, k]),
        Action::Shr(r, x, k) => push_fields(bytes, &[r.0, x.0, k]),
        Action::Mux(r, c, x, y) => push_fields(bytes, &[r.0, c.0, x.0, y.0]),
        Action::Own(r) => push_fields(bytes, &[r.0]),
        Action::Triple(p, a, b, c) => push_fields(bytes, &[u32::from(p.0), a.0, b.0, c.0]),
        Action::Bits(p, a, b, c) => push_fields(bytes, &[u32::from(p.0), a.0, b.0, c.0]),
        Action::Pair(p, s, x) => push_fields(bytes, &[u32::from(p.0), s.0, x.0]),
        Action::Input(r) => push_fields(bytes, &[r.0]),
        Action::Print(r) => push_fields(bytes, &[r.0]),
        Action::Hash(d, n, v) => push_fields(bytes, &[d.0, n.0, v.0]),
        Action::Same(x, y) => push_fields(bytes, &[x.0, y.0]),
        Action::Zero(r, count) => push_fields(bytes, &[r.0, count]),
        Action::Get(r, x, count, i) => push_fields(bytes, &[r.0, x.0, count, i.0]),
        Action::Put(x, count, i, s) => push_fields(bytes, &[x.0, count, i.0, s.0]),
    }
}

/// Puts numbers at the end, each behind a space.
fn push_fields(bytes: &mut Bytes, numbers: &[u32]) -> Result<(), AllocError>
    ensures { OnOk result (bytes.new ≡ bytes.old ++ flat_map field numbers.now) }
{
    for number in numbers {
        push_field(bytes, u64::from(*number))?;
    }
    Ok(())
}

/// Puts the numbers of registers at the end, each behind a space.
fn push_registers(bytes: &mut Bytes, registers: &[Reg]) -> Result<(), AllocError>
    ensures { OnOk result (bytes.new ≡ bytes.old ++ flat_map field (map (λ r. r.0) registers.now)) }
{
    for register in registers {
        push_field(bytes, u64::from(register.0))?;
    }
    Ok(())
}
