//! The ranges of a host's instructions.

ghost use Rattle.std.specs.Prelude.{◌≡◌, ◌+◌, ◌≤◌, ◌<◌, ◌^◌};
ghost use Rattle.std.specs.List.{list_all};
ghost use Rattle.vd_hostcode.specs.Ranges as ranges;

use vd_base::HostId;
use vd_base::limits::{CELLS, OPEN_BLOCKS, PACKET_WORDS, REGISTERS};
use vd_execution::{Action, Instr, Reg};

/// Whether a host has this register.
fn is_register(register: Reg) -> bool
    ensures { result ≡ ranges.is_register register }
{
    register.0 < REGISTERS
}

/// Whether a host has so many registers from one on, which is a register even where there are none.
fn are_registers(first: Reg, count: u32) -> bool
    ensures { result ≡ ranges.are_registers first count }
{
    is_register(first) && u64::from(first.0) + u64::from(count) <= u64::from(REGISTERS)
}

/// Whether an array may have so many cells from a register on.
fn is_array(first: Reg, count: u32) -> bool
    ensures { result ≡ ranges.is_array first count }
{
    count <= CELLS && are_registers(first, count)
}

/// Whether it is one of so many hosts, and not the own.
fn is_peer(hosts: usize, me: HostId, peer: HostId) -> bool
    ensures { result ≡ ranges.is_peer hosts me peer }
{
    usize::from(peer.0) < hosts && peer.0 != me.0
}

/// Whether what a host does by itself is within the ranges.
fn action_is_within(hosts: usize, me: HostId, action: &Action) -> bool
    ensures { result ≡ ranges.action_is_within hosts me action.now }
{
    match *action {
        Action::Const(r, _) => is_register(r),
        Action::Copy(r, x) => is_register(r) && is_register(x),
        Action::Apply(_, r, x, y) => is_register(r) && (is_register(x) && is_register(y)),
        Action::Shl(r, x, k) => k < 32 && (is_register(r) && is_register(x)),
        Action::Shr(r, x, k) => k < 32 && (is_register(r) && is_register(x)),
        Action::Mux(r, c, x, y) => {
            is_register(r) && (is_register(c) && (is_register(x) && is_register(y)))
        }
        Action::Own(r) => is_register(r),
        Action::Triple(p, a, b, c) => shares(hosts, me, p, a, b, c),
        Action::Bits(p, a, b, c) => shares(hosts, me, p, a, b, c),
        Action::Pair(p, s, x) => is_peer(hosts, me, p) && (is_register(s) && is_register(x)),
        Action::Input(r) => is_register(r),
        Action::Print(r) => is_register(r),
        Action::Hash(d, n, v) => are_registers(d, 8) && (are_registers(n, 8) && is_register(v)),
        Action::Same(x, y) => is_register(x) && is_register(y),
        Action::Zero(r, count) => is_array(r, count),
        Action::Get(r, x, count, i) => is_register(r) && (is_array(x, count) && is_register(i)),
        Action::Put(x, count, i, s) => is_array(x, count) && (is_register(i) && is_register(s)),
    }
}

/// Whether it is a peer, and these are registers.
fn shares(hosts: usize, me: HostId, peer: HostId, a: Reg, b: Reg, c: Reg) -> bool
    ensures { result ≡ ranges.is_share hosts me peer a b c }
{
    is_peer(hosts, me, peer) && (is_register(a) && (is_register(b) && is_register(c)))
}

/// Whether a packet is within the ranges.
fn packet_is_within(hosts: usize, me: HostId, peer: HostId, registers: &[Reg]) -> bool
    ensures { result ≡ ranges.packet_is_within hosts me peer registers.now }
{
    is_peer(hosts, me, peer)
        && (registers.len() <= PACKET_WORDS as usize && all_registers(registers))
}

/// Whether a host has all these registers.
fn all_registers(registers: &[Reg]) -> bool
    ensures { result ≡ list_all ranges.is_register registers.now }
{
    registers.iter().all(|register| is_register(*register))
}

/// Whether an instruction is within the ranges by itself.
fn is_within(hosts: usize, me: HostId, instruction: &Instr) -> bool
    ensures { result ≡ ranges.is_within hosts me instruction.now }
{
    match instruction {
        Instr::Do(action) => action_is_within(hosts, me, action),
        Instr::Send(peer, registers) => { packet_is_within(hosts, me, *peer, registers.as_slice()) }
        Instr::Recv(peer, registers) => { packet_is_within(hosts, me, *peer, registers.as_slice()) }
        Instr::If(guard) => is_register(*guard),
        Instr::Else => true,
        Instr::For(counter, _) => is_register(*counter),
        Instr::End => true,
    }
}

/// Whether a block opens.
fn opens(instruction: &Instr) -> bool
    ensures { result ≡ ranges.opens instruction.now }
{
    matches!(instruction, Instr::If(_) | Instr::For(_, _))
}

/// Whether an instruction breaks a range, where so many blocks are open before it.
fn breaks(hosts: usize, me: HostId, before: usize, instruction: &Instr) -> bool
    ensures { result ≡ ranges.breaks hosts me before instruction.now }
{
    !is_within(hosts, me, instruction) || (opens(instruction) && before >= OPEN_BLOCKS as usize)
}

/// How many blocks are open behind an instruction, of so many before it.
fn open_behind(before: usize, instruction: &Instr) -> usize
    requires { before + 1 < 2 ^ 64 }
    ensures { result ≡ ranges.open_behind before instruction.now }
{
    match instruction {
        Instr::If(_) | Instr::For(_, _) => before + 1,
        Instr::End => before.saturating_sub(1),
        _ => before,
    }
}

/// How many numbers an instruction takes: none, or one.
fn numbers(instruction: &Instr) -> usize
    ensures number { result ≡ ranges.numbers instruction.now }
    ensures one { result ≤ 1 }
{
    match instruction {
        Instr::Else | Instr::End => 0,
        _ => 1,
    }
}

/// The number of the first instruction that breaks a range, if one does. Static steps are not counted here.
pub(crate) fn first_broken(hosts: usize, me: HostId, code: &[Instr]) -> Option<usize>
    ensures { result ≡ ranges.first_broken hosts me 0 0 code.now }
{
    let mut number: usize = 0;
    let mut before: usize = 0;
    for instruction in code {
        if breaks(hosts, me, before, instruction) {
            return Some(number);
        }
        number += numbers(instruction);
        before = open_behind(before, instruction);
    }
    None
}

/// How many instructions have a number.
pub(crate) fn numbered(code: &[Instr]) -> usize
    ensures { result ≡ ranges.count_in code.now }
{
    let mut count: usize = 0;
    for instruction in code {
        count += numbers(instruction);
    }
    count
}
