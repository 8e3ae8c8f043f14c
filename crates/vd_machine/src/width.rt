//! How many registers a code names: one more than the highest.

ghost use Rattle.std.specs.Prelude.{ℕ, ◌<◌, ◌≤◌, ◌+◌, All};
ghost use Rattle.vd_base.specs.Limits.{most_registers};
ghost use Rattle.vd_execution.specs.Ranges.{ActionFits};
ghost use Rattle.vd_machine.specs.Widths.{InstrFits};

use vd_execution::{Action, Instr, Reg};

fn registers_width(registers: &[Reg]) -> u32
    requires { All (λ r. r.0 < most_registers) registers.now }
    ensures fits { All (λ r. r.0 < result) registers.now }
    ensures few { result ≤ most_registers }
{
    let mut width = 0;
    let mut i = 0;
    while i < registers.len() {
        width = larger(width, registers[i].0 + 1);
        i += 1;
    }
    width
}

fn larger(a: u32, b: u32) -> u32
    ensures first { a ≤ result }
    ensures second { b ≤ result }
    ensures bound { (n : ℕ) → a ≤ n → b ≤ n → result ≤ n }
{
    if a < b { b } else { a }
}

fn action_width(action: &Action) -> u32
    requires { ActionFits most_registers action.now }
    ensures fits { ActionFits result action.now }
    ensures few { result ≤ most_registers }
{
    match action {
        Action::Const(r, _) => r.0 + 1,
        Action::Copy(r, x) => larger(r.0, x.0) + 1,
        Action::Apply(_, r, x, y) => larger(larger(r.0, x.0), y.0) + 1,
        Action::Shl(r, x, _) => larger(r.0, x.0) + 1,
        Action::Shr(r, x, _) => larger(r.0, x.0) + 1,
        Action::Mux(r, c, x, y) => larger(larger(r.0, c.0), larger(x.0, y.0)) + 1,
        Action::Own(r) => r.0 + 1,
        Action::Triple(_, a, b, c) => larger(larger(a.0, b.0), c.0) + 1,
        Action::Bits(_, a, b, c) => larger(larger(a.0, b.0), c.0) + 1,
        Action::Pair(_, s, x) => larger(s.0, x.0) + 1,
        Action::Input(r) => r.0 + 1,
        Action::Print(r) => r.0 + 1,
        Action::Hash(d, n, v) => larger(larger(d.0, n.0) + 8, v.0 + 1),
        Action::Same(x, y) => larger(x.0, y.0) + 1,
        Action::Zero(r, count) => r.0 + *count,
        Action::Get(r, x, count, i) => larger(larger(r.0, i.0) + 1, x.0 + *count),
        Action::Put(x, count, i, s) => larger(larger(i.0, s.0) + 1, x.0 + *count),
    }
}

fn instruction_width(instruction: &Instr) -> u32
    requires { InstrFits most_registers instruction.now }
    ensures fits { InstrFits result instruction.now }
    ensures few { result ≤ most_registers }
{
    match instruction {
        Instr::Do(action) => action_width(action),
        Instr::Send(_, registers) => registers_width(registers),
        Instr::Recv(_, registers) => registers_width(registers),
        Instr::If(guard) => guard.0 + 1,
        Instr::For(counter, _) => counter.0 + 1,
        Instr::Else => 0,
        Instr::End => 0,
    }
}

/// One more than the highest register that a code names.
pub(crate) fn width(code: &[Instr]) -> u32
    requires { All (λ i. InstrFits most_registers i) code.now }
    ensures fits { All (λ i. InstrFits result i) code.now }
    ensures few { result ≤ most_registers }
{
    let mut width = 0;
    let mut i = 0;
    while i < code.len() {
        width = larger(width, instruction_width(&code[i]));
        i += 1;
    }
    width
}
