//! Circuits as lists of gates: of the words at places `x` and `y`, where `n` words are there.

ghost use Rattle.std.specs.Prelude.{◌≡◌, ◌<◌, ◌≤◌, ◌++◌, IfOk, OnOk, IsTrue, length};
ghost use Rattle.vd_base.specs.declared.operations.Op.TheVariants as op;
ghost use Rattle.vd_backend_sharing.specs.Gates.{comparing as comparing_of, narrowing as narrowing_of, equating as equating_of, choosing as choosing_of, gates_of};
ghost use Rattle.vd_bits.specs.BitCalls.{gates_in};
ghost use Rattle.vd_circuit.specs.CircuitCalls.{circuit_serves};

use std::alloc::{AllocError, Global};
use vd_base::{Items, Op};
use vd_bits::{Gate, adding, bit_gates, carrying, subtracting};

/// Whether one word is below the other: 1 or 0 stands at `n + 26`.
fn comparing(x: usize, y: usize, n: usize, to: &mut Items<Gate>) -> Result<(), AllocError>
    requires { n < 800 }
    ensures { OnOk result (gates_in to.new ≡ gates_in to.old ++ comparing_of x y n) }
{
    to.push(Gate::Not(x))?;
    carrying(n, y, n + 1, to)?;
    to.push(Gate::Shr(31, n + 25))?;
    Ok(())
}

/// A word and itself shifted, which stand together at `n + 1`.
#[tactic(auto, using(vd_bits::proofs::Front::gates_append))]
fn narrowing(amount: u32, x: usize, n: usize, to: &mut Items<Gate>) -> Result<(), AllocError>
    ensures { OnOk result (gates_in to.new ≡ gates_in to.old ++ narrowing_of amount x n) }
{
    to.extend_from_slice(&[Gate::Shr(amount, x), Gate::And(x, n)])
}

/// Whether two words are equal: 1 or 0 stands at `n + 12`.
fn equating(x: usize, y: usize, n: usize, to: &mut Items<Gate>) -> Result<(), AllocError>
    requires { n < 800 }
    ensures { OnOk result (gates_in to.new ≡ gates_in to.old ++ equating_of x y n) }
{
    to.extend_from_slice(&[Gate::Xor(x, y), Gate::Not(n)])?;
    narrowing(16, n + 1, n + 2, to)?;
    narrowing(8, n + 3, n + 4, to)?;
    narrowing(4, n + 5, n + 6, to)?;
    narrowing(2, n + 7, n + 8, to)?;
    narrowing(1, n + 9, n + 10, to)?;
    to.push(Gate::Lowest(n + 11))?;
    Ok(())
}

/// The word at `x` where the lowest bit at `c` is 1, and else the word at `y`; it stands at `n + 3`.
#[tactic(auto, using(vd_bits::proofs::Front::gates_append))]
fn choosing(c: usize, x: usize, y: usize, n: usize, to: &mut Items<Gate>) -> Result<(), AllocError>
    requires { n < 800 }
    ensures { OnOk result (gates_in to.new ≡ gates_in to.old ++ choosing_of c x y n) }
{
    to.extend_from_slice(&[
        Gate::Mask(c),
        Gate::Xor(x, y),
        Gate::And(n, n + 1),
        Gate::Xor(y, n + 2),
    ])
}

/// Whether two operands differ.
fn differing(to: &mut Items<Gate>) -> Result<(), AllocError>
    ensures { OnOk result (gates_in to.new ≡ gates_in to.old ++ gates_of op.Ne) }
{
    equating(0, 1, 2, to)?;
    to.push(Gate::Flip(14))?;
    Ok(())
}

/// Whether the first operand is at most the second: the second is not below the first.
fn at_most(to: &mut Items<Gate>) -> Result<(), AllocError>
    ensures { OnOk result (gates_in to.new ≡ gates_in to.old ++ gates_of op.Le) }
{
    comparing(1, 0, 2, to)?;
    to.push(Gate::Flip(28))?;
    Ok(())
}

/// The lesser operand.
fn lesser(to: &mut Items<Gate>) -> Result<(), AllocError>
    ensures { OnOk result (gates_in to.new ≡ gates_in to.old ++ gates_of op.Min) }
{
    comparing(0, 1, 2, to)?;
    choosing(28, 0, 1, 29, to)?;
    Ok(())
}

/// The greater operand.
fn greater(to: &mut Items<Gate>) -> Result<(), AllocError>
    ensures { OnOk result (gates_in to.new ≡ gates_in to.old ++ gates_of op.Max) }
{
    comparing(0, 1, 2, to)?;
    choosing(28, 1, 0, 29, to)?;
    Ok(())
}

/// The gates of an operation, of operands at the first places.
#[tactic(auto, using(crate::proofs::Tables::sum, crate::proofs::Tables::difference, crate::proofs::Tables::equal, crate::proofs::Tables::below, crate::proofs::Tables::choice))]
fn gates(op: Op, to: &mut Items<Gate>) -> Result<(), AllocError>
    requires { IsTrue (circuit_serves op) }
    ensures { OnOk result (gates_in to.new ≡ gates_in to.old ++ gates_of op) }
{
    match op {
        Op::Add => adding(0, 1, 2, to),
        Op::Sub => subtracting(0, 1, 2, to),
        Op::Eq => equating(0, 1, 2, to),
        Op::Ne => differing(to),
        Op::Lt => comparing(0, 1, 2, to),
        Op::Le => at_most(to),
        Op::Min => lesser(to),
        Op::Max => greater(to),
        Op::Mux => choosing(0, 1, 2, 3, to),
        Op::And | Op::Or | Op::Xor | Op::Not | Op::Flip | Op::Shl(_) | Op::Shr(_) => {
            bit_gates(op, to)
        }
        _ => unreachable!(),
    }
}

/// The circuit of an operation.
pub(crate) fn circuit(op: Op, alloc: Global) -> Result<Items<Gate>, AllocError>
    requires { IsTrue (circuit_serves op) }
    ensures exact { IfOk result (λ made. gates_in made ≡ gates_of op) }
    ensures short { IfOk result (λ made. length made ≤ 31) }
{
    let mut made = Items::new(alloc);
    gates(op, &mut made)?;
    Ok(made)
}
