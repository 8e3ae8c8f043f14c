//! Circuits as lists of gates: of the words at places `x` and `y`, where `n` words are there.

ghost use Rattle.std.specs.Prelude.{◌≡◌, ◌<◌, ◌≤◌, ◌++◌, IfOk, OnOk, IsTrue, length};
ghost use Rattle.vd_base.specs.declared.operations.Op.TheVariants as op;
ghost use Rattle.vd_backend_sharing.specs.Gates.{doubling as doubling_of, carrying as carrying_of, adding as adding_of, subtracting as subtracting_of, gates_of};
ghost use Rattle.vd_bits.specs.BitCalls.{gates_in, bit_serves};

use crate::gates::Gate;
use std::alloc::{AllocError, Global};
use vd_base::{Items, Op};

/// Groups of twice as many bits: where carries are generated stands at `g`, and where they are propagated at `p`.
#[tactic(auto, using(crate::proofs::Lists::gates_append))]
fn doubling(bits: u32, g: usize, p: usize, n: usize, to: &mut Items<Gate>) -> Result<(), AllocError>
    requires { n < 1000 }
    ensures { OnOk result (gates_in to.new ≡ gates_in to.old ++ doubling_of bits g p n) }
{
    to.extend_from_slice(&[
        Gate::Shl(bits, g),
        Gate::And(p, n),
        Gate::Shl(bits, p),
        Gate::And(p, n + 2),
        Gate::Xor(g, n + 1),
    ])
}

/// The carry out of each bit of a sum, which stands at `n + 24`; the exclusive or of the words stands at `n + 1`.
#[tactic(auto, using(crate::proofs::Lists::gates_append))]
pub fn carrying(x: usize, y: usize, n: usize, to: &mut Items<Gate>) -> Result<(), AllocError>
    requires { n < 900 }
    ensures { OnOk result (gates_in to.new ≡ gates_in to.old ++ carrying_of x y n) }
{
    to.extend_from_slice(&[Gate::And(x, y), Gate::Xor(x, y)])?;
    doubling(1, n, n + 1, n + 2, to)?;
    doubling(2, n + 6, n + 5, n + 7, to)?;
    doubling(4, n + 11, n + 10, n + 12, to)?;
    doubling(8, n + 16, n + 15, n + 17, to)?;
    to.extend_from_slice(&[
        Gate::Shl(16, n + 21),
        Gate::And(n + 20, n + 22),
        Gate::Xor(n + 21, n + 23),
    ])?;
    Ok(())
}

/// The sum, which stands at `n + 26`.
#[tactic(auto, using(crate::proofs::Lists::gates_append))]
pub fn adding(x: usize, y: usize, n: usize, to: &mut Items<Gate>) -> Result<(), AllocError>
    requires { n < 900 }
    ensures { OnOk result (gates_in to.new ≡ gates_in to.old ++ adding_of x y n) }
{
    carrying(x, y, n, to)?;
    to.extend_from_slice(&[Gate::Shl(1, n + 24), Gate::Xor(n + 1, n + 25)])
}

/// The difference, which stands at `n + 28`.
#[tactic(auto, using(crate::proofs::Lists::gates_append))]
pub fn subtracting(x: usize, y: usize, n: usize, to: &mut Items<Gate>) -> Result<(), AllocError>
    requires { n < 800 }
    ensures { OnOk result (gates_in to.new ≡ gates_in to.old ++ subtracting_of x y n) }
{
    to.push(Gate::Not(x))?;
    adding(n, y, n + 1, to)?;
    to.push(Gate::Not(n + 27))?;
    Ok(())
}

/// The gates of an operation that goes bit by bit or moves bits, of operands at the first places.
#[tactic(auto, using(crate::proofs::Lists::gates_append), unfolding(vd_backend_sharing::specs::Gates::gates_of))]
pub fn bit_gates(op: Op, to: &mut Items<Gate>) -> Result<(), AllocError>
    requires { IsTrue (bit_serves op) }
    ensures { OnOk result (gates_in to.new ≡ gates_in to.old ++ gates_of op) }
{
    match op {
        Op::And => to.push(Gate::And(0, 1)),
        Op::Or => to.extend_from_slice(&[Gate::And(0, 1), Gate::Xor(2, 0), Gate::Xor(3, 1)]),
        Op::Xor => to.push(Gate::Xor(0, 1)),
        Op::Not => to.push(Gate::Not(0)),
        Op::Flip => to.push(Gate::Flip(0)),
        Op::Shl(amount) => to.push(Gate::Shl(amount, 0)),
        Op::Shr(amount) => to.push(Gate::Shr(amount, 0)),
        _ => unreachable!(),
    }
}

/// The circuit of an operation that goes bit by bit or moves bits.
pub(crate) fn bit_circuit(op: Op, alloc: Global) -> Result<Items<Gate>, AllocError>
    requires { IsTrue (bit_serves op) }
    ensures exact { IfOk result (λ gates. gates_in gates ≡ gates_of op) }
    ensures short { IfOk result (λ gates. length gates ≤ 31) }
{
    let mut gates = Items::new(alloc);
    bit_gates(op, &mut gates)?;
    Ok(gates)
}

/// The circuit of a sum.
#[tactic(auto, using(crate::proofs::Lists::sum_is, crate::proofs::Lists::sum_short))]
pub(crate) fn sum_circuit(alloc: Global) -> Result<Items<Gate>, AllocError>
    ensures exact { IfOk result (λ gates. gates_in gates ≡ gates_of op.Add) }
    ensures short { IfOk result (λ gates. length gates ≤ 31) }
{
    let mut gates = Items::new(alloc);
    adding(0, 1, 2, &mut gates)?;
    Ok(gates)
}

/// The circuit of a difference.
#[tactic(auto, using(crate::proofs::Lists::difference_is, crate::proofs::Lists::difference_short))]
pub(crate) fn difference_circuit(alloc: Global) -> Result<Items<Gate>, AllocError>
    ensures exact { IfOk result (λ gates. gates_in gates ≡ gates_of op.Sub) }
    ensures short { IfOk result (λ gates. length gates ≤ 31) }
{
    let mut gates = Items::new(alloc);
    subtracting(0, 1, 2, &mut gates)?;
    Ok(gates)
}
