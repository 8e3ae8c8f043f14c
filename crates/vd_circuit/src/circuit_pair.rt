ghost use Rattle.std.specs.Prelude.{◌≡◌, ◌∷◌, [], IfOk, OnOk};
ghost use Rattle.vd_circuit.specs.CircuitCalls.{circuit_calls};

use crate::circuits::circuit;
use std::alloc::AllocError;
use vd_base::{HostId, Op, Proto};
use vd_bits::XorPair;
use vd_duet::{Args, Backend, Duet, Part, Parts};
use vd_execution::Reg;

/// Two hosts that share words by exclusive or, and compute by circuits.
#[derive(Clone, Copy, PartialEq, Eq)]
pub struct CircuitPair(pub HostId, pub HostId);

impl CircuitPair {
    fn bits(&self) -> XorPair
        ensures { result ≡ record { 0 = self.now.0; 1 = self.now.1 } }
    {
        XorPair(self.0, self.1)
    }
}

impl Backend for CircuitPair {
    ghost calls = { λ b. circuit_calls b.0 b.1 };

    fn proto(&self) -> Proto {
        Proto::Xor(self.0, self.1)
    }

    fn serves(&self, op: Op) -> bool {
        match op {
            Op::Mul | Op::Scale(_) | Op::Div | Op::Rem => false,
            _ => true,
        }
    }

    fn literal(&self, word: u32, to: &mut Duet) -> Result<Parts, AllocError> {
        self.bits().literal(word, to)
    }

    fn share(&self, from: HostId, x: Reg, to: &mut Duet) -> Result<Parts, AllocError> {
        self.bits().share(from, x, to)
    }

    fn adopt(&self, x: &Parts, to: &mut Duet) -> Result<Parts, AllocError> {
        self.bits().adopt(x, to)
    }

    fn show(&self, x: &Parts, at: HostId, to: &mut Duet) -> Result<Part, AllocError> {
        self.bits().show(x, at, to)
    }

    fn show_all(&self, x: &Parts, to: &mut Duet) -> Result<Parts, AllocError> {
        self.bits().show_all(x, to)
    }

    fn keep(&self, x: &Parts, to: &mut Duet) -> Result<Parts, AllocError> {
        self.bits().keep(x, to)
    }

    fn renew(&self, kept: &Parts, x: &Parts, to: &mut Duet) -> Result<(), AllocError> {
        self.bits().renew(kept, x, to)
    }

    fn apply(&self, op: Op, args: &Args, to: &mut Duet) -> Result<Parts, AllocError> {
        let gates = circuit(op, to.alloc())?;
        self.bits().circuit(gates.as_slice(), args, to)
    }
}
