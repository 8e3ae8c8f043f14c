ghost use Rattle.std.specs.Prelude.{◌≡◌, ◌∷◌, [], IfOk, OnOk};
ghost use Rattle.vd_duet.specs.Builder.{HasRoom, TakesFew};
ghost use Rattle.vd_duet.specs.Calls.{all_placed};
ghost use Rattle.vd_execution.specs.Gadgets.{BySums};
ghost use Rattle.vd_backend_sharing.specs.PairCalls.{operand};
ghost use Rattle.vd_backend_sharing.specs.declared.shares.Sharing.TheVariants as way;
ghost use Rattle.vd_words.specs.AddCalls.{add_calls};

use std::alloc::AllocError;
use vd_backend_sharing::{Pair, PartRegisters, Sharing};
use vd_base::{HostId, Op, Proto};
use vd_duet::{Args, Backend, Duet, Part, Parts};
use vd_execution::{Binary, Reg};

/// Two hosts that share words: a word is the sum, modulo 2^32, of their parts.
#[derive(Clone, Copy, PartialEq, Eq)]
pub struct AddPair(pub HostId, pub HostId);

/// The registers of an operand that is missing.
const NONE: PartRegisters = PartRegisters {
    first: Reg(0),
    second: Reg(0),
};

impl AddPair {
    fn pair(&self) -> Pair
        ensures { result ≡ record { sharing = way.Sums; first = self.now.0; second = self.now.1 } }
    {
        Pair {
            sharing: Sharing::Sums,
            first: self.0,
            second: self.1,
        }
    }
}

/// The first operand.
fn first(args: &Args) -> PartRegisters
    ensures { result ≡ operand (all_placed (λ c. c.0) args.now) 0 }
{
    match args.as_slice() {
        [x, ..] => PartRegisters::of(x),
        [] => NONE,
    }
}

/// The second operand.
fn second(args: &Args) -> PartRegisters
    ensures { result ≡ operand (all_placed (λ c. c.0) args.now) 1 }
{
    match args.as_slice() {
        [_, x, ..] => PartRegisters::of(x),
        _ => NONE,
    }
}

impl Backend for AddPair {
    ghost calls = { λ b. add_calls b.0 b.1 };

    fn proto(&self) -> Proto {
        Proto::Add(self.0, self.1)
    }

    fn serves(&self, op: Op) -> bool {
        match op {
            Op::Add | Op::Sub | Op::Scale(_) | Op::Mul => true,
            _ => false,
        }
    }

    fn literal(&self, word: u32, to: &mut Duet) -> Result<Parts, AllocError> {
        let x = self.pair().literal(word, to)?;
        x.at(self.0, self.1, to.alloc())
    }

    fn share(&self, from: HostId, x: Reg, to: &mut Duet) -> Result<Parts, AllocError> {
        let y = self.pair().share(from, x, to)?;
        y.at(self.0, self.1, to.alloc())
    }

    fn adopt(&self, x: &Parts, to: &mut Duet) -> Result<Parts, AllocError> {
        let y = self.pair().adopt(x, to)?;
        y.at(self.0, self.1, to.alloc())
    }

    fn show(&self, x: &Parts, at: HostId, to: &mut Duet) -> Result<Part, AllocError> {
        Ok(Part(self.pair().show(PartRegisters::of(x), at, to)?))
    }

    fn show_all(&self, x: &Parts, to: &mut Duet) -> Result<Parts, AllocError> {
        let y = self.pair().show_all(PartRegisters::of(x), to)?;
        y.at(self.0, self.1, to.alloc())
    }

    fn keep(&self, x: &Parts, to: &mut Duet) -> Result<Parts, AllocError> {
        let y = self.pair().keep(PartRegisters::of(x), to)?;
        y.at(self.0, self.1, to.alloc())
    }

    fn renew(&self, kept: &Parts, x: &Parts, to: &mut Duet) -> Result<(), AllocError> {
        self.pair()
            .renew(PartRegisters::of(kept), PartRegisters::of(x), to)
    }

    fn apply(&self, op: Op, args: &Args, to: &mut Duet) -> Result<Parts, AllocError> {
        let made = match op {
            Op::Add => self
                .pair()
                .apply(Binary::Add, first(args), second(args), to)?,
            Op::Sub => self
                .pair()
                .apply(Binary::Sub, first(args), second(args), to)?,
            Op::Scale(factor) => {
                self.pair()
                    .apply_number(Binary::Mul, factor, first(args), to)?
            }
            Op::Mul => self.pair().product(first(args), second(args), to)?,
            _ => unreachable!(),
        };
        made.at(self.0, self.1, to.alloc())
    }
}
