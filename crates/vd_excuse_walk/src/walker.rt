//! Both runs at once.

ghost use Rattle.std.specs.Prelude.{◌≡◌, OnOk};
ghost use Rattle.vd_excuse_walk.specs.declared.equivocation_laws.step.Hidden.TheVariants.{Product, Bits, Word};
ghost use Rattle.vd_excuse_runs.specs.Runs.{acted, is_other};
ghost use Rattle.vd_excuse_walk.specs.Data.{all_both, bits_hidden, both_acted, both_begun, choice_of, data_walk, data_walks, dealt_word as dealt_word_of, either_alone as branch_alone, hidden, product_hidden, word_at, word_hidden, word_of as word_of_parts};

use crate::alone::either_alone;
use crate::equivocation_laws::{Hidden, Operands, Part, Step};
use crate::items::{Factors, pair_item, raised, sum_item, xor_item};
use std::alloc::AllocError;
use vd_base::HostId;
use vd_excuse_runs::Run;
use vd_execution::{Act, Reg};

/// The host that looks, the first run, and the second, in which the items of the other host are changed on the way.
#[derive(Drop)]
pub(crate) struct Walker {
    pub host: HostId,
    pub first: Run,
    pub second: Run,
}

/// The part of a branch that both runs take, or that each goes its own way.
#[derive(Clone, Copy, PartialEq, Eq)]
pub(crate) enum Choice {
    Other,
    First,
    Parted,
}

fn factors(run: &Run, operands: &Operands) -> Factors
    ensures x { result.x ≡ word_at run.now operands.now.host operands.now.x }
    ensures y { result.y ≡ word_at run.now operands.now.host operands.now.y }
{
    Factors {
        x: word(run, operands.host, operands.x),
        y: word(run, operands.host, operands.y),
    }
}

fn word(run: &Run, host: HostId, register: Reg) -> u32
    ensures { result ≡ word_at run.now host register }
{
    run.word(host.0, register.0)
}

/// The word of two parts.
fn word_of(run: &Run, p: &Part, q: &Part) -> u32
    ensures { result ≡ word_of_parts p.now q.now run.now }
{
    word(run, p.host, p.word) ^ word(run, q.host, q.word)
}

/// The dealt word that masks it.
fn dealt_word(run: &Run, p: &Part, q: &Part) -> u32
    ensures { result ≡ dealt_word_of p.now q.now run.now }
{
    let one = run.shared_pair(p.host, q.host, run.taken(p.host).pairs);
    let two = run.shared_pair(q.host, p.host, run.taken(q.host).pairs);
    one.x ^ two.x
}

impl Walker {
    /// A host's next triple is to hide its operands of the second run as that of the first run hid those of the first.
    fn hide_product(&mut self, operands: &Operands) -> Result<(), AllocError>
        ensures { OnOk result (self.new ≡ product_hidden operands.now self.old) }
    {
        let host = operands.host;
        let ours = self
            .first
            .shared_triple(host, self.host, self.first.taken(host).triples);
        let theirs = self
            .second
            .shared_triple(self.host, host, self.second.taken(host).triples);
        let first = factors(&self.first, operands);
        let second = factors(&self.second, operands);
        self.second
            .change_triple(host, self.host, sum_item(ours, theirs, first, second))
    }

    /// And so with bits.
    fn hide_bits(&mut self, operands: &Operands) -> Result<(), AllocError>
        ensures { OnOk result (self.new ≡ bits_hidden operands.now self.old) }
    {
        let host = operands.host;
        let ours = self
            .first
            .shared_bits(host, self.host, self.first.taken(host).bits);
        let theirs = self
            .second
            .shared_bits(self.host, host, self.second.taken(host).bits);
        let first = factors(&self.first, operands);
        let second = factors(&self.second, operands);
        self.second
            .change_bits(host, self.host, xor_item(ours, theirs, first, second))
    }

    /// The dealt word of a host's next pair is to rise by what the word that it converts rises.
    fn hide_word(&mut self, p: &Part, q: &Part, host: HostId) -> Result<(), AllocError>
        ensures { OnOk result (self.new ≡ word_hidden p.now q.now host self.old) }
    {
        let dealt = raised(
            dealt_word(&self.first, p, q),
            word_of(&self.first, p, q),
            word_of(&self.second, p, q),
        );
        let theirs = self
            .second
            .shared_pair(self.host, host, self.second.taken(host).pairs);
        self.second
            .change_pair(host, self.host, pair_item(dealt, theirs))
    }

    fn hide_products(&mut self, m: &Operands, n: &Operands) -> Result<(), AllocError>
        ensures { OnOk result (self.new ≡ hidden (Product m.now n.now) self.old) }
    {
        if m.host.0 == self.host.0 {
            if n.host.0 == self.host.0 {
                Ok(())
            } else {
                self.hide_product(n)
            }
        } else if n.host.0 == self.host.0 {
            self.hide_product(m)
        } else {
            Ok(())
        }
    }

    fn hide_all_bits(&mut self, m: &Operands, n: &Operands) -> Result<(), AllocError>
        ensures { OnOk result (self.new ≡ hidden (Bits m.now n.now) self.old) }
    {
        if m.host.0 == self.host.0 {
            if n.host.0 == self.host.0 {
                Ok(())
            } else {
                self.hide_bits(n)
            }
        } else if n.host.0 == self.host.0 {
            self.hide_bits(m)
        } else {
            Ok(())
        }
    }

    fn hide_words(&mut self, p: &Part, q: &Part) -> Result<(), AllocError>
        ensures { OnOk result (self.new ≡ hidden (Word p.now q.now) self.old) }
    {
        if p.host.0 == self.host.0 {
            if q.host.0 == self.host.0 {
                Ok(())
            } else {
                self.hide_word(p, q, q.host)
            }
        } else if q.host.0 == self.host.0 {
            self.hide_word(p, q, p.host)
        } else {
            Ok(())
        }
    }

    /// The next item of the host that does not look changes, as what it will hide asks.
    fn hide(&mut self, what: &Hidden) -> Result<(), AllocError>
        ensures { OnOk result (self.new ≡ hidden what.now self.old) }
    {
        match what {
            Hidden::Product(m, n) => self.hide_products(m, n),
            Hidden::Bits(m, n) => self.hide_all_bits(m, n),
            Hidden::Word(p, q) => self.hide_words(p, q),
        }
    }

    fn act(&mut self, act: &Act) -> Result<(), AllocError>
        ensures { OnOk result (self.new ≡ both_acted (acted act.now) self.old) }
    {
        self.first.act(act)?;
        self.second.act(act)
    }

    fn begin(&mut self, parts: &[(u8, u32)], turn: u32) -> Result<(), AllocError>
        ensures { OnOk result (self.new ≡ both_begun parts.now turn self.old) }
    {
        self.first.begin(parts, turn)?;
        self.second.begin(parts, turn)
    }

    /// Which part of a branch both runs take, or whether they part.
    fn choice(&self, parts: &[(u8, u32)]) -> Choice
        ensures { result ≡ choice_of (is_other parts.now self.now.first) (is_other parts.now self.now.second) }
    {
        if self.first.is_other(parts) {
            if self.second.is_other(parts) {
                Choice::Other
            } else {
                Choice::Parted
            }
        } else if self.second.is_other(parts) {
            Choice::Parted
        } else {
            Choice::First
        }
    }

    /// Each run takes a branch by its own guards.
    fn part(
        &mut self,
        parts: &[(u8, u32)],
        first: &[Step],
        other: &[Step],
    ) -> Result<(), AllocError>
        ensures { OnOk result (self.new ≡ both_acted (branch_alone parts.now (data_walks first.now) (data_walks other.now)) self.old) }
    {
        either_alone(&mut self.first, parts, first, other)?;
        either_alone(&mut self.second, parts, first, other)
    }

    /// Both runs do a step.
    #[cycle(walk)]
    fn step(&mut self, step: &Step) -> Result<(), AllocError>
        ensures { OnOk result (self.new ≡ (data_walk step.now).both self.old) }
    {
        match step {
            Step::Hide(what) => self.hide(what),
            Step::Act(act) => self.act(act),
            Step::Branch(parts, first, other) => {
                let parts = parts.as_slice();
                let first = first.as_slice();
                let other = other.as_slice();
                match self.choice(parts) {
                    Choice::Other => self.steps(other),
                    Choice::First => self.steps(first),
                    Choice::Parted => self.part(parts, first, other),
                }
            }
            Step::Loop(parts, count, body) => {
                for turn in 0..*count {
                    self.begin(parts.as_slice(), turn)?;
                    self.steps(body.as_slice())?;
                }
                Ok(())
            }
        }
    }

    /// Both runs go along steps.
    ///
    /// It fails only where memory runs out.
    #[cycle(walk)]
    pub fn steps(&mut self, steps: &[Step]) -> Result<(), AllocError>
        ensures { OnOk result (self.new ≡ all_both (data_walks steps.now) self.old) }
    {
        for step in steps {
            self.step(step)?;
        }
        Ok(())
    }
}
