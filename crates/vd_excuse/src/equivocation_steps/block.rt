//! A block that is open.

ghost use Rattle.std.specs.Prelude.{◌≡◌, OnOk, IfOk};
ghost use Rattle.vd_excuse.specs.Reading.{closed, in_first, is_last_end, joined, joins, lacks, made_of, same_kind, suits, takes_part};

use std::alloc::{AllocError, Global};
use vd_base::Items;
use vd_excuse_walk::Step;

/// A branch, or a loop of so many turns.
#[derive(Clone, Copy, PartialEq, Eq, Debug)]
pub(crate) enum Kind {
    Branch,
    Loop(u32),
}

/// A block that is open: the steps before it, each host that takes part with its register, the steps of the first part of a branch
/// once the other has begun, and how many of its ends were read.
#[derive(Drop)]
pub(crate) struct Block {
    pub before: Items<Step>,
    pub parts: Items<(u8, u32)>,
    pub kind: Kind,
    pub first: Option<Items<Step>>,
    pub ended: usize,
}

fn same_kind(one: Kind, two: Kind) -> bool
    ensures { result ≡ same_kind one two }
{
    match one {
        Kind::Branch => match two {
            Kind::Branch => true,
            Kind::Loop(_) => false,
        },
        Kind::Loop(_) => match two {
            Kind::Branch => false,
            Kind::Loop(_) => true,
        },
    }
}

impl Block {
    /// Whether the other part of a branch has not begun.
    pub(crate) fn in_first(&self) -> bool
        ensures { result ≡ in_first self.now }
    {
        self.first.is_none()
    }

    fn takes_part(&self, host: u8) -> bool
        ensures { result ≡ takes_part host self.now.parts }
    {
        self.parts.as_slice().iter().any(|part| part.0 == host)
    }

    /// Whether a host can still be added.
    fn lacks(&self, host: u8) -> bool
        ensures { result ≡ lacks host self.now }
    {
        self.in_first() && !self.takes_part(host)
    }

    fn suits(&self, kind: Kind, host: u8) -> bool
        ensures { result ≡ suits kind host self.now }
    {
        same_kind(kind, self.kind) && self.lacks(host)
    }

    /// Whether a host that opens a block of that kind takes part in this one, in which so many steps were read.
    pub(crate) fn joins(&self, kind: Kind, read: &Items<Step>, host: u8) -> bool
        ensures { result ≡ joins kind read.now host self.now }
    {
        read.as_slice().len() == 0 && self.suits(kind, host)
    }

    /// One more host takes part.
    pub(crate) fn join(&mut self, part: (u8, u32)) -> Result<(), AllocError>
        ensures { OnOk result (self.new ≡ joined part self.old) }
    {
        self.parts.push(part)
    }

    /// Whether all of its ends but one were read.
    pub(crate) fn is_last_end(&self) -> bool
        ensures { result ≡ is_last_end self.now }
    {
        self.parts.as_slice().len().saturating_sub(self.ended) <= 1
    }

    /// The steps before the block, and then the block, whose last part has these steps.
    pub(crate) fn closed(self, alloc: Global, last: Items<Step>) -> Result<Items<Step>, AllocError>
        ensures { IfOk result (λ steps. steps ≡ closed last self) }
    {
        let Block {
            before: mut steps,
            parts,
            kind,
            first,
            ended: _,
        } = self;
        steps.push(step_of(alloc, kind, parts, first, last))?;
        Ok(steps)
    }
}

/// A block as a step.
fn step_of(
    alloc: Global,
    kind: Kind,
    parts: Items<(u8, u32)>,
    first: Option<Items<Step>>,
    last: Items<Step>,
) -> Step
    ensures { result ≡ made_of kind parts first last }
{
    match kind {
        Kind::Branch => Step::Branch(parts, first.unwrap_or(Items::new(alloc)), last),
        Kind::Loop(count) => Step::Loop(parts, count, last),
    }
}
