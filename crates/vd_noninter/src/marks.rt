//! Sets of small numbers.

ghost use Rattle.std.specs.Prelude.{◌≡◌, ◌||◌, [], ℕ, OnOk, nat_eq};

use std::alloc::{AllocError, Global};
use vd_base::Items;

/// A set of small numbers, by whether each of them is in it, as far as the greatest.
#[derive(Drop)]
pub(crate) struct Marks {
    pub marks: Items<bool>,
}

impl Marks {
    ghost use Rattle.vd_noninter.specs.Reached.{is_marked};

    /// The set of no number.
    pub fn new(alloc: Global) -> Marks
        ensures { result.marks ≡ [] }
    {
        Marks {
            marks: Items::new(alloc),
        }
    }

    /// Whether the number is in the set.
    pub fn has(&self, at: usize) -> bool
        ensures { result ≡ is_marked self.now at }
    {
        match self.marks.as_slice().get(at) {
            Some(mark) => *mark,
            None => false,
        }
    }

    /// Adds the number.
    #[tactic(auto, using(crate::proofs::Marked::false_more, crate::proofs::Marked::marked))]
    pub fn add(&mut self, at: usize) -> Result<(), AllocError>
        ensures { OnOk result ((k : ℕ) → is_marked self.new k ≡ (nat_eq k at || is_marked self.old k)) }
    {
        'grow: while self.marks.as_slice().len() <= at {
            self.marks.push(false)?;
        }
        self.marks.set(at, true);
        Ok(())
    }
}
