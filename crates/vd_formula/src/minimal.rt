ghost use Rattle.std.specs.Prelude.{◌≡◌, ◌^◌, ◌<◌, IfOk};
ghost use Rattle.vd_formula.specs.MinimalSets.{AreMinimalSets, is_minimal, minimal_sets_of};

use crate::Formula;
use std::alloc::{AllocError, Global};
use vd_base::Items;

impl Formula {
    /// The numbers of the minimal sets at which the formula is true, in order.
    pub fn minimal_sets(&self, alloc: Global) -> Result<Items<u8>, AllocError>
        ensures list { IfOk result (λ list. list ≡ minimal_sets_of self.now) }
        ensures minimal { IfOk result (AreMinimalSets self.now) }
    {
        let mut list = Items::new(alloc);
        for set in 0..1u8 << self.names() {
            if self.is_minimal(set) {
                list.push(set)?;
            }
        }
        Ok(list)
    }

    /// Whether the formula is true at the set and at none of its proper subsets.
    fn is_minimal(&self, set: u8) -> bool
        requires { set < 2 ^ self.now.names }
        ensures { result ≡ is_minimal self.now set }
    {
        if !self.at(set) {
            return false;
        }
        for smaller in 0..set {
            if smaller & set == smaller && self.at(smaller) {
                return false;
            }
        }
        true
    }
}
