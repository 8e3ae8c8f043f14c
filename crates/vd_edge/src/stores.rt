//! A list of stores that only clauses read.

ghost use Rattle.std.specs.Prelude.{◌≡◌, ℕ, List, [], ◌∷◌, Option, Some, None};
ghost use Rattle.std.specs.Borrow.{ftrue};

use std::marker::{Model, PhantomData};

/// The names at which bytes were put, with these bytes, or with none where that failed, the last first. It takes no memory.
#[derive(Drop)]
pub(crate) struct Stores {
    marker: PhantomData<u8>,
    pub ghost pairs: { List (List ℕ × Option (List ℕ)) },
}

impl Model for Stores {
    ghost also_owns = { λ _. ftrue };
}

impl Stores {
    /// No stores.
    pub fn new() -> Stores
        ensures { result.pairs ≡ [] }
    {
        Stores {
            marker: PhantomData,
        }
    }

    /// Notes one more.
    pub fn note(&mut self, _name: &[u8], _bytes: &[u8])
        ensures { self.new.pairs ≡ (_name.now, Some _bytes.now) ∷ self.old.pairs }
    {}

    /// Notes one that failed.
    pub fn fail(&mut self, _name: &[u8])
        ensures { self.new.pairs ≡ (_name.now, None) ∷ self.old.pairs }
    {}
}
