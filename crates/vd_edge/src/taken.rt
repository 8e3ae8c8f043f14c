//! Bytes that only clauses read.

ghost use Rattle.std.specs.Prelude.{◌≡◌, ℕ, List, [], ◌++◌};
ghost use Rattle.std.specs.Borrow.{ftrue};

use std::marker::{Model, PhantomData};

/// The bytes that a stream said it took, in order. It takes no memory.
#[derive(Drop)]
pub(crate) struct Taken {
    marker: PhantomData<u8>,
    pub ghost bytes: { List ℕ },
}

impl Model for Taken {
    ghost also_owns = { λ _. ftrue };
}

impl Taken {
    /// No bytes.
    pub fn new() -> Taken
        ensures { result.bytes ≡ [] }
    {
        Taken {
            marker: PhantomData,
        }
    }

    /// Notes the next bytes.
    pub fn note(&mut self, _bytes: &[u8])
        ensures { self.new.bytes ≡ self.old.bytes ++ _bytes.now }
    {}
}
