//! Prefixes whose bound is raised where it is known to be too low.

ghost use Rattle.std.specs.Prelude.{◌≡◌, suc, pos, [], length, take, IfOk};
ghost use Rattle.std.specs.List.{All};
ghost use Rattle.std.proofs.Props.{props};
ghost use Rattle.vd_search_tree.specs.Trees.{AtLeast};
ghost use Rattle.vd_search.specs.Untied.{is_among, untied};

use std::alloc::{AllocError, Global};
use vd_base::Items;
use vd_search_tree::{Prefixes, no_choices};

/// A prefix whose bound is one more than `most` where it is `most` and the prefix is one of those that are passed over: each
/// whole list that these begin costs more than `most`.
#[derive(Drop)]
pub(crate) struct Untied<P: Prefixes + Drop> {
    /// The same prefix, with its bound as it was.
    inner: P,
    most: u32,
    passed: Items<Items<u32>>,
    /// The choices, of which the first are made.
    room: Items<u32>,
    ghost sized: { length room ≡ (P.tree inner).slots } by { Prim.hlevel props },
    ghost copied: { take (length (P.path inner)) room ≡ P.path inner } by { Prim.hlevel props },
    ghost costly: { All (AtLeast (P.tree inner) (pos (suc most))) passed } by { Prim.hlevel props },
}

impl<P: Prefixes + Drop> Prefixes for Untied<P> {
    ghost tree = { λ p. untied (P.tree p.inner) p.most p.passed };

    ghost path = { λ p. P.path p.inner };

    fn slots(&self) -> u32 {
        self.inner.slots()
    }

    fn choices(&self) -> u32 {
        self.inner.choices()
    }

    fn depth(&self) -> u32 {
        self.inner.depth()
    }

    fn is_valid(&self) -> bool {
        self.inner.is_valid()
    }

    fn bound(&self) -> i64 {
        let bound = self.inner.bound();
        let most = i64::from(self.most);
        if bound == most && self.is_passed() {
            most + 1
        } else {
            bound
        }
    }

    fn list(&self, alloc: Global) -> Result<Items<u32>, AllocError> {
        self.inner.list(alloc)
    }

    fn enter(&mut self, choice: u32) {
        self.room.set(self.inner.depth() as usize, choice);
        self.inner.enter(choice);
    }

    fn leave(&mut self) {
        self.inner.leave();
    }
}

impl<P: Prefixes + Drop> Untied<P> {
    /// The empty prefix, with the prefixes that are passed over.
    pub(crate) fn new(
        alloc: Global,
        inner: P,
        most: u32,
        passed: Items<Items<u32>>,
    ) -> Result<Untied<P>, AllocError>
        requires root { P.path inner ≡ [] }
        requires costly { All (AtLeast (P.tree inner) (pos (suc most))) passed }
        ensures inner { IfOk result (λ untied. untied.inner ≡ inner) }
        ensures most { IfOk result (λ untied. untied.most ≡ most) }
        ensures passed { IfOk result (λ untied. untied.passed ≡ passed) }
    {
        let room = no_choices(alloc, inner.slots() as usize)?;
        Ok(Untied {
            inner,
            most,
            passed,
            room,
        })
    }

    /// Whether the prefix is one of those that are passed over.
    fn is_passed(&self) -> bool
        ensures { result ≡ is_among self.now.passed (P.path self.now.inner) }
    {
        let depth = self.inner.depth() as usize;
        is_among(self.passed.as_slice(), &self.room.as_slice()[..depth])
    }
}

/// Whether the prefix is one of those.
fn is_among(prefixes: &[Items<u32>], prefix: &[u32]) -> bool
    ensures { result ≡ is_among prefixes.now prefix.now }
{
    prefixes.iter().any(|other| other.as_slice() == prefix)
}
