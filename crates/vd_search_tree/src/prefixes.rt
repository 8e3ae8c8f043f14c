ghost use Rattle.std.specs.Prelude.{◌≡◌, ℕ, ◌+◌, ◌<◌, ◌≤◌, List, [], ◌∷◌, ◌++◌, length, IsTrue, IfOk};
ghost use Rattle.vd_search_tree.specs.Trees.{IsBounded, Tree};

use std::alloc::{AllocError, Global};
use vd_base::Items;

/// A prefix that can grow by a choice and give its last choice back.
pub trait Prefixes {
    /// The tree of all prefixes, which no call changes.
    ghost tree: { Self → Tree };
    /// The choices made so far.
    ghost path: { Self → List ℕ };

    /// How many choices make a whole list.
    fn slots(&self) -> u32
        ensures slots { result ≡ (tree self.now).slots }
        ensures bounded { IsBounded (tree self.now) }
        ensures path { length (path self.now) ≤ (tree self.now).slots };

    /// How many choices there are at each slot.
    fn choices(&self) -> u32
        ensures { result ≡ (tree self.now).choices };

    /// How many choices are made.
    fn depth(&self) -> u32
        ensures { result ≡ length (path self.now) };

    /// Whether the prefix is valid.
    fn is_valid(&self) -> bool
        ensures valid { result ≡ (tree self.now).valid (path self.now) }
        ensures bounded { IsBounded (tree self.now) };

    /// The bound of the prefix.
    fn bound(&self) -> i64
        requires { IsTrue ((tree self.now).valid (path self.now)) }
        ensures { result ≡ (tree self.now).bound (path self.now) };

    /// A copy of the choices made so far.
    fn list(&self, alloc: Global) -> Result<Items<u32>, AllocError>
        ensures { IfOk result (λ list. list ≡ path self.now) };

    /// Makes one choice more.
    fn enter(&mut self, choice: u32)
        requires room { length (path self.old) < (tree self.old).slots }
        requires choice { choice < (tree self.old).choices }
        ensures tree { tree self.new ≡ tree self.old }
        ensures path { path self.new ≡ path self.old ++ choice ∷ [] };

    /// Gives the last choice back.
    fn leave(&mut self)
        requires { 0 < length (path self.old) }
        ensures tree { tree self.new ≡ tree self.old }
        ensures path { (front : List ℕ) (last : ℕ) → path self.old ≡ front ++ last ∷ [] → path self.new ≡ front };
}
