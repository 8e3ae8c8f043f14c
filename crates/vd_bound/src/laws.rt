//! What is true of every certificate. The functions here do nothing: the contract of each is a law.

ghost use Rattle.std.specs.Prelude.{◌≡◌, ℕ, Ok, Option, List};
ghost use Rattle.vd_bound.specs.Checking.{Proves, checked};
ghost use Rattle.vd_bound.specs.declared.checking.Proved.{Proved as Proofs};
ghost use Rattle.vd_bound.specs.Laws.{AcceptsSound, SoundWhereAccepted, SoundShows};
ghost use Rattle.vd_search_tree.specs.Trees.{IsBounded, Tree};

/// A sound certificate shows that no whole list costs less than the stated cost and that one costs as much, or that
/// there is none. Whoever made the marks is not trusted.
pub fn sound_certificates_show()
    ensures { (tree : Tree) → IsBounded tree → (stated : Option ℕ) → SoundShows tree stated }
{}

/// The checker accepts exactly the sound certificates, so a yes says what it shows.
pub fn accepted_certificates_are_sound()
    ensures accepted { (tree : Tree) (stated : Option ℕ) → AcceptsSound tree stated }
    ensures sound { (tree : Tree) (stated : Option ℕ) → SoundWhereAccepted tree stated }
{}
