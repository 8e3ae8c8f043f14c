//! What hosts that share words can do with their parts.

ghost use Rattle.std.specs.Prelude.{ℕ, bit_and, bit_xor};
ghost use Rattle.vd_backend_sharing.specs.Circuits.{shl, shr, not_of, flip_of, mask_of};
ghost use Rattle.vd_backend_sharing.specs.Sharing.{IsOpenedAlike, IsKeptByZero, IsHidden, IsDoneAtEach, IsDoneAtFirst, XorsArePartByPart};
ghost use Rattle.vd_backend_sharing.specs.Sharing.{plus, minus, SumsArePartByPart, DifferencesArePartByPart, MultiplesArePartByPart};
ghost use Rattle.vd_backend_sharing.specs.Products.{BitItemsGiveProducts, WordItemsGiveProducts};
ghost use Rattle.vd_backend_sharing.specs.Conversions.{BitsKeepTheWord, SumsKeepTheWord};

/// Words are shared and opened, by exclusive or.
pub fn bits_are_shared()
    ensures opened { IsOpenedAlike bit_xor }
    ensures alone { IsKeptByZero bit_xor }
    ensures hidden { IsHidden bit_xor bit_xor }
{}

/// Words are shared and opened, by sums.
pub fn sums_are_shared()
    ensures opened { IsOpenedAlike plus }
    ensures alone { IsKeptByZero plus }
    ensures hidden { IsHidden plus minus }
{}

/// What each host does to its own part of words that are shared by exclusive or.
pub fn bits_part_by_part()
    ensures xor { XorsArePartByPart }
    ensures shl { (amount : ℕ) → IsDoneAtEach (λ p. shl p amount) }
    ensures shr { (amount : ℕ) → IsDoneAtEach (λ p. shr p amount) }
    ensures lowest { IsDoneAtEach (λ p. bit_and p 1) }
    ensures mask { IsDoneAtEach mask_of }
    ensures not { IsDoneAtFirst not_of }
    ensures flip { IsDoneAtFirst flip_of }
{}

/// What each host does to its own part of words that are shared by sums.
pub fn sums_part_by_part()
    ensures add { SumsArePartByPart }
    ensures sub { DifferencesArePartByPart }
    ensures scale { MultiplesArePartByPart }
{}

/// Dealt items that meet their identities give products, of bits and of words.
pub fn items_give_products()
    ensures bits { BitItemsGiveProducts }
    ensures words { WordItemsGiveProducts }
{}

/// A word that is shared in one way is then shared in the other.
pub fn conversions_keep_the_word()
    ensures bits { BitsKeepTheWord }
    ensures sums { SumsKeepTheWord }
{}
