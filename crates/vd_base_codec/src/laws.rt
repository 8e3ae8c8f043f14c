//! What the readings are, as laws.

ghost use Rattle.std.specs.Prelude.{◌≡◌, ℕ, ◌<◌, ◌≤◌, ◌^◌, List, decimal};
ghost use Rattle.vd_base_codec.specs.Reading.{number_at, field_at, field};
ghost use Rattle.vd_base_codec.specs.Exact.{IsBreak, IsExact, IsAnything};
ghost use Rattle.vd_base_codec.specs.Digits.{IsKey, key_at, key_text};

/// A number is read exactly where one is written, as far as its digits go; else it is the first byte that cannot stand that is told.
pub fn numbers_are_exact()
    ensures number { (most : ℕ) (bytes : List ℕ) → most < 2 ^ 64 → IsExact IsBreak (λ n. n ≤ most) decimal bytes (number_at most bytes) }
    ensures field { (most : ℕ) (bytes : List ℕ) → most < 2 ^ 64 → IsExact IsBreak (λ n. n ≤ most) field bytes (field_at most bytes) }
{}

/// 32 bytes are read where their digits stand, and nothing else is read; where none can stand the reading stops at the first such byte.
pub fn keys_are_exact()
    ensures { (bytes : List ℕ) → IsExact IsAnything IsKey key_text bytes (key_at bytes) }
{}
