//! Types whose clones equal what they copy.

/// A type whose clone equals what it copies, so that a copy of a list of them does too.
pub(crate) trait ExactClone: Clone {
    ghost use Rattle.std.specs.Prelude.{◌≡◌};

    ghost exact: { (value copy : Self) → Self.is_clone value copy → copy ≡ value };
}

impl ExactClone for bool {
    ghost exact = { λ value copy is. is };
}

impl ExactClone for u8 {
    ghost exact = { λ value copy is. is };
}

impl ExactClone for u16 {
    ghost exact = { λ value copy is. is };
}

impl ExactClone for u32 {
    ghost exact = { λ value copy is. is };
}

impl ExactClone for u64 {
    ghost exact = { λ value copy is. is };
}

impl ExactClone for usize {
    ghost exact = { λ value copy is. is };
}
