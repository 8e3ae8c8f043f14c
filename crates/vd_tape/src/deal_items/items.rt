//! One item of two hosts, and the two sides of its identity.

ghost use Rattle.std.specs.Prelude.{◌≡◌};
ghost use Rattle.vd_tape.specs.Identities as identities;

/// One host's part of a dealt product: of words, or of their bits.
#[derive(Clone, Copy, PartialEq, Eq)]
pub struct Triple {
    pub a: u32,
    pub b: u32,
    pub c: u32,
}

/// One host's part of a dealt word that is a sum and an exclusive or.
#[derive(Clone, Copy, PartialEq, Eq)]
pub struct PairItem {
    /// The part of the sum.
    pub s: u32,
    /// The part of the exclusive or.
    pub x: u32,
}

/// The product of the sums, and the sum that it should be.
pub fn mul_sides(first: Triple, second: Triple) -> (u32, u32)
    ensures { result ≡ identities.mul_sides first second }
{
    let a = first.a.wrapping_add(second.a);
    let b = first.b.wrapping_add(second.b);
    (a.wrapping_mul(b), first.c.wrapping_add(second.c))
}

/// The bits that both exclusive ors have, and those that there should be.
pub fn and_sides(first: Triple, second: Triple) -> (u32, u32)
    ensures { result ≡ identities.and_sides first second }
{
    let a = first.a ^ second.a;
    let b = first.b ^ second.b;
    (a & b, first.c ^ second.c)
}

/// The sum, and the exclusive or that it should be.
pub fn pair_sides(first: PairItem, second: PairItem) -> (u32, u32)
    ensures { result ≡ identities.pair_sides first second }
{
    (first.s.wrapping_add(second.s), first.x ^ second.x)
}
