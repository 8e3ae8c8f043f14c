ghost use Rattle.std.specs.Prelude.{◌≡◌, ℕ, ◌-◌, ◌^◌, ◌<◌, ◌≤◌, ◌↔◌, IsTrue};
ghost use Rattle.vd_base.specs.Limits.{most_principals};
ghost use Rattle.vd_formula.specs.TruthTable.{ActsFor, IsFormula, IsWeakestWith, any_of, at, both_of, either_of, has, implies_of, name_of, never_of};

use std::marker::Model;

/// A monotone formula over at most 6 names: where it is true at a set of names, it is true at each larger one.
///
/// A set of names has the number whose bit `i` stands for name number `i`.
#[derive(Clone, Copy, PartialEq, Eq, Debug)]
pub struct Formula {
    /// Bit S is 1 exactly where the formula is true at the set number S.
    truths: u64,
    names: u8,
}

/// Contracts see a formula as its number of names and its word of truths. No bit from 2 ^ names on is 1, and what is
/// true at a set is true at all larger sets. So two formulas over as many names that are true at the same sets are
/// equal (clause `antisymmetric` of `acts_for`).
impl Model for Formula {
    ghost use Rattle.vd_formula.specs.TruthTable.{IsFormula, TruthTable};

    ghost Value = { TruthTable };

    ghost view = { λ formula. record { names = formula.names; truths = formula.truths } };

    ghost invariant = { λ formula. IsFormula (record { names = formula.names; truths = formula.truths }) };

    ghost inverse = { λ table. record { truths = table.truths; names = table.names } };
}

impl Formula {
    /// The formula that is true at every set of so many names.
    pub fn any(names: u8) -> Formula
        requires { names ≤ most_principals }
        ensures any { result ≡ any_of names }
        ensures names { result.names ≡ names }
    {
        Formula {
            truths: every_set(names),
            names,
        }
    }

    /// The formula that is true at no set of so many names.
    pub fn never(names: u8) -> Formula
        requires { names ≤ most_principals }
        ensures never { result ≡ never_of names }
        ensures names { result.names ≡ names }
    {
        Formula { truths: 0, names }
    }

    /// The formula that is true at the sets, of so many names, that have the name at `place`.
    pub fn name(place: u8, names: u8) -> Formula
        requires few_names { names ≤ most_principals }
        requires within { place < names }
        ensures name { result ≡ name_of place names }
        ensures names { result.names ≡ names }
    {
        Formula {
            truths: every_set(names) & sets_with(place),
            names,
        }
    }

    /// The number of names that the formula is over.
    pub fn names(&self) -> u8
        ensures names { result ≡ self.now.names }
        ensures valid { IsFormula self.now }
    {
        self.names
    }

    /// The truth at a set of names.
    pub fn at(&self, set: u8) -> bool
        requires { set < 2 ^ self.now.names }
        ensures { result ≡ at self.now set }
    {
        self.truths >> u32::from(set) & 1 == 1
    }

    /// The conjunction.
    pub fn both(&self, other: &Formula) -> Formula
        requires { self.now.names ≡ other.now.names }
        ensures both { result ≡ both_of self.now other.now }
        ensures names { result.names ≡ self.now.names }
    {
        Formula {
            truths: self.truths & other.truths,
            names: self.names,
        }
    }

    /// The disjunction.
    pub fn either(&self, other: &Formula) -> Formula
        requires { self.now.names ≡ other.now.names }
        ensures either { result ≡ either_of self.now other.now }
        ensures names { result.names ≡ self.now.names }
    {
        Formula {
            truths: self.truths | other.truths,
            names: self.names,
        }
    }

    /// Whether `other` is true at every set at which this formula is true.
    pub fn acts_for(&self, other: &Formula) -> bool
        requires { self.now.names ≡ other.now.names }
        ensures acts_for { IsTrue result ↔ ActsFor self.now other.now }
        ensures antisymmetric { ActsFor self.now other.now → ActsFor other.now self.now → self.now ≡ other.now }
    {
        self.truths & !other.truths == 0
    }

    /// The weakest formula whose conjunction with this one acts for `other`.
    pub fn implies(&self, other: &Formula) -> Formula
        requires { self.now.names ≡ other.now.names }
        ensures implies { result ≡ implies_of self.now other.now }
        ensures weakest { IsWeakestWith self.now other.now result }
        ensures names { result.names ≡ self.now.names }
    {
        let mut truths = every_set(self.names) & !(self.truths & !other.truths);
        for name in 0..self.names {
            truths &= truths >> (1u32 << name) | sets_with(name);
        }
        Formula {
            truths,
            names: self.names,
        }
    }
}

/// The word with a bit for each set of so many names.
fn every_set(names: u8) -> u64
    requires { names ≤ most_principals }
    ensures { result ≡ 2 ^ (2 ^ names) - 1 }
{
    let words = [
        0x1,
        0x3,
        0xf,
        0xff,
        0xffff,
        0xffff_ffff,
        0xffff_ffff_ffff_ffff,
    ];
    words[names as usize]
}

/// The word of the sets, of at most 6 names, that have this name.
fn sets_with(name: u8) -> u64
    requires { name < most_principals }
    ensures { (set : ℕ) → set < 64 → has result set ≡ has set name }
{
    let words = [
        0xaaaa_aaaa_aaaa_aaaa,
        0xcccc_cccc_cccc_cccc,
        0xf0f0_f0f0_f0f0_f0f0,
        0xff00_ff00_ff00_ff00,
        0xffff_0000_ffff_0000,
        0xffff_ffff_0000_0000,
    ];
    words[name as usize]
}
