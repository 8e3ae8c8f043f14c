//! The registers that actions read and write.

ghost use Rattle.std.specs.Prelude.{◌≡◌, ◌++◌, [], ◌∷◌};
ghost use Rattle.vd_reorder.specs.ReorderLawsTesting.{has, meet, reads, writes};
ghost use Rattle.vd_reorder.specs.InRows.{in_row, in_rows};

use vd_execution::{Action, Reg};

/// So many registers in a row, from the first one on.
#[derive(Clone, Copy, PartialEq, Eq)]
pub struct Row {
    pub first: Reg,
    pub count: u32,
}

/// Three rows, of which some may have no register.
#[derive(Clone, Copy, PartialEq, Eq)]
pub struct Rows {
    pub first: Row,
    pub second: Row,
    pub third: Row,
}

/// No register.
fn none() -> Row
    ensures { in_row result ≡ [] }
{
    Row {
        first: Reg(0),
        count: 0,
    }
}

/// One register.
fn one(register: Reg) -> Row
    ensures { in_row result ≡ register ∷ [] }
{
    Row {
        first: register,
        count: 1,
    }
}

/// No row.
fn nothing() -> Rows
    ensures { in_rows result ≡ [] }
{
    Rows {
        first: none(),
        second: none(),
        third: none(),
    }
}

/// One row.
fn single(row: Row) -> Rows
    ensures { in_rows result ≡ in_row row }
{
    Rows {
        first: none(),
        second: none(),
        third: row,
    }
}

/// Two rows.
fn pair(row: Row, other: Row) -> Rows
    ensures { in_rows result ≡ in_row row ++ in_row other }
{
    Rows {
        first: none(),
        second: row,
        third: other,
    }
}

/// Three rows.
fn triple(first: Row, second: Row, third: Row) -> Rows
    ensures { in_rows result ≡ in_row first ++ (in_row second ++ in_row third) }
{
    Rows {
        first,
        second,
        third,
    }
}

/// The registers that an action reads. Of an array that is read or written to, all count.
pub fn read_by(action: &Action) -> Rows
    ensures { in_rows result ≡ reads action.now }
{
    match *action {
        Action::Const(_, _) => nothing(),
        Action::Copy(_, x) => single(one(x)),
        Action::Apply(_, _, x, y) => pair(one(x), one(y)),
        Action::Shl(_, x, _) => single(one(x)),
        Action::Shr(_, x, _) => single(one(x)),
        Action::Mux(_, choice, x, y) => triple(one(choice), one(x), one(y)),
        Action::Own(_) => nothing(),
        Action::Triple(_, _, _, _) => nothing(),
        Action::Bits(_, _, _, _) => nothing(),
        Action::Pair(_, _, _) => nothing(),
        Action::Input(_) => nothing(),
        Action::Print(x) => single(one(x)),
        Action::Hash(_, first, value) => pair(one(value), Row { first, count: 8 }),
        Action::Same(x, y) => pair(one(x), one(y)),
        Action::Zero(_, _) => nothing(),
        Action::Get(_, first, count, index) => pair(one(index), Row { first, count }),
        Action::Put(first, count, index, word) => {
            triple(one(index), one(word), Row { first, count })
        }
    }
}

/// The registers that an action may change.
pub fn written_by(action: &Action) -> Rows
    ensures { in_rows result ≡ writes action.now }
{
    match *action {
        Action::Const(r, _) => single(one(r)),
        Action::Copy(r, _) => single(one(r)),
        Action::Apply(_, r, _, _) => single(one(r)),
        Action::Shl(r, _, _) => single(one(r)),
        Action::Shr(r, _, _) => single(one(r)),
        Action::Mux(r, _, _, _) => single(one(r)),
        Action::Own(r) => single(one(r)),
        Action::Triple(_, a, b, c) => triple(one(a), one(b), one(c)),
        Action::Bits(_, a, b, c) => triple(one(a), one(b), one(c)),
        Action::Pair(_, sum, xor) => pair(one(sum), one(xor)),
        Action::Input(r) => single(one(r)),
        Action::Print(_) => nothing(),
        Action::Hash(first, _, _) => single(Row { first, count: 8 }),
        Action::Same(_, _) => nothing(),
        Action::Zero(first, count) => single(Row { first, count }),
        Action::Get(r, _, _, _) => single(one(r)),
        Action::Put(first, count, _, _) => single(Row { first, count }),
    }
}

/// Whether a register is in a row.
#[tactic(auto, using(crate::proofs::InRows::has_row))]
pub(crate) fn holds(row: Row, register: Reg) -> bool
    ensures { result ≡ has register (in_row row) }
{
    let first = u64::from(row.first.0);
    let number = u64::from(register.0);
    first <= number && number < first + u64::from(row.count)
}

/// Whether two rows have a register in common.
#[tactic(auto, using(crate::proofs::InRows::meet_rows))]
fn overlap(row: Row, other: Row) -> bool
    ensures { result ≡ meet (in_row row) (in_row other) }
{
    let first = u64::from(row.first.0);
    let second = u64::from(other.first.0);
    let some = row.count > 0 && other.count > 0;
    some && (first < second + u64::from(other.count) && second < first + u64::from(row.count))
}

/// Whether a register is in one of three rows.
#[tactic(auto, using(crate::proofs::InRows::has_three))]
pub(crate) fn any_holds(rows: Rows, register: Reg) -> bool
    ensures { result ≡ has register (in_rows rows) }
{
    holds(rows.first, register) || (holds(rows.second, register) || holds(rows.third, register))
}

/// Whether a row and one of three others have a register in common.
#[tactic(auto, using(crate::proofs::InRows::meet_with_three))]
fn overlaps_any(row: Row, others: Rows) -> bool
    ensures { result ≡ meet (in_row row) (in_rows others) }
{
    overlap(row, others.first) || (overlap(row, others.second) || overlap(row, others.third))
}

/// Whether one of three rows and one of three others have a register in common.
#[tactic(auto, using(crate::proofs::InRows::three_meet))]
pub(crate) fn any_overlap(rows: Rows, others: Rows) -> bool
    ensures { result ≡ meet (in_rows rows) (in_rows others) }
{
    overlaps_any(rows.first, others)
        || (overlaps_any(rows.second, others) || overlaps_any(rows.third, others))
}

/// Whether one of some registers is in one of three rows.
pub fn any_among(registers: &[Reg], rows: Rows) -> bool
    ensures among { result ≡ meet registers.now (in_rows rows) }
    ensures turned { result ≡ meet (in_rows rows) registers.now }
{
    registers.iter().any(|register| any_holds(rows, *register))
}

/// Whether a register is among others.
pub(crate) fn is_among(registers: &[Reg], register: Reg) -> bool
    ensures { result ≡ has register registers.now }
{
    registers.iter().any(|other| register.0 == other.0)
}

/// Whether two lists have a register in common.
pub fn have_common(registers: &[Reg], others: &[Reg]) -> bool
    ensures { result ≡ meet registers.now others.now }
{
    registers.iter().any(|register| is_among(others, *register))
}
