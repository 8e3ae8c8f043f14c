use crate::Shift;
use vd_base::Items;

/// What a certificate says of a prefix.
#[derive(Clone, Copy, PartialEq, Eq)]
pub enum Mark {
    /// The prefixes that go on by one choice are marked next.
    Expanded,
    /// The prefix is not valid.
    Violated,
    /// What begins so costs no less than the stated cost.
    Bounded,
    /// This list is whole and has the stated cost.
    Best,
}

/// The claim that a cost is the least, or that there is no valid list; and what shows it.
#[derive(Drop)]
pub struct Certificate {
    /// The stated cost; none where there is no valid list.
    pub cost: Option<u32>,
    /// Whether it has the third form: its shifts name arcs, by which prefixes are bounded, and a prefix is not valid before a
    /// slot that has no candidate.
    pub by_arcs: bool,
    /// The shifts under which prefixes are bounded.
    pub shifts: Items<Shift>,
    /// A tree of marks, each before those below it.
    pub marks: Items<Mark>,
}
