//! What the choice of protocols must know of a program.

use vd_base::{HostId, Items, Row, SlotId};
use vd_formula::Label;

/// What a slot asks of its protocol, how often its statement is executed, and its least label.
#[derive(Clone, Copy, PartialEq, Eq)]
pub struct Making {
    pub row: Row,
    pub weight: u32,
    pub label: Label,
}

/// A value that is moved to where it is used: an operand, a variable that is loaded, an array that is read, or what is
/// stored in one of these.
#[derive(Clone, Copy, PartialEq, Eq)]
pub struct Use {
    pub source: SlotId,
    pub target: SlotId,
    pub weight: u32,
}

/// A value that is told to a host.
#[derive(Clone, Copy, PartialEq, Eq)]
pub struct Output {
    pub slot: SlotId,
    pub host: HostId,
    pub weight: u32,
}

/// The guard of an If, which is told to each host that takes part: the hosts of the slots that its branches name, and
/// the hosts that are told something there.
#[derive(Drop)]
pub struct Guard {
    pub slot: SlotId,
    pub weight: u32,
    pub slots: Items<SlotId>,
    pub hosts: Items<HostId>,
}

/// An index, which is told to each host of its array.
#[derive(Clone, Copy, PartialEq, Eq)]
pub struct Index {
    pub array: SlotId,
    pub index: SlotId,
    pub weight: u32,
}

/// What the choice of protocols must know of a program: the labels of its hosts, its slots in order, and all that is
/// moved between them, in program order.
#[derive(Drop)]
pub struct Problem {
    pub hosts: Items<Label>,
    pub slots: Items<Making>,
    pub uses: Items<Use>,
    pub outputs: Items<Output>,
    pub guards: Items<Guard>,
    pub indexes: Items<Index>,
}
