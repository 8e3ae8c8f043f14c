//! The let-normal program: each slot is made by one statement, and each operand is a slot.

use vd_base::{Form, HostId, Items, Kind, Name, Names, Op, SlotId};

/// A right side.
#[derive(PartialEq, Eq, Debug, Drop)]
pub enum Right {
    Lit(u32),
    /// The number of the turn of the innermost loop, from 0.
    Turn,
    Copy(SlotId),
    Apply(Op, Items<SlotId>),
    Input(HostId),
    /// With the new confidentiality.
    Declassify(SlotId, Form),
    /// With the new integrity.
    Endorse(SlotId, Form),
    /// The word of a variable.
    Load(SlotId),
    /// The element of an array, at an index.
    Get(SlotId, SlotId),
}

/// A statement. The last number of an Output and of an If is the offset of the source's statement.
#[derive(PartialEq, Eq, Debug, Drop)]
pub enum Stmt {
    Let(SlotId, Right),
    /// A variable, and its first word.
    NewVar(SlotId, SlotId),
    /// An array of that many zeros.
    NewArray(SlotId, u32),
    /// A variable, and its new word.
    Store(SlotId, SlotId),
    /// An array, an index and the new word there.
    Put(SlotId, SlotId, SlotId),
    Output(SlotId, HostId, u32),
    /// The guard, what is done where it is true, and what else.
    If(SlotId, Items<Stmt>, Items<Stmt>, u32),
    For(u32, Items<Stmt>),
}

/// A written label: confidentiality, then integrity.
#[derive(PartialEq, Eq, Debug, Drop)]
pub struct Written {
    pub conf: Form,
    pub integ: Form,
}

/// A binding, a variable or an array.
#[derive(PartialEq, Eq, Debug, Drop)]
pub struct Slot {
    /// `_` where the source gives none.
    pub name: Name,
    pub kind: Kind,
    pub label: Option<Written>,
    /// That of the innermost statement of the source that makes the slot.
    pub offset: u32,
    /// The number of the block that makes the slot.
    pub block: u32,
}

/// A let-normal program. `labels` has one entry for each host, and `slots` are numbered from 0 in program order.
#[derive(PartialEq, Eq, Debug, Drop)]
pub struct NormalForm {
    pub principals: Names,
    pub hosts: Names,
    pub labels: Items<Written>,
    pub slots: Items<Slot>,
    pub body: Items<Stmt>,
}
