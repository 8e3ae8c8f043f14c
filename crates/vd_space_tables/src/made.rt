//! What tables are made of.

use crate::charges::Charge;
use vd_base::Items;
use vd_space_prefix::{Arc, Naming, Sums, Telling};

/// What is moved between two slots: prices by place, and arcs by use and by index, without and under shifts.
#[derive(Drop)]
pub(crate) struct Moved {
    pub moves: Items<Items<Option<u32>>>,
    pub tells: Items<Items<Option<u32>>>,
    pub arcs: Items<Arc>,
    pub shifted_arcs: Items<Arc>,
    pub index_arcs: Items<Arc>,
}

/// What slots alone cost: for operations and for outputs, and for both together under shifts.
#[derive(Drop)]
pub(crate) struct Charges {
    pub operations: Items<Charge>,
    pub outputs: Items<Charge>,
    pub merged: Items<Charge>,
}

/// What is kept beside the arcs.
#[derive(Drop)]
pub(crate) struct Kept {
    pub tellings: Items<Telling>,
    pub gains: Items<Items<i64>>,
    pub shifted_gains: Items<Items<i64>>,
    pub naming: Items<Naming>,
    pub start: Sums,
}
