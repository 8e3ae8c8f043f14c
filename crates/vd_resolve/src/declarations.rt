//! What is declared outside of blocks.

ghost use Rattle.std.specs.Prelude.{[]};
ghost use Rattle.vd_resolve.specs.Sizes.{function_sizes};
ghost use Rattle.vd_resolve.specs.Tables.{names};
ghost use Rattle.vd_resolve.specs.Walks.{HaveSizes};

use crate::symbol::Callee;
use crate::table::NameTable;
use std::alloc::Global;
use vd_core::Function;

/// Principals and hosts, the functions before a place of the source, and the function there with those after it.
#[derive(Drop)]
pub(crate) struct Declarations<'a> {
    pub alloc: Global,
    pub principals: &'a NameTable<'a, ()>,
    pub hosts: &'a NameTable<'a, ()>,
    pub callees: &'a NameTable<'a, Callee>,
    pub earlier: &'a [Function],
    pub later: &'a [Function],
    ghost sized: { HaveSizes (names callees.now) (function_sizes [] earlier.now) },
}
