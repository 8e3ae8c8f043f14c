//! What a statement sees besides the names of values.

ghost use Rattle.std.specs.Prelude.{◌≤◌, length};
ghost use Rattle.vd_base.specs.Limits.{most_hosts};

use std::alloc::Global;
use vd_core::{Function, Host};

/// What a statement sees besides the names of values: the hosts, and the functions before it.
#[derive(Drop)]
pub(crate) struct Declarations<'a> {
    pub(crate) alloc: Global,
    pub(crate) hosts: &'a [Host],
    pub(crate) functions: &'a [Function],
    ghost few_hosts: { length hosts.now ≤ most_hosts },
}
