//! A whole source.

ghost use Rattle.std.specs.Prelude.{◌≡◌, ◌⊎◌, [], Ok, Err, OnOk, IfErr, IfOk};
ghost use Rattle.vd_core.specs.Named.{HasNames};
ghost use Rattle.vd_resolve.specs.declared.fault.NameFault.TheVariants.{Memory as want_of_memory};
ghost use Rattle.vd_resolve.specs.Causes.{distinct_told, hosts_told, source_told, resolution_told};
ghost use Rattle.vd_resolve.specs.Faults.{bare};
ghost use Rattle.vd_resolve.specs.Limits.{resolution, IsResolved};
ghost use Rattle.vd_resolve.specs.Rules.{distinct, hosts_check, source_check};
ghost use Rattle.vd_resolve.specs.Sizes.{IsCapped, source_size};
ghost use Rattle.vd_resolve.specs.Tables.{names};
ghost use Rattle.vd_resolve.specs.Walks.{IsCauseOf, IsFaultOf};

use crate::fault::NameFault;
use crate::function::check_bodies;
use crate::limits::check_limits;
use crate::names::{check_label, declare};
use crate::resolved::Resolved;
use crate::size::Size;
use crate::table::NameTable;
use std::alloc::Global;
use vd_core::{Host, Ident, Source};

fn declare_principals<'a>(
    alloc: Global,
    idents: &'a [Ident],
) -> Result<NameTable<'a, ()>, NameFault>
    ensures ok { IfOk result (λ principals. distinct [] idents.now ≡ Ok (names principals)) }
    ensures told { IfOk result (λ principals. distinct_told ([], []) idents.now ≡ Ok principals) }
    ensures fault { IfErr result (IsFaultOf (distinct [] idents.now)) }
    ensures cause { IfErr result (IsCauseOf (distinct_told ([], []) idents.now)) }
{
    let mut principals = NameTable::new(alloc);
    for ident in idents {
        declare(&mut principals, ident, ())?;
    }
    Ok(principals)
}

fn declare_hosts<'a>(
    alloc: Global,
    principals: &NameTable<'_, ()>,
    hosts: &'a [Host],
) -> Result<NameTable<'a, ()>, NameFault>
    ensures ok { IfOk result (λ table. hosts_check (names principals.now) [] hosts.now ≡ Ok (names table)) }
    ensures told { IfOk result (λ table. hosts_told (names principals.now) ([], []) hosts.now ≡ Ok table) }
    ensures fault { IfErr result (IsFaultOf (hosts_check (names principals.now) [] hosts.now)) }
    ensures cause { IfErr result (IsCauseOf (hosts_told (names principals.now) ([], []) hosts.now)) }
{
    let mut table = NameTable::new(alloc);
    for host in hosts {
        declare(&mut table, &host.name, ())?;
        check_label(principals, &host.label)?;
    }
    Ok(table)
}

/// The size of a source, if it has no fault on names and kinds.
fn check_source(alloc: Global, source: &Source) -> Result<Size, NameFault>
    ensures ok { OnOk result (source_check source.now ≡ Ok tt) }
    ensures size { IfOk result (λ size. IsCapped size (source_size source.now)) }
    ensures told { OnOk result (source_told source.now ≡ Ok tt) }
    ensures fault { IfErr result (IsFaultOf (source_check source.now)) }
    ensures cause { IfErr result (IsCauseOf (source_told source.now)) }
{
    let idents = source.principals.as_slice();
    let host_list = source.hosts.as_slice();
    let functions = source.functions.as_slice();
    let main = source.main.as_slice();
    let principals = declare_principals(alloc, idents)?;
    let hosts = declare_hosts(alloc, &principals, host_list)?;
    check_bodies(alloc, principals, hosts, functions, main)
}

/// A source with names that keeps every rule on names, kinds and limits, or its first fault. Faults on names and kinds come first, in the
/// order of a walk through the text; then the limits, in the order of [`Quantity`](crate::Quantity). A fault of kinds says what meets
/// there, and a name that is twice where it was declared.
pub fn resolve(alloc: Global, source: Source) -> Result<Resolved, NameFault>
    requires { HasNames source }
    ensures same { IfOk result (λ resolved. resolved ≡ source) }
    ensures resolved { OnOk result (IsResolved source) }

    // Running out of memory may come at any source.
    ensures fault { IfErr result (λ fault. (fault ≡ want_of_memory) ⊎ (resolution source ≡ Err (bare fault))) }
    ensures cause { IfErr result (IsCauseOf (resolution_told source)) }
{
    let size = check_source(alloc, &source)?;
    check_limits(source.principals.len(), source.hosts.len(), size)?;
    Ok(Resolved::new(source))
}
