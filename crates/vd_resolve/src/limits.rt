//! The limits of a source.

ghost use Rattle.std.specs.Prelude.{◌≡◌, length, Ok, OnOk, IfErr};
ghost use Rattle.vd_resolve.specs.Faults.{Nothing, carried};
ghost use Rattle.vd_resolve.specs.Limits.{within, limits_check};
ghost use Rattle.vd_resolve.specs.Sizes.{capped};
ghost use Rattle.vd_resolve.specs.Walks.{IsFaultOf};

use crate::fault::{NameFault, Quantity};
use crate::size::Size;
use vd_base::limits;

fn check_limit(which: Quantity, limit: u32, count: u32) -> Result<(), NameFault>
    ensures ok { OnOk result (within which limit count ≡ Ok tt) }
    ensures fault { IfErr result (IsFaultOf (within which limit count)) }
    ensures plain { IfErr result (λ fault. carried fault ≡ Nothing) }
{
    if count > limit {
        Err(NameFault::Limit(which, count))
    } else {
        Ok(())
    }
}

fn count(length: usize) -> u32
    ensures { result ≡ capped length }
{
    u32::try_from(length).unwrap_or(u32::MAX)
}

/// Whether so many principals and hosts and this size are within the limits.
pub(crate) fn check_limits(principals: usize, hosts: usize, size: Size) -> Result<(), NameFault>
    ensures ok { OnOk result (limits_check (capped principals) (capped hosts) size ≡ Ok tt) }
    ensures fault { IfErr result (IsFaultOf (limits_check (capped principals) (capped hosts) size)) }
    ensures plain { IfErr result (λ fault. carried fault ≡ Nothing) }
{
    check_limit(Quantity::Principals, limits::PRINCIPALS, count(principals))?;
    check_limit(Quantity::Hosts, limits::HOSTS, count(hosts))?;
    check_limit(Quantity::Nesting, limits::NESTING, size.nesting)?;
    check_limit(Quantity::Statements, limits::STATEMENTS, size.statements)?;
    check_limit(Quantity::Weights, limits::WEIGHTS, size.weights)?;
    check_limit(Quantity::Cells, limits::CELLS, size.cells)
}
