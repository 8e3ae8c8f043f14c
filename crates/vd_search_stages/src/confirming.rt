//! The check of a certificate for a problem.

ghost use Rattle.std.specs.Prelude.{◌≡◌, ◌<◌, IsFalse, false, length};
ghost use Rattle.vd_space.specs.Arcs.{arcs};
ghost use Rattle.vd_search_stages.specs.Confirming.{AreNetworkTablesFor, AreTablesFor, Confirms, IsSmallCertificate};
ghost use Rattle.vd_space.specs.Validity.{is_bare};
ghost use Rattle.vd_space.specs.WellFormed.{IsWellFormed};

use crate::so_far::Decided;
use std::alloc::Global;
use vd_base::Items;
use vd_bound::{CheckFault, Proved, check};
use vd_cost_network_prefix::{NetworkPath, NetworkTables};
use vd_cost_network_tables::network_tables;
use vd_search_tree::Certificate;
use vd_space::Problem;
use vd_space_prefix::{Path, Tables};
use vd_space_tables::{all_protocols, tables};

/// What a certificate whose shifts name uses shows of a problem, or its first fault, by the tables of its shifts.
fn confirm_by(
    alloc: Global,
    problem: &Problem,
    tables: &Tables,
    certificate: &Certificate,
) -> Result<Proved, CheckFault>
    requires tables { AreTablesFor problem.now tables.now certificate.now }
    requires small { IsSmallCertificate certificate.now }
    requires few_uses { length problem.now.uses < 4294967296 }
    requires full { is_bare problem.now ≡ false }
    ensures { Confirms problem.now certificate.now result }
{
    let mut path = Path::new(alloc, problem, tables)?;
    let uses = problem.uses.as_slice().len() as u32;
    check(alloc, &mut path, uses, certificate)
}

/// The same where some slot has no candidate, on a path from the empty prefix.
fn confirm_bare(
    alloc: Global,
    path: Decided,
    certificate: &Certificate,
) -> Result<Proved, CheckFault>
    requires empty { path.depth ≡ 0 }
    requires by_uses { IsFalse certificate.now.by_arcs }
    requires small { IsSmallCertificate certificate.now }
    ensures { Confirms path.entry.problem.now certificate.now result }
{
    let mut path = path;
    let uses = path.problem.uses.as_slice().len() as u32;
    check(alloc, &mut path, uses, certificate)
}

/// The same of one whose shifts name arcs, by the tables without shifts and those of arcs.
fn confirm_by_arcs(
    alloc: Global,
    problem: &Problem,
    tables: &Tables,
    by_arcs: &NetworkTables,
    certificate: &Certificate,
) -> Result<Proved, CheckFault>
    requires tables { AreNetworkTablesFor problem.now tables.now by_arcs.now certificate.now }
    requires small { IsSmallCertificate certificate.now }
    requires few_arcs { length (arcs problem.now) < 4294967296 }
    ensures { Confirms problem.now certificate.now result }
{
    let mut path = NetworkPath::new(alloc, problem, tables, by_arcs)?;
    let arcs = by_arcs.arcs.as_slice().len() as u32;
    check(alloc, &mut path, arcs, certificate)
}

/// What a certificate shows of a problem, or its first fault.
pub fn confirm(
    alloc: Global,
    problem: &Problem,
    certificate: &Certificate,
) -> Result<Proved, CheckFault>
    requires well_formed { IsWellFormed problem.now }
    requires small { IsSmallCertificate certificate.now }
    requires few_arcs { length (arcs problem.now) < 4294967296 }
    ensures { Confirms problem.now certificate.now result }
{
    let shifts = Items::from_slice(alloc, certificate.shifts.as_slice())?;
    if certificate.by_arcs {
        let plain = tables(alloc, problem, Items::new(alloc))?;
        let by_arcs = network_tables(alloc, problem, shifts)?;
        return confirm_by_arcs(alloc, problem, &plain, &by_arcs, certificate);
    }
    let list = all_protocols(alloc, problem)?;
    if problem.is_bare(list.as_slice()) {
        let path = Decided::new(alloc, problem, list.as_slice())?;
        return confirm_bare(alloc, path, certificate);
    }
    let tables = tables(alloc, problem, shifts)?;
    confirm_by(alloc, problem, &tables, certificate)
}
