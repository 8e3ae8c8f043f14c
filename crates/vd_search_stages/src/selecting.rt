//! The search for the choice.

ghost use Rattle.std.specs.Prelude.{◌≡◌, ◌≤◌, ◌<◌, IfOk, Err, true, false, length};
ghost use Rattle.std.specs.List.{AllByRecursion};
ghost use Rattle.vd_base.specs.Limits.{most_certificate_shifts};
ghost use Rattle.vd_space_prefix.specs.Tables.{AreTables};
ghost use Rattle.vd_search_stages.specs.Naming.{NamesUse};
ghost use Rattle.vd_search_stages.specs.Selecting.{CostsAtLeast, IsOver, Selects, refuted as refuted_by};
ghost use Rattle.vd_search.specs.declared.writing.SearchFault.TheVariants as search_fault;
ghost use Rattle.vd_space.specs.Usual.{usual as usual_shifts};
ghost use Rattle.vd_space.specs.WellFormed.{IsWellFormed};
ghost use Rattle.vd_search_stages.specs.Stages.{CanSelect};

use std::alloc::{AllocError, Global};
use vd_base::Items;
use vd_search::{Answer, SearchFault, is_exceeded, search_above};
use vd_search_tree::{Certificate, Mark};
use vd_space::Problem;
use vd_space_api::usual;
use vd_space_prefix::{Path, Tables};
use vd_space_tables::tables;

/// What a selection came to.
#[derive(Drop)]
pub(crate) enum Selection {
    /// The choice, by the places of its protocols in the list; its cost; and a certificate of that.
    Found(Items<u32>, u32, Certificate),
    /// No list of protocols is valid, as the certificate of the third form shows.
    NoAssignment(Certificate),
}

/// Whether it is seen in few steps that the budget does not do by the tables of shifts, where each valid list costs at least the
/// floor. With no floor nothing is seen.
fn is_over(
    alloc: Global,
    problem: &Problem,
    tables: &Tables,
    floor: u32,
    budget: u32,
) -> Result<bool, AllocError>
    requires tables { AreTables problem.now tables.now }
    requires floor { CostsAtLeast problem.now floor }
    requires budget { budget < 4294967295 }
    ensures { IfOk result (λ over. over ≡ true → IsOver problem.now tables.now.shifts budget) }
{
    if floor == 0 {
        return Ok(false);
    }
    let mut path = Path::new(alloc, problem, tables)?;
    Ok(is_exceeded(&mut path, floor, budget))
}

/// The choice, or that there is none, by the tables of shifts, where it is known that each valid list costs at least the floor.
pub(crate) fn select_by(
    alloc: Global,
    problem: &Problem,
    tables: &Tables,
    floor: u32,
    budget: u32,
) -> Result<Selection, SearchFault>
    requires tables { CanSelect problem.now tables.now }
    requires floor { CostsAtLeast problem.now floor }
    requires budget { budget < 4294967295 }
    ensures selects { IfOk result (Selects problem.now budget) }
    ensures spent { result ≡ Err search_fault.Spent → IsOver problem.now tables.now.shifts budget }
{
    if is_over(alloc, problem, tables, floor, budget)? {
        return Err(SearchFault::Spent);
    }
    let mut path = Path::new(alloc, problem, tables)?;
    match search_above(alloc, &mut path, floor, budget) {
        Ok(Answer::Found(list, cost, marks)) => {
            let certificate = least_certificate(alloc, tables, cost, marks)?;
            Ok(Selection::Found(list, cost, certificate))
        }
        Ok(Answer::Empty(marks)) => Ok(Selection::NoAssignment(refuted(alloc, marks))),
        Err(fault) => Err(fault),
    }
}

/// The certificate of the third form that no list is valid.
pub(crate) fn refuted(alloc: Global, marks: Items<Mark>) -> Certificate
    ensures { result ≡ refuted_by marks }
{
    Certificate {
        cost: None,
        by_arcs: true,
        shifts: Items::new(alloc),
        marks,
    }
}

/// The certificate of a least cost, with the shifts under which its marks are bounded.
fn least_certificate(
    alloc: Global,
    tables: &Tables,
    cost: u32,
    marks: Items<Mark>,
) -> Result<Certificate, AllocError>
    ensures { IfOk result (λ c. c ≡ record { cost = Some cost; by_arcs = false; shifts = tables.now.shifts; marks = marks }) }
{
    let shifts = Items::from_slice(alloc, tables.shifts.as_slice())?;
    Ok(Certificate {
        cost: Some(cost),
        by_arcs: false,
        shifts,
        marks,
    })
}

/// The tables of the usual shifts.
pub(crate) fn usual_tables(alloc: Global, problem: &Problem) -> Result<Tables, AllocError>
    requires { IsWellFormed problem.now }
    ensures tables { IfOk result (AreTables problem.now) }
    ensures usual { IfOk result (λ tables. tables.shifts ≡ usual_shifts problem.now) }
    ensures few { IfOk result (λ tables. length tables.shifts ≤ most_certificate_shifts) }
    ensures named { IfOk result (λ tables. AllByRecursion (NamesUse problem.now) tables.shifts) }
{
    let shifts = usual(alloc, problem)?;
    tables(alloc, problem, shifts)
}
