//! The choice for a problem, by the protocols themselves: below it a search names them by their places in the list of all.

ghost use Rattle.std.specs.Prelude.{◌≡◌, ◌<◌, IfOk, Err, map};
ghost use Rattle.vd_search_stages.specs.Optimum.{IsOptimum, in_form as formed, optimum_of as optimum_at};
ghost use Rattle.vd_search_stages.specs.Selecting.{IsOver};
ghost use Rattle.vd_search_stages.specs.Spending.{IsSpent};
ghost use Rattle.vd_search.specs.declared.writing.SearchFault.TheVariants as search_fault;
ghost use Rattle.vd_space.specs.Labelled.{IsLabelled};
ghost use Rattle.vd_space.specs.Usual.{usual as usual_shifts};
ghost use Rattle.vd_space.specs.Validity.{protocol};
ghost use Rattle.vd_space.specs.WellFormed.{IsWellFormed};

use crate::selecting::Selection;
use crate::stages::select_places;
use std::alloc::{AllocError, Global};
use vd_base::{Items, Proto, protocol_at};
use vd_cost_network_bound::Ascents;
use vd_search::SearchFault;
use vd_search_tree::Certificate;
use vd_space::Problem;
use vd_space_tables::all_protocols;

/// The protocol of each slot of a program, and what they cost together.
#[derive(Drop)]
pub struct Assignment {
    pub protocols: Items<Proto>,
    pub cost: u32,
}

/// What a search for protocols came to.
#[derive(Drop)]
pub struct Optimum {
    /// The assignment of least cost, if one is valid.
    pub assignment: Option<Assignment>,
    /// A certificate of that, which the checker accepts.
    pub certificate: Certificate,
}

/// The protocols at these places of the list of all.
fn protocols_at(
    alloc: Global,
    problem: &Problem,
    places: &[u32],
) -> Result<Items<Proto>, AllocError>
    requires { IsLabelled problem.now }
    ensures { IfOk result (λ protocols. protocols ≡ map (protocol problem.now) places.now) }
{
    let list = all_protocols(alloc, problem)?;
    let mut protocols = Items::new(alloc);
    for place in places {
        protocols.push(protocol_at(list.as_slice(), *place))?;
    }
    Ok(protocols)
}

/// A certificate that no list is valid, in the third form only where some slot has no candidate.
fn in_form(
    alloc: Global,
    problem: &Problem,
    certificate: Certificate,
) -> Result<Certificate, AllocError>
    requires { IsLabelled problem.now }
    ensures { IfOk result (λ c. c ≡ formed problem.now certificate) }
{
    let list = all_protocols(alloc, problem)?;
    let by_arcs = problem.is_bare(list.as_slice());
    Ok(Certificate {
        by_arcs,
        ..certificate
    })
}

/// What was selected, with the protocols in the place of their places.
fn optimum_of(alloc: Global, problem: &Problem, selection: Selection) -> Result<Optimum, AllocError>
    requires { IsLabelled problem.now }
    ensures { IfOk result (λ optimum. optimum ≡ optimum_at problem.now selection) }
{
    match selection {
        Selection::Found(places, cost, certificate) => {
            let protocols = protocols_at(alloc, problem, places.as_slice())?;
            Ok(Optimum {
                assignment: Some(Assignment { protocols, cost }),
                certificate,
            })
        }
        Selection::NoAssignment(certificate) => Ok(Optimum {
            assignment: None,
            certificate: in_form(alloc, problem, certificate)?,
        }),
    }
}

/// The choice of protocols for a problem, or that no assignment is valid; with a certificate of that, which opens at most so many
/// prefixes. The budget is spent only where it does not suffice under the usual shifts, nor its parts under the shifts that
/// each of the ascents gives.
pub fn select<A: Ascents>(
    alloc: Global,
    ascents: &A,
    problem: &Problem,
    budget: u32,
) -> Result<Optimum, SearchFault>
    requires well_formed { IsWellFormed problem.now }
    requires budget { budget < 4294967295 }
    ensures selects { IfOk result (IsOptimum problem.now budget) }
    ensures spent { result ≡ Err search_fault.Spent → IsOver problem.now (usual_shifts problem.now) budget }
    ensures stages { result ≡ Err search_fault.Spent →
        IsSpent problem.now budget (A.uses_give ascents.now problem.now) (A.arcs_give ascents.now problem.now)
        (A.walks_give ascents.now problem.now) }
{
    let selection = select_places(alloc, ascents, problem, budget)?;
    Ok(optimum_of(alloc, problem, selection)?)
}
