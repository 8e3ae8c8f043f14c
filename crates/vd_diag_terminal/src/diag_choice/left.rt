//! The places that are left to each slot by the uses of a program.

ghost use Rattle.std.specs.Prelude.{◌≡◌, ◌++◌, ◌∷◌, [], filter, if◌then◌else◌, length, map, IfOk, OnOk};
ghost use Rattle.std.specs.List.{list_any, range_with_len};
ghost use Rattle.vd_protocol.specs.Authority.{IsOver, names_of};
ghost use Rattle.vd_space.specs.Validity.{can_stand, protocols};
ghost use Rattle.vd_space.specs.WellFormed.{AreProtocols};
ghost use Rattle.vd_diag_terminal.specs.Stuck as spec;

use std::alloc::{AllocError, Global};
use vd_base::{Items, Proto, SlotId, protocol_at};
use vd_protocol::joins;
use vd_space::{Making, Problem, Use, is_candidate_at};

/// The places that are left to each slot, and the number of the first use that left its target none.
#[derive(Drop)]
pub(crate) struct Walked {
    pub left: Items<Items<u32>>,
    pub stuck: Option<usize>,
}

/// Puts a place at the end, where the test passes.
fn push_if(places: &mut Items<u32>, place: u32, test: bool) -> Result<(), AllocError>
    ensures { OnOk result (places.new ≡ places.old ++ (if test then place ∷ [] else [])) }
{
    if test { places.push(place) } else { Ok(()) }
}

/// The places of the list at which a slot can stand.
fn candidates(
    alloc: Global,
    problem: &Problem,
    list: &[Proto],
    making: &Making,
) -> Result<Items<u32>, AllocError>
    requires list { AreProtocols problem.now list.now }
    requires making { IsOver (names_of problem.now.hosts) making.now.label }
    ensures { IfOk result (λ places. places ≡ spec.candidates problem.now making.now) }
{
    let mut places = Items::new(alloc);
    for place in 0..list.len() {
        let number = place as u32;
        let test = is_candidate_at(problem, list, making, number);
        push_if(&mut places, number, test)?;
    }
    Ok(places)
}

/// The places at which each slot can stand.
fn all_candidates(
    alloc: Global,
    problem: &Problem,
    list: &[Proto],
) -> Result<Items<Items<u32>>, AllocError>
    requires { AreProtocols problem.now list.now }
    ensures { IfOk result (λ left. left ≡ spec.all_candidates problem.now) }
{
    let mut left = Items::new(alloc);
    for making in problem.slots.as_slice() {
        let places = candidates(alloc, problem, list, making)?;
        left.push(places)?;
    }
    Ok(left)
}

/// The places that are left to a slot.
pub(crate) fn left_at(left: &[Items<u32>], slot: SlotId) -> &[u32]
    ensures { result.now ≡ spec.left_at left.now slot }
{
    match left.get(usize::from(slot.0)) {
        Some(places) => places.as_slice(),
        None => &[],
    }
}

/// Whether a word comes to the place from one of these.
fn comes_to(problem: &Problem, list: &[Proto], sources: &[u32], place: u32) -> bool
    requires { list.now ≡ protocols problem.now }
    ensures { result ≡ spec.comes_to problem.now sources.now place }
{
    for source in sources {
        if joins(protocol_at(list, *source), protocol_at(list, place)) {
            return true;
        }
    }
    false
}

/// Those of the places to which a word comes from one of the sources.
fn kept_places(
    alloc: Global,
    problem: &Problem,
    list: &[Proto],
    sources: &[u32],
    targets: &[u32],
) -> Result<Items<u32>, AllocError>
    requires { list.now ≡ protocols problem.now }
    ensures { IfOk result (λ places. places ≡ filter (spec.comes_to problem.now sources.now) targets.now) }
{
    let mut places = Items::new(alloc);
    for place in targets {
        let test = comes_to(problem, list, sources, *place);
        push_if(&mut places, *place, test)?;
    }
    Ok(places)
}

/// Has the target of a use keep the places to which a word of its source comes.
fn narrow(
    alloc: Global,
    problem: &Problem,
    list: &[Proto],
    left: &mut Items<Items<u32>>,
    u: &Use,
) -> Result<(), AllocError>
    requires { list.now ≡ protocols problem.now }
    ensures { OnOk result (left.new ≡ spec.narrowed problem.now left.old u.now) }
{
    let sources = left_at(left.as_slice(), u.source);
    let targets = left_at(left.as_slice(), u.target);
    let places = kept_places(alloc, problem, list, sources, targets)?;
    let target = usize::from(u.target.0);
    if target < left.as_slice().len() {
        left.set(target, places);
    }
    Ok(())
}

/// The places that are left by the uses of a problem, up to the first use that leaves its target none.
pub(crate) fn walk(alloc: Global, problem: &Problem, list: &[Proto]) -> Result<Walked, AllocError>
    requires { AreProtocols problem.now list.now }
    ensures { IfOk result (λ walked. walked ≡ spec.walked problem.now (spec.all_candidates problem.now) problem.now.uses 0) }
{
    let uses = problem.uses.as_slice();
    let mut left = all_candidates(alloc, problem, list)?;
    for (number, u) in uses.iter().enumerate() {
        narrow(alloc, problem, list, &mut left, u)?;
        if left_at(left.as_slice(), u.target).len() == 0 {
            return Ok(Walked {
                left,
                stuck: Some(number),
            });
        }
    }
    Ok(Walked { left, stuck: None })
}
