//! The words that a host printed, each with the name of its output.

ghost use Rattle.std.specs.Prelude.{◌≡◌, IfOk, OnOk};
ghost use Rattle.vd_cmd_plan.specs.Plans.{Checks};
ghost use Rattle.vd_cmd_data.specs.Readings as readings;

use crate::outputs::Place;
use crate::printed::unreported;
use crate::spans::{Span, is_within};
use std::alloc::{AllocError, Global};
use vd_base::{Bytes, Items};
use vd_cmd_plan::{ReportFault, Status};

/// A word that a host printed, with its name.
#[derive(Drop)]
pub(crate) struct Reading {
    /// The names of all outputs that can have told it, with `or` between them.
    pub name: Bytes,
    /// Whether each of these is true or false.
    pub is_bool: bool,
    pub word: u32,
}

/// Which word it is: so many stand before it, and so many behind it.
#[derive(Clone, Copy)]
struct Spot {
    before: usize,
    after: usize,
}

/// Whether a word can be that of an output, by how many stand before it and behind it.
fn fits(spot: Spot, place: &Place) -> bool
    ensures { result ≡ readings.fits spot place.now }
{
    is_within(spot.before, place.around.before) && is_within(spot.after, place.around.after)
}

/// What is known of a word when some outputs were looked at.
#[derive(Drop)]
struct Seen {
    name: Bytes,
    is_bool: bool,
    is_some: bool,
}

/// Puts a name behind others, unless it is the only one.
fn add_name(names: &mut Bytes, name: &[u8], is_some: bool) -> Result<(), AllocError>
    ensures { OnOk result (names.new ≡ readings.with_name names.old name.now is_some) }
{
    if !is_some {
        return names.extend_from_slice(name);
    }
    if names.as_slice() == name {
        return Ok(());
    }
    names.extend_from_slice(b" or ")?;
    names.extend_from_slice(name)
}

/// What is known with one more output.
fn see(seen: Seen, spot: Spot, place: &Place) -> Result<Seen, AllocError>
    ensures { IfOk result (λ next. next ≡ readings.after_place spot seen place.now) }
{
    if !fits(spot, place) {
        return Ok(seen);
    }
    let mut name = seen.name;
    add_name(&mut name, place.name.as_slice(), seen.is_some)?;
    Ok(Seen {
        name,
        is_bool: seen.is_bool && place.is_bool,
        is_some: true,
    })
}

/// What is known of a word by all outputs.
fn seen_at(alloc: Global, spot: Spot, places: &[Place]) -> Result<Seen, AllocError>
    ensures { IfOk result (λ seen. seen ≡ readings.seen_at spot places.now) }
{
    let mut seen = Seen {
        name: Bytes::new(alloc),
        is_bool: true,
        is_some: false,
    };
    let mut rest = places;
    'places: while let Some((place, behind)) = rest.split_first() {
        seen = see(seen, spot, place)?;
        rest = behind;
    }
    Ok(seen)
}

/// The word with this number, from 1 on, of so many.
#[tactic(auto, using(crate::proofs::Unreported::unreported_there))]
fn reading_at(
    alloc: Global,
    file: &str,
    places: &[Place],
    count: usize,
    number: usize,
    word: u32,
) -> Result<Reading, Status>
    ensures { Checks (readings.reading_at file.now places.now count number word) result }
{
    let spot = Spot {
        before: number.saturating_sub(1),
        after: count.saturating_sub(number),
    };
    let seen = seen_at(alloc, spot, places)?;
    if !seen.is_some {
        return Err(unreported(alloc, file, ReportFault::Words));
    }
    Ok(Reading {
        name: seen.name,
        is_bool: seen.is_bool,
        word,
    })
}

/// The words, each with its name.
#[tactic(auto, using(crate::proofs::Turns::none_done, crate::proofs::Turns::one_done, crate::proofs::Turns::one_refused, crate::proofs::Turns::all_done))]
fn named(
    alloc: Global,
    file: &str,
    places: &[Place],
    words: &[u32],
) -> Result<Items<Reading>, Status>
    ensures { Checks (readings.named file.now places.now words.now) result }
{
    let mut list = Items::new(alloc);
    for (index, word) in words.iter().enumerate() {
        let reading = reading_at(alloc, file, places, words.len(), index + 1, *word)?;
        list.push(reading)?;
    }
    Ok(list)
}

/// The words of a run, each with its name, where a run can tell so many.
#[tactic(auto, using(crate::proofs::Unreported::unreported_there))]
pub(crate) fn readings_of(
    alloc: Global,
    file: &str,
    count: Span,
    places: &[Place],
    words: &[u32],
) -> Result<Items<Reading>, Status>
    ensures { Checks (readings.readings_of file.now count places.now words.now) result }
{
    if !is_within(words.len(), count) {
        return Err(unreported(alloc, file, ReportFault::Words));
    }
    named(alloc, file, places, words)
}
