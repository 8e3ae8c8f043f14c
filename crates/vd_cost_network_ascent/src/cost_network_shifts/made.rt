//! The shifts that come to given amounts.

ghost use Rattle.std.specs.Prelude.{◌≡◌, ◌<◌, ◌≤◌, IfOk, IfSome, OnOk};
ghost use Rattle.vd_cost_network_dual.specs.Rows.{row_of};
ghost use Rattle.vd_space.specs.Shifts.{AreShiftsOf};
ghost use Rattle.vd_cost_network_ascent.specs.Shifts.{Adds, Puts, PutsRow, arc_shifts, row_shifts, shift_to, shifts_by};

use std::alloc::{AllocError, Global};
use vd_base::{Items, limits};
use vd_cost_network_dual::{Nets, number_at, row_at};
use vd_search_tree::Shift;

/// A certificate has at most so many shifts.
const MOST_SHIFTS: usize = limits::CERTIFICATE_SHIFTS as usize;

/// Adds the shift that puts an amount on a point, where that is not 0. Answers whether a shift can have the amount, and a
/// certificate so many.
fn put_shift(
    shifts: &mut Items<Shift>,
    at: u32,
    side: u8,
    place: usize,
    amount: i64,
) -> Result<bool, AllocError>
    requires side { side ≤ 1 }
    requires place { place < 256 }
    ensures puts { OnOk result (Puts at place shifts.old shifts.new) }
    ensures adds { IfOk result (Adds (shift_to at side place amount) shifts.old shifts.new) }
{
    let size = amount.unsigned_abs();
    if size == 0 {
        return Ok(true);
    }
    if size > u64::from(u32::MAX) || shifts.as_slice().len() >= MOST_SHIFTS {
        return Ok(false);
    }
    shifts.push(Shift {
        at,
        side,
        proto: place as u8,
        add: amount > 0,
        amount: size as u32,
    })?;
    Ok(true)
}

/// Adds the shifts at one end of an arc, by the settings of a row. Answers whether shifts can have all the amounts.
fn put_row(
    shifts: &mut Items<Shift>,
    at: u32,
    side: u8,
    places: usize,
    row: &[i64],
) -> Result<bool, AllocError>
    requires side { side ≤ 1 }
    requires places { places ≤ 256 }
    ensures puts { OnOk result (PutsRow at places shifts.old shifts.new) }
    ensures adds { IfOk result (Adds (row_shifts at side row.now places) shifts.old shifts.new) }
{
    for place in 0..places {
        if !put_shift(shifts, at, side, place, number_at(row, place))? {
            return Ok(false);
        }
    }
    Ok(true)
}

/// Adds the shifts of an arc, at so many places of each end. Answers whether shifts can have all the amounts.
fn put_arc(
    shifts: &mut Items<Shift>,
    at: u32,
    places: usize,
    nets: &Nets,
) -> Result<bool, AllocError>
    requires places { places ≤ 256 }
    ensures puts { OnOk result (PutsRow at places shifts.old shifts.new) }
    ensures adds { IfOk result (Adds (arc_shifts (row_of nets.now.firsts) (row_of nets.now.seconds) places at)
        shifts.old shifts.new) }
{
    let firsts = row_at(nets.firsts.as_slice(), at as usize);
    if !put_row(shifts, at, 0, places, firsts)? {
        return Ok(false);
    }
    let seconds = row_at(nets.seconds.as_slice(), at as usize);
    put_row(shifts, at, 1, places, seconds)
}

/// The shifts of so many arcs, at so many places of each end, that come to these amounts; none where an amount is too great for a
/// shift, or they are too many for a certificate.
fn shifts_of_few(
    alloc: Global,
    arcs: usize,
    places: usize,
    nets: &Nets,
) -> Result<Option<Items<Shift>>, AllocError>
    requires arcs { arcs ≤ 4294967295 }
    requires places { places ≤ 256 }
    ensures shifts { IfOk result (λ found. IfSome found (AreShiftsOf arcs places)) }
    ensures amounts { IfOk result (λ found. IfSome found (λ shifts. shifts ≡ shifts_by nets.now places arcs)) }
{
    let mut shifts = Items::new(alloc);
    for at in 0..arcs {
        if !put_arc(&mut shifts, at as u32, places, nets)? {
            return Ok(None);
        }
    }
    Ok(Some(shifts))
}

/// The same of any number of arcs; none too where the number of an arc is too great for a shift.
pub fn shifts_of(
    alloc: Global,
    arcs: usize,
    places: usize,
    nets: &Nets,
) -> Result<Option<Items<Shift>>, AllocError>
    requires places { places ≤ 256 }
    ensures shifts { IfOk result (λ found. IfSome found (AreShiftsOf arcs places)) }
    ensures amounts { IfOk result (λ found. IfSome found (λ shifts. shifts ≡ shifts_by nets.now places arcs)) }
{
    if arcs > u32::MAX as usize {
        return Ok(None);
    }
    shifts_of_few(alloc, arcs, places, nets)
}
