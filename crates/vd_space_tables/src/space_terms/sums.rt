//! What shifts come to, all together: what they take from the cost of a use or an arc on either side, and what they put on
//! the cost of a slot or a point, by place.

ghost use Rattle.std.specs.Prelude.{◌≡◌, ◌+ℤ◌, ◌≤◌, ◌<◌, ℕ, IfOk, length, pos, replicate, slice_index_or, slice_set};
ghost use Rattle.vd_base.specs.Limits.{most_certificate_shifts};
ghost use Rattle.vd_space_tables.specs.Sums.{AreSmallShifts, AreSmallSums, row_of, slot_shifts_of, sums_of};
ghost use Rattle.vd_space_prefix.specs.Transfers.{IsWithin};
ghost use Rattle.vd_space.specs.Bounds.{side_of, signed};

use std::alloc::{AllocError, Global};
use vd_base::Items;
use vd_search_tree::Shift;
use vd_space::{Problem, Use};

/// What has two ends, as a use has slots and an arc has points.
pub trait HasEnds {
    ghost ends: { Self → ℕ → ℕ };

    /// The number of its end on a side.
    fn end_on(&self, side: u8) -> usize
        ensures { result ≡ ends self.now side };
}

impl HasEnds for Use {
    ghost ends = { side_of };

    fn end_on(&self, side: u8) -> usize {
        if side == 0 {
            usize::from(self.source.0)
        } else {
            usize::from(self.target.0)
        }
    }
}

/// The rows of a table of sums: for each item what is shifted at its first end, the same at its second, or for each end
/// what is shifted at the items that have it.
#[derive(Clone, Copy)]
pub enum Rows {
    Firsts,
    Seconds,
    Ends,
}

/// What all shifts together put on the term of each slot, by slot and place.
pub fn slot_shifts(
    alloc: Global,
    problem: &Problem,
    shifts: &[Shift],
    places: usize,
) -> Result<Items<Items<i64>>, AllocError>
    requires few { length shifts.now ≤ most_certificate_shifts }
    ensures sums { IfOk result (λ sums. sums ≡ slot_shifts_of problem.now shifts.now places) }
    ensures small { IfOk result AreSmallSums }
{
    let uses = problem.uses.as_slice();
    let slots = problem.slots.as_slice().len();
    Ok(Items::from_vec(shift_sums(alloc, uses, Rows::Ends, slots, places, shifts)?))
}

/// What the shifts come to in each of so many rows and places.
pub fn shift_sums<T: HasEnds>(
    alloc: Global,
    items: &[T],
    rows: Rows,
    count: usize,
    places: usize,
    shifts: &[Shift],
) -> Result<Vec<Items<i64>>, AllocError>
    requires few { length shifts.now ≤ most_certificate_shifts }
    ensures sums { IfOk result (λ sums. sums.items ≡ sums_of T.ends items.now rows count places shifts.now) }
    ensures small { IfOk result (λ sums. AreSmallShifts shifts.now) }
{
    let mut sums = zeros(alloc, count, places)?;
    for shift in shifts {
        let amount = amount_of(shift);
        if let Some(row) = row_number(items, rows, shift) {
            let place = usize::from(shift.proto);
            if row < count && place < places {
                add_at(&mut sums[row], place, amount);
            }
        }
    }
    Ok(sums)
}

/// The row in which a shift counts.
fn row_number<T: HasEnds>(items: &[T], rows: Rows, shift: &Shift) -> Option<usize>
    ensures { result ≡ row_of T.ends items.now rows shift.now }
{
    let at = shift.at as usize;
    match rows {
        Rows::Firsts => if shift.side == 0 { Some(at) } else { None },
        Rows::Seconds => if shift.side == 0 { None } else { Some(at) },
        Rows::Ends => items.get(at).map(|item| item.end_on(shift.side)),
    }
}

/// What a shift puts on the term of its end.
fn amount_of(shift: &Shift) -> i64
    ensures amount { result ≡ signed shift.now }
    ensures within { IsWithin 4294967296 result }
{
    let amount = i64::from(shift.amount);
    if shift.add { amount } else { -amount }
}

/// Adds to the number at a place.
fn add_at(row: &mut Items<i64>, place: usize, amount: i64)
    requires place { place < length row.old }
    requires here { IsWithin 562949953421312 (slice_index_or row.old place (pos 0)) }
    requires amount { IsWithin 4294967296 amount }
    ensures { row.new ≡ slice_set row.old place (slice_index_or row.old place (pos 0) +ℤ amount) }
{
    let sum = row.as_slice()[place] + amount;
    row.set(place, sum);
}

/// Rows of zeros.
fn zeros(alloc: Global, count: usize, places: usize) -> Result<Vec<Items<i64>>, AllocError>
    ensures { IfOk result (λ rows. rows.items ≡ replicate count (replicate places (pos 0))) }
{
    let mut rows = Vec::with_capacity(alloc, count)?;
    for _ in 0..count {
        rows.push(zero_row(alloc, places)?)?;
    }
    Ok(rows)
}

fn zero_row(alloc: Global, places: usize) -> Result<Items<i64>, AllocError>
    ensures { IfOk result (λ row. row ≡ replicate places (pos 0)) }
{
    let row = vec![in alloc; 0i64; places]?;
    Ok(Items::from_vec(row))
}
