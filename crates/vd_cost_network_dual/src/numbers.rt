//! Rows of numbers, read and changed by place. A sum or product that does not fit stays at the nearest number that does.

ghost use Rattle.std.specs.Prelude.{◌≡◌, pos, slice_index_or};
ghost use Rattle.vd_cost_network_dual.specs.Rows.{row_in};

use std::alloc::{AllocError, Global};

/// A unit of cost, in parts: 2 to the power of so many bits.
pub const UNIT: i64 = 256;

pub const UNIT_BITS: u32 = 8;

/// More than any sum of costs in parts: what it would cost to do what cannot be done.
pub const INFINITE_COST: i64 = 1125899906842624;

/// All that points and arcs cost together is no greater, in steps.
pub(crate) const SMALL: i64 = 536_870_912;

/// More than any such sum: what it would cost to do what cannot be done, in steps.
pub(crate) const INFINITE_STEPS: i32 = 1_073_741_824;

/// The nearest small number.
pub(crate) fn nearest_small(number: i64) -> i32 {
    number.max(-SMALL).min(SMALL) as i32
}

/// The number at a place, and 0 past the end.
pub fn number_at(numbers: &[i64], place: usize) -> i64
    ensures { result ≡ slice_index_or numbers.now place (pos 0) }
{
    match numbers.get(place) {
        Some(number) => *number,
        None => 0,
    }
}

/// The small number at a place, and 0 past the end.
pub(crate) fn small_at(numbers: &[i32], place: usize) -> i32 {
    match numbers.get(place) {
        Some(number) => *number,
        None => 0,
    }
}

/// A row of a table, which is empty past the end.
pub fn row_at(rows: &[Vec<i64>], row: usize) -> &[i64]
    ensures { result.now ≡ row_in rows.now row }
{
    match rows.get(row) {
        Some(numbers) => numbers.as_slice(),
        None => &[],
    }
}

/// A row of a table of small numbers, which is empty past the end.
pub(crate) fn small_row_at(rows: &[Vec<i32>], row: usize) -> &[i32] {
    match rows.get(row) {
        Some(numbers) => numbers.as_slice(),
        None => &[],
    }
}

/// The settings that are left of a point, which are none past the end.
pub fn settings_at(settings: &[Vec<usize>], point: usize) -> &[usize] {
    match settings.get(point) {
        Some(left) => left.as_slice(),
        None => &[],
    }
}

/// Adds to the number at a place, if there is one.
pub(crate) fn add(numbers: &mut Vec<i64>, place: usize, amount: i64) {
    if place < numbers.len() {
        numbers[place] = numbers[place].wrapping_add(amount);
    }
}

/// Adds to the number of a table at a row and a place, if there is one.
pub(crate) fn add_at(rows: &mut Vec<Vec<i64>>, row: usize, place: usize, amount: i64) {
    if row < rows.len() {
        add(&mut rows[row], place, amount);
    }
}

/// Puts a number into a table at a row and a place, if there is one.
pub(crate) fn put_at(rows: &mut Vec<Vec<i64>>, row: usize, place: usize, number: i64) {
    if row < rows.len() {
        put_number(&mut rows[row], place, number);
    }
}

/// Puts a number at a place, if there is one.
fn put_number(numbers: &mut Vec<i64>, place: usize, number: i64) {
    if place < numbers.len() {
        numbers[place] = number;
    }
}

/// Puts a small number at a place, if there is one.
pub(crate) fn put(numbers: &mut Vec<i32>, place: usize, number: i32) {
    if place < numbers.len() {
        numbers[place] = number;
    }
}

/// Adds to the small number at a place, if there is one.
pub(crate) fn add_small(numbers: &mut Vec<i32>, place: usize, amount: i32) {
    if place < numbers.len() {
        numbers[place] = numbers[place].wrapping_add(amount);
    }
}

/// A row of so many zeros.
pub(crate) fn zeros(alloc: Global, count: usize) -> Result<Vec<i64>, AllocError> {
    vec![in alloc; 0; count]
}

/// A row of so many small zeros.
pub(crate) fn small_zeros(alloc: Global, count: usize) -> Result<Vec<i32>, AllocError> {
    vec![in alloc; 0; count]
}
