//! Tables of terms of one point and of two, over the settings at which these may be.

ghost use Rattle.std.specs.Prelude.{◌≡◌, ℕ, None, [], IfOk, length, map, option_map, pos, slice_index_or, unwrap_or, ◌+ℤ◌, ◌-ℤ◌};
ghost use Rattle.vd_space.specs.Network.{no_parts_left};
ghost use Rattle.vd_cost_network_tables.specs.Tables.{least_column, least_row, shifted_cells, shifted_row, table_of_cells, table_of_values};
ghost use Rattle.vd_space_prefix.specs.Transfers.{IsWithin, by_place, least_where};
ghost use Rattle.vd_space.specs.Bounds.{only_if};

use std::alloc::{AllocError, Global};
use vd_base::Items;
use vd_cost_network_prefix::{ArcTable, PointTable, number_of};
use vd_space::lesser_of;
use vd_space_prefix::amount_at;

/// The value, where the test passes.
fn value_if(test: bool, value: Option<i64>) -> Option<i64>
    ensures { result ≡ only_if test value }
{
    if test { value } else { None }
}

/// The value at a setting, if there is one.
pub fn value_at(values: &[Option<i64>], setting: usize) -> Option<i64>
    ensures { result ≡ slice_index_or values.now setting None }
{
    match values.get(setting) {
        Some(value) => *value,
        None => None,
    }
}

/// The least of the values at the settings that pass.
fn least_passing(tests: &[bool], values: &[Option<i64>]) -> Option<i64>
    ensures { result ≡ least_where tests.now (λ v. slice_index_or values.now v None) }
{
    let mut least = None;
    for (setting, test) in tests.iter().enumerate() {
        least = lesser_of(least, value_if(*test, value_at(values, setting)));
    }
    least
}

/// The least of each row, over the settings that pass.
fn least_rows(
    alloc: Global,
    seconds: &[bool],
    cells: &[Items<Option<i64>>],
) -> Result<Items<Option<i64>>, AllocError>
    ensures { IfOk result (λ leasts. leasts ≡ map (least_row seconds.now) cells.now) }
{
    let mut leasts = Items::from_vec(Vec::with_capacity(alloc, cells.len())?);
    for row in cells {
        leasts.push(least_passing(seconds, row.as_slice()))?;
    }
    Ok(leasts)
}

/// The values of one setting of the second point, by those of the first.
fn column_of(
    alloc: Global,
    cells: &[Items<Option<i64>>],
    second: usize,
) -> Result<Items<Option<i64>>, AllocError>
    ensures { IfOk result (λ column. column ≡ map (λ row. slice_index_or row second None) cells.now) }
{
    let mut column = Items::from_vec(Vec::with_capacity(alloc, cells.len())?);
    for row in cells {
        column.push(value_at(row.as_slice(), second))?;
    }
    Ok(column)
}

/// The least of each column, over the settings that pass.
fn least_columns(
    alloc: Global,
    firsts: &[bool],
    cells: &[Items<Option<i64>>],
    columns: usize,
) -> Result<Items<Option<i64>>, AllocError>
    ensures { IfOk result (λ leasts. leasts ≡ by_place columns (least_column firsts.now cells.now)) }
{
    let mut leasts = Items::from_vec(Vec::with_capacity(alloc, columns)?);
    for second in 0..columns {
        let column = column_of(alloc, cells, second)?;
        leasts.push(least_passing(firsts, column.as_slice()))?;
    }
    Ok(leasts)
}

/// The numbers, and where there is none what a term with nothing left counts.
fn numbers_of(alloc: Global, values: &[Option<i64>]) -> Result<Items<i64>, AllocError>
    ensures { IfOk result (λ numbers. numbers ≡ map (λ value. unwrap_or value no_parts_left) values.now) }
{
    let mut numbers = Items::from_vec(Vec::with_capacity(alloc, values.len())?);
    for value in values {
        numbers.push(number_of(*value))?;
    }
    Ok(numbers)
}

/// The cost, less the amount.
pub fn less(cost: Option<i64>, amount: i64) -> Option<i64>
    requires cost { IsWithin 562949953421312 (unwrap_or cost (pos 0)) }
    requires amount { IsWithin 1125899906842624 amount }
    ensures { result ≡ option_map (λ c. c -ℤ amount) cost }
{
    match cost {
        Some(number) => Some(number - amount),
        None => None,
    }
}

/// What shifts take at a setting of the first side and at one of the second, together.
fn taken(from: &[i64], first: usize, to: &[i64], second: usize) -> i64
    requires from { (v : ℕ) → IsWithin 562949953421312 (slice_index_or from.now v (pos 0)) }
    requires to { (w : ℕ) → IsWithin 562949953421312 (slice_index_or to.now w (pos 0)) }
    ensures taken { result ≡ slice_index_or from.now first (pos 0) +ℤ slice_index_or to.now second (pos 0) }
    ensures within { IsWithin 1125899906842624 result }
{
    amount_at(from, first) + amount_at(to, second)
}

/// A row of costs, less what shifts take at its setting of the first side, and by setting on the second.
fn shifted_row(
    alloc: Global,
    row: &[Option<i64>],
    first: usize,
    from: &[i64],
    to: &[i64],
) -> Result<Items<Option<i64>>, AllocError>
    requires row { (w : ℕ) → IsWithin 562949953421312 (unwrap_or (slice_index_or row.now w None) (pos 0)) }
    requires from { (v : ℕ) → IsWithin 562949953421312 (slice_index_or from.now v (pos 0)) }
    requires to { (w : ℕ) → IsWithin 562949953421312 (slice_index_or to.now w (pos 0)) }
    ensures { IfOk result (λ shifted. shifted ≡ shifted_row row.now (slice_index_or from.now first (pos 0)) to.now) }
{
    let mut shifted = Items::from_vec(Vec::with_capacity(alloc, row.len())?);
    for second in 0..row.len() {
        shifted.push(less(value_at(row, second), taken(from, first, to, second)))?;
    }
    Ok(shifted)
}

/// The row at a setting.
fn row_at(cells: &[Items<Option<i64>>], first: usize) -> &[Option<i64>]
    ensures { result.now ≡ slice_index_or cells.now first [] }
{
    match cells.get(first) {
        Some(row) => row.as_slice(),
        None => &[],
    }
}

/// The costs, less what shifts take by setting on either side.
pub(crate) fn shifted(
    alloc: Global,
    cells: &[Items<Option<i64>>],
    from: &[i64],
    to: &[i64],
) -> Result<Items<Items<Option<i64>>>, AllocError>
    requires cells { (v w : ℕ) → IsWithin 562949953421312 (unwrap_or (slice_index_or (slice_index_or cells.now v []) w None) (pos 0)) }
    requires from { (v : ℕ) → IsWithin 562949953421312 (slice_index_or from.now v (pos 0)) }
    requires to { (w : ℕ) → IsWithin 562949953421312 (slice_index_or to.now w (pos 0)) }
    ensures { IfOk result (λ shifted. shifted ≡ shifted_cells cells.now from.now to.now) }
{
    let mut shifted = Items::from_vec(Vec::with_capacity(alloc, cells.len())?);
    for first in 0..cells.len() {
        shifted.push(shifted_row(alloc, row_at(cells, first), first, from, to)?)?;
    }
    Ok(shifted)
}

/// The table of a point whose costs by setting are these.
pub(crate) fn point_table(
    alloc: Global,
    tests: &[bool],
    values: &[Option<i64>],
) -> Result<PointTable, AllocError>
    ensures { IfOk result (λ table. table ≡ table_of_values tests.now values.now) }
{
    Ok(PointTable {
        costs: numbers_of(alloc, values)?,
        free: number_of(least_passing(tests, values)),
    })
}

/// The table of an arc between two points whose costs by their settings are these.
pub(crate) fn arc_table(
    alloc: Global,
    ends: (u32, u32),
    firsts: &[bool],
    seconds: &[bool],
    cells: Items<Items<Option<i64>>>,
) -> Result<ArcTable, AllocError>
    ensures { IfOk result (λ table. table ≡ table_of_cells ends.0 ends.1 firsts.now seconds.now cells) }
{
    let leasts = least_rows(alloc, seconds, cells.as_slice())?;
    let columns = least_columns(alloc, firsts, cells.as_slice(), seconds.len())?;
    Ok(ArcTable {
        first: ends.0,
        second: ends.1,
        rows: numbers_of(alloc, leasts.as_slice())?,
        columns: numbers_of(alloc, columns.as_slice())?,
        both: number_of(least_passing(firsts, leasts.as_slice())),
        cells,
    })
}
