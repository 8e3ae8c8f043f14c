//! The least of what a point or an arc costs, over the settings at which points may be.

ghost use Rattle.std.specs.Prelude.{◌≡◌, ℕ, None, [], pos, slice_index_or, unwrap_or};
ghost use Rattle.vd_space.specs.Network.{no_parts_left};
ghost use Rattle.vd_cost_network_bound.specs.Least.{cell_less, least_among, least_of_cells, least_of_row, settings_at, value_with};
ghost use Rattle.vd_space_prefix.specs.Transfers.{IsWithin};

use std::slice::from_ref;
use vd_base::Items;
use vd_cost_network_prefix::number_of;
use vd_cost_network_tables::{less, value_at};
use vd_space::lesser_of;
use vd_space_prefix::amount_at;

/// The settings at which a point may be where nothing is decided.
fn free_at(free: &[Items<u32>], point: usize) -> &[u32]
    ensures { result.now ≡ slice_index_or free.now point [] }
{
    match free.get(point) {
        Some(settings) => settings.as_slice(),
        None => &[],
    }
}

/// The setting at which the point stands, or all at which it may be.
pub(crate) fn settings_at<'a>(
    free: &'a [Items<u32>],
    states: &'a [Option<u32>],
    point: usize,
) -> &'a [u32]
    ensures { result.now ≡ settings_at free.now states.now point }
{
    let Some(state) = states.get(point) else {
        return free_at(free, point);
    };
    match state {
        Some(setting) => from_ref(setting),
        None => free_at(free, point),
    }
}

/// What a point costs at a setting, with what shifts put on it.
fn value_with(values: &[Option<i64>], amounts: &[i64], setting: u32) -> Option<i64>
    requires values { (v : ℕ) → IsWithin 562949953421312 (unwrap_or (slice_index_or values.now v None) (pos 0)) }
    requires amounts { (v : ℕ) → IsWithin 562949953421312 (slice_index_or amounts.now v (pos 0)) }
    ensures { result ≡ value_with values.now amounts.now setting }
{
    match value_at(values, setting as usize) {
        Some(cost) => Some(cost + amount_at(amounts, setting as usize)),
        None => None,
    }
}

/// What a point costs at least.
pub(crate) fn least_of_point(settings: &[u32], values: &[Option<i64>], amounts: &[i64]) -> i64
    requires values { (v : ℕ) → IsWithin 562949953421312 (unwrap_or (slice_index_or values.now v None) (pos 0)) }
    requires amounts { (v : ℕ) → IsWithin 562949953421312 (slice_index_or amounts.now v (pos 0)) }
    ensures { result ≡ unwrap_or (least_among settings.now (value_with values.now amounts.now)) no_parts_left }
{
    let mut least = None;
    for setting in settings {
        least = lesser_of(least, value_with(values, amounts, *setting));
    }
    number_of(least)
}

/// What an arc costs at a setting of its second point, less what shifts take.
fn cell_less(row: &[Option<i64>], from: i64, to: &[i64], setting: u32) -> Option<i64>
    requires row { (w : ℕ) → IsWithin 562949953421312 (unwrap_or (slice_index_or row.now w None) (pos 0)) }
    requires from { IsWithin 562949953421312 from }
    requires to { (w : ℕ) → IsWithin 562949953421312 (slice_index_or to.now w (pos 0)) }
    ensures { result ≡ cell_less row.now from to.now setting }
{
    let taken = from + amount_at(to, setting as usize);
    less(value_at(row, setting as usize), taken)
}

/// What an arc costs at least at one setting of its first point.
fn least_of_row(seconds: &[u32], row: &[Option<i64>], from: i64, to: &[i64]) -> Option<i64>
    requires row { (w : ℕ) → IsWithin 562949953421312 (unwrap_or (slice_index_or row.now w None) (pos 0)) }
    requires from { IsWithin 562949953421312 from }
    requires to { (w : ℕ) → IsWithin 562949953421312 (slice_index_or to.now w (pos 0)) }
    ensures { result ≡ least_of_row seconds.now row.now from to.now }
{
    let mut least = None;
    for setting in seconds {
        least = lesser_of(least, cell_less(row, from, to, *setting));
    }
    least
}

/// The row at a setting.
fn row_at(cells: &[Items<Option<i64>>], setting: u32) -> &[Option<i64>]
    ensures { result.now ≡ slice_index_or cells.now setting [] }
{
    match cells.get(setting as usize) {
        Some(row) => row.as_slice(),
        None => &[],
    }
}

/// What an arc costs at least.
pub(crate) fn least_of_arc(
    firsts: &[u32],
    seconds: &[u32],
    cells: &[Items<Option<i64>>],
    from: &[i64],
    to: &[i64],
) -> i64
    requires cells { (v w : ℕ) → IsWithin 562949953421312 (unwrap_or (slice_index_or (slice_index_or cells.now v []) w None) (pos 0)) }
    requires from { (v : ℕ) → IsWithin 562949953421312 (slice_index_or from.now v (pos 0)) }
    requires to { (w : ℕ) → IsWithin 562949953421312 (slice_index_or to.now w (pos 0)) }
    ensures { result ≡ unwrap_or (least_of_cells firsts.now seconds.now cells.now from.now to.now) no_parts_left }
{
    let mut least = None;
    for setting in firsts {
        let amount = amount_at(from, *setting as usize);
        least = lesser_of(
            least,
            least_of_row(seconds, row_at(cells, *setting), amount, to),
        );
    }
    number_of(least)
}
