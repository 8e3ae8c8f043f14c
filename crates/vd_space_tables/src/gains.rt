//! What the terms of a slot alone grow by when it is decided.

ghost use Rattle.std.specs.Prelude.{◌≡◌, ◌≤◌, ◌+ℤ◌, IfOk, All, length, map, pos, slice_index_or};
ghost use Rattle.vd_space_prefix.specs.Transfers.{IsWithin, by_place};
ghost use Rattle.vd_space_tables.specs.Charges.{IsCharge};
ghost use Rattle.vd_space_tables.specs.Gains.{gain_at_slot, gain_by, gain_with, gains_with};

use crate::charges::Charge;
use std::alloc::{AllocError, Global};
use vd_base::Items;
use vd_space_prefix::amount_at;

/// By slot and place: what the charge of the slot and those of its outputs grow by.
pub(crate) fn gains_by_slot(
    alloc: Global,
    charges: &[Charge],
    outputs: &[Charge],
) -> Result<Items<Items<i64>>, AllocError>
    requires charges { All (IsCharge 1125899906842624) charges.now }
    requires outputs { All (IsCharge 1073741824) outputs.now }
    requires few { length outputs.now ≤ 2048 }
    ensures { IfOk result (λ gains. gains ≡ map (gains_with outputs.now) charges.now) }
{
    let mut gains = Items::new(alloc);
    for charge in charges {
        gains.push(gains_of(alloc, charge, outputs)?)?;
    }
    Ok(gains)
}

/// What the charge of a slot and those of its outputs grow by, by place.
fn gains_of(alloc: Global, charge: &Charge, outputs: &[Charge]) -> Result<Items<i64>, AllocError>
    requires charge { IsCharge 1125899906842624 charge.now }
    requires outputs { All (IsCharge 1073741824) outputs.now }
    requires few { length outputs.now ≤ 2048 }
    ensures { IfOk result (λ gains. gains ≡ gains_with outputs.now charge.now) }
{
    let mut gains = Items::new(alloc);
    for place in 0..charge.costs.as_slice().len() {
        gains.push(gain(charge, outputs, place))?;
    }
    Ok(gains)
}

/// What the charge of a slot and those of its outputs grow by at a place.
fn gain(charge: &Charge, outputs: &[Charge], place: usize) -> i64
    requires charge { IsCharge 1125899906842624 charge.now }
    requires outputs { All (IsCharge 1073741824) outputs.now }
    requires few { length outputs.now ≤ 2048 }
    ensures { result ≡ gain_with outputs.now charge.now place }
{
    let mut sum = 0;
    for output in outputs {
        sum += gain_at_slot(output, charge.slot, place);
    }
    gain_at(charge, place) + sum
}

/// What the charge grows by at a place, if it is one of the slot.
fn gain_at_slot(charge: &Charge, slot: u32, place: usize) -> i64
    requires { IsCharge 1073741824 charge.now }
    ensures gain { result ≡ gain_at_slot slot place charge.now }
    ensures within { IsWithin 2147483648 result }
{
    if charge.slot == slot {
        gain_at(charge, place)
    } else {
        0
    }
}

/// What the charge grows by at a place: the cost there over the least.
fn gain_at(charge: &Charge, place: usize) -> i64
    requires { IsCharge 1125899906842624 charge.now }
    ensures { result ≡ gain_by charge.now place }
{
    amount_at(charge.costs.as_slice(), place) - charge.free
}
