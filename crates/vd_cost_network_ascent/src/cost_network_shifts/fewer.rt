//! Fewer amounts that come to as much, where there are too many for a certificate.

use std::alloc::{AllocError, Global};
use vd_cost_network_dual::{End, INFINITE_COST, Nets, Side, number_at};
use vd_cost_network_prefix::ArcTable;

/// Puts back on the first points of arcs what these have of them in vain: what an arc costs at least with each setting of its
/// second point stays as it is. So no bound of a prefix falls, since a setting of the first point only costs more there by what it
/// costs less at the arc.
pub(crate) fn put_back(
    alloc: Global,
    arcs: &[ArcTable],
    nets: &mut Nets,
) -> Result<(), AllocError> {
    for at in 0..arcs.len() {
        let end = End {
            at,
            side: Side::First,
            point: 0,
            other: 0,
        };
        let least = least_by_partner(alloc, arcs, end, nets)?;
        for setting in 0..nets.row(end).len() {
            let amount = number_at(nets.row(end), setting);
            if amount < 0 {
                let most = most_in_vain(arcs, end, least.as_slice(), setting);
                nets.put(end, setting, amount.max(most));
            }
        }
    }
    Ok(())
}

/// By setting of the other point, what the arc costs at least without what is put on the point at this end.
fn least_by_partner(
    alloc: Global,
    arcs: &[ArcTable],
    end: End,
    nets: &Nets,
) -> Result<Vec<i64>, AllocError> {
    let amounts = nets.row(end);
    let mut least = Vec::new(alloc);
    for partner in 0..nets.row(end.turned()).len() {
        least.push(least_with(arcs, end, amounts, partner))?;
    }
    Ok(least)
}

/// The same with one setting of the other point; `INFINITE_COST` where none joins it.
fn least_with(arcs: &[ArcTable], end: End, amounts: &[i64], partner: usize) -> i64 {
    let mut least = INFINITE_COST;
    for (setting, amount) in amounts.iter().enumerate() {
        let price = end.price(arcs, setting, partner);
        if price < INFINITE_COST {
            least = least.min(price.saturating_sub(*amount));
        }
    }
    least
}

/// The amount up to which the point at this end may get back at a setting what the arc has of it, no more than nothing.
fn most_in_vain(arcs: &[ArcTable], end: End, least: &[i64], setting: usize) -> i64 {
    let mut most: i64 = 0;
    for (partner, floor) in least.iter().enumerate() {
        let price = end.price(arcs, setting, partner);
        if price < INFINITE_COST {
            most = most.min(price.saturating_sub(*floor));
        }
    }
    most
}
