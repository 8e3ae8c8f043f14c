//! Which settings are left of those that points have, and what shifts those get that are not.

use crate::cost_network_dominance::costlier::{Costlier, Thinning};
use std::alloc::{AllocError, Global};
use vd_cost_network_dual::{End, INFINITE_COST, Nets, Network, Tables, number_at, settings_at};
use vd_cost_network_prefix::ArcTable;

/// A setting that is not left, among all that its point has.
#[derive(Clone, Copy, PartialEq, Eq)]
struct Gone {
    point: usize,
    setting: usize,
}

/// The settings that are left where those go that cost no less than another one of the same point, whatever the partners are.
#[derive(Drop)]
pub struct Thinned {
    /// By point.
    pub settings: Vec<Vec<usize>>,
    /// Those that went, in this order.
    gone: Vec<Gone>,
}

impl Thinned {
    /// Of the settings that the tables are of.
    pub fn of(
        alloc: Global,
        tables: &Tables,
        network: &Network,
        settings: &[Vec<usize>],
    ) -> Result<Thinned, AllocError> {
        let thinning = Thinning::of(alloc, tables, network)?;
        let mut kept = Vec::with_capacity(alloc, settings.len())?;
        for (all, left) in settings.iter().zip(&thinning.live) {
            kept.push(kept_of(alloc, all.as_slice(), left.as_slice())?)?;
        }
        let mut gone = Vec::with_capacity(alloc, thinning.gone.len())?;
        for costlier in &thinning.gone {
            if let Some(one) = gone_of(settings, *costlier) {
                gone.push(one)?;
            }
        }
        Ok(Thinned {
            settings: kept,
            gone,
        })
    }

    /// Gives shifts to those that went, where each point has so many settings: from the last to the first each takes from each of
    /// its arcs what this costs at least with the partners that have shifts. So no bound is less by them: such a setting then
    /// costs no less than the one for which it went.
    pub fn extend(
        &self,
        alloc: Global,
        arcs: &[ArcTable],
        network: &Network,
        counts: &[usize],
        nets: &mut Nets,
    ) -> Result<(), AllocError> {
        let mut has_shifts = Vec::with_capacity(alloc, counts.len())?;
        for (count, kept) in counts.iter().zip(&self.settings) {
            has_shifts.push(marks_at(alloc, *count, kept.as_slice())?)?;
        }
        for gone in self.gone.iter().rev() {
            for end in network.of_point(gone.point) {
                let least = least_after(arcs, *end, gone.setting, &has_shifts, nets);
                nets.add(*end, gone.setting, least);
            }
            mark(&mut has_shifts, gone.point, gone.setting);
        }
        Ok(())
    }
}

/// The settings of which it is said that they are left.
fn kept_of(alloc: Global, all: &[usize], left: &[bool]) -> Result<Vec<usize>, AllocError> {
    let mut kept = Vec::new(alloc);
    for (setting, is_left) in all.iter().zip(left) {
        if *is_left {
            kept.push(*setting)?;
        }
    }
    Ok(kept)
}

/// The same setting, among all that its point has.
fn gone_of(settings: &[Vec<usize>], costlier: Costlier) -> Option<Gone> {
    let setting = settings_at(settings, costlier.point).get(costlier.number)?;
    Some(Gone {
        point: costlier.point,
        setting: *setting,
    })
}

/// So many marks, which are set at these places.
fn marks_at(alloc: Global, count: usize, places: &[usize]) -> Result<Vec<bool>, AllocError> {
    let mut marks = vec![in alloc; false; count]?;
    for place in places {
        set(&mut marks, *place);
    }
    Ok(marks)
}

/// Sets the mark of a point at a setting.
fn mark(marks: &mut Vec<Vec<bool>>, point: usize, setting: usize) {
    if point < marks.len() {
        set(&mut marks[point], setting);
    }
}

/// Sets a mark, if there is one.
fn set(marks: &mut Vec<bool>, place: usize) {
    if place < marks.len() {
        marks[place] = true;
    }
}

/// What an arc costs at least where this end is at a setting, less what was taken from it, over the partners that have shifts;
/// nothing where there is no such partner.
fn least_after(
    arcs: &[ArcTable],
    end: End,
    setting: usize,
    has_shifts: &Vec<Vec<bool>>,
    nets: &Nets,
) -> i64 {
    let there = end.turned();
    let amounts = nets.row(there);
    let mut least = INFINITE_COST;
    if let Some(marks) = has_shifts.get(there.point) {
        for (partner, has_one) in marks.iter().enumerate() {
            if *has_one {
                let price = end.price(arcs, setting, partner);
                if price < INFINITE_COST {
                    least = least.min(price.saturating_sub(number_at(amounts, partner)));
                }
            }
        }
    }
    if least < INFINITE_COST { least } else { 0 }
}
