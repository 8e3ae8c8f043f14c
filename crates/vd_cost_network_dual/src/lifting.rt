//! Lifts what is not left. A setting that went can stand in no valid list, but bounds count it. So it gets a greater cost at
//! its point, which is taken from the arc where it has no partner left: no two that are left lose by that. At its other arcs it
//! costs more as far as it would cost too little there, or by so much at least.

use crate::arc_consistency::Removal;
use crate::layout::Layout;
use crate::nets::{Nets, fixed_at};
use crate::network::{End, Network};
use crate::numbers::{INFINITE_COST, number_at, settings_at};
use crate::sweeps::State;
use crate::tables::Tables;
use std::alloc::{AllocError, Global};
use vd_cost_network_prefix::ArcTable;

/// How much is lifted.
#[derive(Clone, Copy, PartialEq, Eq)]
pub struct Lift {
    /// So many parts more are put on each.
    pub amount: i64,
    /// So many parts more it costs at least at its other arcs.
    pub elsewhere: i64,
}

/// What shifts come to, with room for what is lifted. It is made once and written again and again.
#[derive(Drop)]
pub struct Lifting {
    /// What the shifts come to by all settings.
    pub nets: Nets,
    /// What is lifted of it.
    lifts: Nets,
    /// By point, the settings that it has left, and those that went.
    known: Vec<Vec<usize>>,
    lift: Lift,
}

impl Lifting {
    /// Nothing is shifted yet, and so much is to be lifted.
    pub fn of(alloc: Global, layout: &Layout, lift: Lift) -> Result<Lifting, AllocError> {
        Ok(Lifting {
            nets: layout.no_nets(alloc)?,
            lifts: layout.no_nets(alloc)?,
            known: known_settings(alloc, layout)?,
            lift,
        })
    }

    /// What the shifts come to.
    pub fn into_nets(self) -> Nets {
        let Lifting {
            nets,
            lifts: _,
            known: _,
            lift: _,
        } = self;
        nets
    }

    /// Writes down what the shifts of a state come to where points are fixed so, by all settings at which these may be.
    pub fn write(
        &mut self,
        state: &State,
        tables: &Tables,
        arcs: &[ArcTable],
        layout: &Layout,
        fixed: &[Option<usize>],
    ) {
        let settings = layout.settings.as_slice();
        state.write_nets(tables, &layout.network, settings, fixed, &mut self.nets);
        self.lift_all(arcs, layout, fixed);
    }

    /// Lifts all that went, from the last to the first: by that time those are lifted that it had for partners. A point that is
    /// fixed is at none of them, so these need not be.
    fn lift_all(&mut self, arcs: &[ArcTable], layout: &Layout, fixed: &[Option<usize>]) {
        for removal in &layout.domains.removed {
            self.undo_removal(&layout.network, removal);
        }
        for removal in layout.domains.removed.iter().rev() {
            if fixed_at(fixed, removal.point).is_none() {
                self.lift_one(arcs, &layout.network, removal);
            }
        }
    }

    /// Shifts nothing of one.
    fn undo_removal(&mut self, network: &Network, removal: &Removal) {
        for end in network.of_point(removal.point) {
            self.nets.put(*end, removal.setting, 0);
            self.lifts.put(*end, removal.setting, 0);
        }
    }

    /// Lifts one, where the later ones were lifted. One that a point alone cannot have costs enough there already.
    fn lift_one(&mut self, arcs: &[ArcTable], network: &Network, removal: &Removal) {
        let mut sum = self.lift.amount;
        for end in network.of_point(removal.point) {
            if !removal.is_at(*end) {
                let need = self.needed(arcs, *end, removal.setting);
                self.nets
                    .put(*end, removal.setting, 0i64.saturating_sub(need));
                sum = sum.saturating_add(need);
            }
        }
        if let Some(end) = removal.end {
            self.nets.put(end, removal.setting, sum);
            self.lifts.put(end, removal.setting, sum);
        }
    }

    /// What an arc must cost more at a setting, so that it costs enough with each partner that was lifted at the arc, and with
    /// the others no less than nothing. No price is less than nothing, so that of a partner which asks for no more need not be
    /// looked at.
    fn needed(&self, arcs: &[ArcTable], end: End, setting: usize) -> i64 {
        let there = end.turned();
        let amounts = self.nets.row(there);
        let lifts = self.lifts.row(there);
        let mut most = self.lift.elsewhere;
        for partner in settings_at(self.known.as_slice(), there.point) {
            let lift = number_at(lifts, *partner);
            let is_lifted = lift > 0;
            let asked = if is_lifted {
                lift.saturating_add(self.lift.amount)
            } else {
                number_at(amounts, *partner)
            };
            if asked > most {
                let price = end.price(arcs, setting, *partner);
                if price < INFINITE_COST {
                    most = most.max(if is_lifted {
                        asked
                    } else {
                        asked.saturating_sub(price)
                    });
                }
            }
        }
        most
    }
}

/// By point, the settings that it has left, and those that went.
fn known_settings(alloc: Global, layout: &Layout) -> Result<Vec<Vec<usize>>, AllocError> {
    let mut known = Vec::with_capacity(alloc, layout.settings.len())?;
    for left in &layout.settings {
        let mut row = Vec::with_capacity(alloc, left.len())?;
        for setting in left {
            row.push(*setting)?;
        }
        known.push(row)?;
    }
    for removal in &layout.domains.removed {
        if removal.point < known.len() {
            known[removal.point].push(removal.setting)?;
        }
    }
    Ok(known)
}
