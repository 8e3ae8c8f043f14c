//! The bound of one prefix under shifts.

ghost use Rattle.std.specs.Prelude.{◌≡◌, ◌≤◌, IfOk, length};
ghost use Rattle.std.specs.List.{range_with_len};
ghost use Rattle.vd_base.specs.Limits.{most_certificate_shifts};
ghost use Rattle.vd_space.specs.Network.{by_arcs, units};
ghost use Rattle.vd_space.specs.Arcs.{arcs};
ghost use Rattle.vd_cost_network_bound.specs.Bounds.{IsBoundOf};
ghost use Rattle.vd_cost_network_prefix.specs.States.{AreSettings, as_states, count_of_points, arc_part, point_part};
ghost use Rattle.vd_space_tables.specs.Sums.{AreSmallShifts};
ghost use Rattle.vd_cost_network_tables.specs.Tables.{arc_tables_of, point_tables_of};
ghost use Rattle.vd_space_prefix.specs.Tables.{AreListed};
ghost use Rattle.vd_space_prefix.specs.Transfers.{IsWithin};
ghost use Rattle.vd_space.specs.Costs.{total};

use crate::least::{least_of_arc, least_of_point, settings_at};
use crate::made::NetworkBound;
use std::alloc::{AllocError, Global};
use vd_cost_network_prefix::{decide, undecided, whole_units};
use vd_cost_network_tables::most_settings;
use vd_search_tree::Shift;
use vd_space::Problem;
use vd_space_tables::{Rows, shift_sums};

impl NetworkBound {
    /// What all points come to, each alone, by what is decided of each.
    fn sum_of_points(
        &self,
        alloc: Global,
        problem: &Problem,
        states: &[Option<u32>],
        shifts: &[Shift],
    ) -> Result<i128, AllocError>
        requires bound { IsBoundOf problem.now self.now }
        requires states { AreSettings problem.now (as_states states.now) }
        requires few { length shifts.now ≤ most_certificate_shifts }
        ensures sum { IfOk result (λ sum. sum ≡ total (point_part (point_tables_of problem.now shifts.now) (as_states states.now))
            (range_with_len 0 (count_of_points problem.now))) }
        ensures within { IfOk result (IsWithin 20769187434139310514121985316880384) }
        ensures small { IfOk result (λ sum. AreSmallShifts shifts.now) }
    {
        let count = self.values.as_slice().len();
        let most = most_settings(self.list.as_slice());
        let sums = shift_sums(alloc, self.arcs.as_slice(), Rows::Ends, count, most, shifts)?;
        let mut sum = 0;
        for point in 0..count {
            let settings = settings_at(self.free.as_slice(), states, point);
            let values = self.values.as_slice()[point].as_slice();
            sum += i128::from(least_of_point(settings, values, sums[point].as_slice()));
        }
        Ok(sum)
    }

    /// What all arcs come to, by what is decided of each point.
    fn sum_of_arcs(
        &self,
        alloc: Global,
        problem: &Problem,
        states: &[Option<u32>],
        shifts: &[Shift],
    ) -> Result<i128, AllocError>
        requires bound { IsBoundOf problem.now self.now }
        requires states { AreSettings problem.now (as_states states.now) }
        requires few { length shifts.now ≤ most_certificate_shifts }
        ensures sum { IfOk result (λ sum. sum ≡ total (arc_part (arc_tables_of problem.now shifts.now) (as_states states.now))
            (range_with_len 0 (length (arcs problem.now)))) }
        ensures within { IfOk result (IsWithin 20769187434139310514121985316880384) }
    {
        let arcs = self.arcs.as_slice();
        let most = most_settings(self.list.as_slice());
        let from = shift_sums(alloc, arcs, Rows::Firsts, arcs.len(), most, shifts)?;
        let to = shift_sums(alloc, arcs, Rows::Seconds, arcs.len(), most, shifts)?;
        let mut sum = 0;
        for number in 0..arcs.len() {
            let arc = &arcs[number];
            let firsts = settings_at(self.free.as_slice(), states, arc.first as usize);
            let seconds = settings_at(self.free.as_slice(), states, arc.second as usize);
            let cells = arc.cells.as_slice();
            let from = from[number].as_slice();
            let to = to[number].as_slice();
            sum += i128::from(least_of_arc(firsts, seconds, cells, from, to));
        }
        Ok(sum)
    }

    /// The bound by arcs of a prefix of protocols that there are, in units of cost, under these shifts of arcs.
    pub fn bound(
        &self,
        alloc: Global,
        problem: &Problem,
        shifts: &[Shift],
        prefix: &[u32],
    ) -> Result<i64, AllocError>
        requires bound { IsBoundOf problem.now self.now }
        requires prefix { AreListed problem.now prefix.now }
        requires few { length shifts.now ≤ most_certificate_shifts }
        ensures { IfOk result (λ bound. bound ≡ units (by_arcs problem.now shifts.now prefix.now)) }
    {
        let mut states = undecided(alloc, self.values.as_slice().len())?;
        decide(
            &mut states,
            problem,
            self.list.as_slice(),
            self.switches.as_slice(),
            prefix,
        );
        let points = self.sum_of_points(alloc, problem, states.as_slice(), shifts)?;
        let arcs = self.sum_of_arcs(alloc, problem, states.as_slice(), shifts)?;
        Ok(whole_units(points + arcs))
    }
}
