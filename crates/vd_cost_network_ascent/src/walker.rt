//! Tests of candidates by sweeps. What is fixed so far stands in penalties on the other settings, so that the sweeps go by the
//! prefix.

use crate::climbing::{Climb, WORK};
use std::alloc::{AllocError, Global};
use vd_cost_network_dual::{Lifting, Nets, Witness};
use vd_cost_network_prefix::ArcTable;

/// So many sweeps forward are made for one candidate at most, and as many backward.
const ROUNDS: u32 = 12;

/// What a setting costs more at which a point is not to be, in steps: at least 4,096 units.
const PENALTY: i32 = 1_048_576;

/// A walk goes back so often at most: the search behind it opens a prefix more each time, and may open so many besides those of
/// the list.
const BACKS: u32 = 256;

/// It ends where so many candidates were refuted since it got farther.
const IDLE: u32 = 24;

/// To show that a candidate is refuted takes as long as to look so often at all prices that count for it.
const SHOWING: u64 = 3;

/// A candidate of a slot: a setting of its point.
#[derive(Clone, Copy, PartialEq, Eq)]
pub(crate) struct Candidate {
    point: usize,
    /// Among the settings that are left.
    number: usize,
    /// Its place among the protocols.
    pub choice: u32,
}

/// What a test says of a candidate.
#[derive(Clone, Copy, PartialEq, Eq)]
pub(crate) enum Verdict {
    /// A list that begins with it costs too much, by what was shifted.
    Refuted,
    /// Nothing of that kind was found.
    Open,
}

/// The state of sweeps that go by a prefix.
#[derive(Drop)]
pub(crate) struct Walker {
    climb: Climb,
    /// What shifts came to at the last refutation.
    lifting: Lifting,
    /// By point: where it stands in the prefix.
    fixed: Vec<Option<usize>>,
    /// The number of the next candidate of the slot, among the settings that are left.
    next: usize,
    /// In steps. Lists that cost more are not looked for.
    most: i64,
    /// What it takes to show that a candidate is refuted.
    showing: u64,
    /// How often it went back.
    backs: u32,
    /// The farthest point at which a candidate was tested, and how many were refuted since it got there.
    farthest: usize,
    idle: u32,
    /// Whether the bound of the last sweep still holds: no point costs less at a setting at which it may be than when it was visited.
    is_settled: bool,
    /// The candidates of the slot before that number were refuted together, or passed over before.
    refuted: usize,
    /// Whether what the shifts came to is written down for all of these.
    is_written: bool,
}

impl Walker {
    /// At the empty prefix, where lists that cost more parts are not looked for.
    pub fn of(mut climb: Climb, alloc: Global, most: i64) -> Result<Walker, AllocError> {
        let most = most.wrapping_shr(climb.tables.bits);
        if climb.witness.cost > most {
            climb.witness = Witness::none(alloc);
        }
        let fixed = vec![in alloc; None; climb.layout.order.points.len()]?;
        let showing = climb.work_of_shifts().saturating_mul(SHOWING);
        let lifting = climb.lifting(alloc)?;
        let mut walker = Walker {
            climb,
            lifting,
            fixed,
            next: 0,
            most,
            showing,
            backs: 0,
            farthest: 0,
            idle: 0,
            is_settled: true,
            refuted: 0,
            is_written: false,
        };
        walker.sweep(true);
        walker.sweep(false);
        Ok(walker)
    }

    /// The next candidate of a slot, if one is left, and work may still be done to test it.
    pub(crate) fn candidate(&self, slot: u32) -> Option<Candidate> {
        if self.is_over() {
            return None;
        }
        let point = self.climb.layout.order.rank(slot);
        let setting = self.climb.layout.settings_of(point).get(self.next)?;
        Some(Candidate {
            point,
            number: self.next,
            choice: u32::try_from(*setting).ok()?,
        })
    }

    /// Whether so much was computed, or so many candidates refuted without getting farther, that the walk ends.
    fn is_over(&self) -> bool {
        self.climb.state.work() >= WORK || self.idle >= IDLE
    }

    /// Writes down what the shifts come to by the prefix with a candidate that is refuted; once for all that are refuted together.
    pub(crate) fn lift(&mut self, arcs: &[ArcTable], candidate: Candidate) {
        if candidate.number >= self.refuted {
            self.write(arcs);
        } else if !self.is_written {
            let point = candidate.point;
            self.raise_outside(candidate, PENALTY);
            self.visit(point);
            self.write(arcs);
            self.raise_outside(candidate, 0i32.saturating_sub(PENALTY));
            self.visit(point);
            self.is_written = true;
        }
    }

    /// Writes down what the shifts come to.
    fn write(&mut self, arcs: &[ArcTable]) {
        self.climb
            .lift(arcs, self.fixed.as_slice(), &mut self.lifting);
    }

    /// What the shifts came to when it was written down last.
    pub(crate) fn nets(&self) -> &Nets {
        &self.lifting.nets
    }

    /// Tests whether each list that goes on with the candidate costs too much. It is fixed, but where that is shown of it together
    /// with others.
    pub(crate) fn test(
        &mut self,
        alloc: Global,
        candidate: Candidate,
    ) -> Result<Verdict, AllocError> {
        if candidate.point > self.farthest {
            self.farthest = candidate.point;
            self.idle = 0;
        }
        if self.is_refuted(candidate) {
            return Ok(Verdict::Refuted);
        }
        self.raise_others(candidate, PENALTY);
        self.fix(candidate.point, Some(candidate.number));
        if self.climb.witness.has(candidate.point, candidate.number) {
            return Ok(Verdict::Open);
        }
        self.is_settled = false;
        let verdict = self.test_by_sweeps(alloc)?;
        self.is_settled = verdict == Verdict::Open;
        Ok(verdict)
    }

    /// Whether the candidate is refuted at once, alone or together with those behind it.
    fn is_refuted(&mut self, candidate: Candidate) -> bool {
        if candidate.number >= self.refuted && self.is_settled {
            self.refuted = self.end_of_refuted(candidate);
            self.is_written = false;
        }
        candidate.number < self.refuted
    }

    /// The number behind those, from the candidate on, of which the last sweep shows alone that each list that goes on with one of
    /// them costs too much.
    fn end_of_refuted(&self, candidate: Candidate) -> usize {
        let climb = &self.climb;
        let bound = climb.state.bound();
        let mut end = candidate.number;
        for _ in climb.layout.settings_of(candidate.point) {
            let rise = climb.state.rise(&climb.tables, candidate.point, end);
            if end >= self.count_of(candidate.point) || bound.saturating_add(rise) <= self.most {
                break;
            }
            end = end.saturating_add(1);
        }
        end
    }

    /// How many settings of a point are left.
    fn count_of(&self, point: usize) -> usize {
        self.climb.layout.settings_of(point).len()
    }

    /// The same by sweeps, where the candidate is fixed already.
    fn test_by_sweeps(&mut self, alloc: Global) -> Result<Verdict, AllocError> {
        let mut before = i64::MIN;
        for round in 0..ROUNDS {
            if self.sweep(true) > self.most || self.sweep(false) > self.most {
                return Ok(Verdict::Refuted);
            }
            if reads_list(round) && self.finds_list(alloc)? {
                return Ok(Verdict::Open);
            }
            let bound = self.climb.state.bound();
            if self.is_slow(
                bound,
                bound.saturating_sub(before),
                ROUNDS.saturating_sub(round),
            ) {
                break;
            }
            before = bound;
        }
        self.climb.witness = Witness::none(alloc);
        Ok(Verdict::Open)
    }

    /// Whether a bound that rose by so much in a round will not be too great after so many rounds more.
    fn is_slow(&self, bound: i64, rise: i64, rounds: u32) -> bool {
        bound.saturating_add(rise.saturating_mul(i64::from(rounds))) <= self.most
    }

    /// Goes on to the next slot, behind a candidate that is fixed.
    pub(crate) fn go_on(&mut self) {
        self.next = 0;
        self.refuted = 0;
    }

    /// Takes back a test that refuted the candidate, and passes it over.
    pub(crate) fn take_back(&mut self, candidate: Candidate) {
        self.climb.state.count(self.showing);
        self.idle = self.idle.saturating_add(1);
        if candidate.number < self.refuted {
            self.pass_over(candidate);
        } else {
            self.release(candidate);
        }
    }

    /// Takes back the candidate that is fixed for a slot, all candidates of the one behind it having been passed over, and passes
    /// it over. Answers whether it did: not where so much was computed, or it went back so often, that the walk ends.
    pub(crate) fn go_back(&mut self, slot: u32) -> bool {
        if self.is_over() || self.backs >= BACKS {
            return false;
        }
        let point = self.climb.layout.order.rank(slot);
        let number = match self.fixed.get(point) {
            Some(Some(number)) => *number,
            _ => return false,
        };
        let candidate = Candidate {
            point,
            number,
            choice: 0,
        };
        self.backs = self.backs.saturating_add(1);
        self.is_settled = false;
        self.refuted = 0;
        let behind = self.climb.layout.order.rank(slot.saturating_add(1));
        self.open_all(behind);
        self.next = candidate.number;
        self.release(candidate);
        true
    }

    /// Takes back the candidate, and passes it over.
    fn release(&mut self, candidate: Candidate) {
        self.raise_others(candidate, 0i32.saturating_sub(PENALTY));
        self.fix(candidate.point, None);
        self.pass_over(candidate);
    }

    /// Takes back that the candidates of a point were passed over.
    fn open_all(&mut self, point: usize) {
        for number in 0..self.count_of(point) {
            self.raise(point, number, 0i32.saturating_sub(PENALTY));
        }
    }

    /// Passes a candidate over.
    pub fn pass_over(&mut self, candidate: Candidate) {
        self.raise(candidate.point, candidate.number, PENALTY);
        self.next = self.next.saturating_add(1);
    }

    /// Notes where the point stands in the prefix.
    fn fix(&mut self, point: usize, setting: Option<usize>) {
        if point < self.fixed.len() {
            self.fixed[point] = setting;
        }
    }

    /// Makes the other settings of the point cost more.
    fn raise_others(&mut self, candidate: Candidate, amount: i32) {
        for other in 0..self.count_of(candidate.point) {
            if other != candidate.number {
                self.raise(candidate.point, other, amount);
            }
        }
    }

    /// Makes the settings of the point cost more that are not refuted together with the candidate.
    fn raise_outside(&mut self, candidate: Candidate, amount: i32) {
        for other in 0..self.count_of(candidate.point) {
            if other < candidate.number || other >= self.refuted {
                self.raise(candidate.point, other, amount);
            }
        }
    }

    /// Makes a setting of a point cost more.
    fn raise(&mut self, point: usize, number: usize, amount: i32) {
        self.climb.tables.raise(point, number, amount);
        self.climb.state.wake(point);
    }

    /// Visits a point as the last sweep did. Answers the bound then.
    fn visit(&mut self, point: usize) -> i64 {
        let climb = &mut self.climb;
        climb
            .state
            .visit(&climb.tables, &climb.layout.network, point);
        climb.state.bound()
    }

    /// A sweep. Answers the bound behind it.
    fn sweep(&mut self, forward: bool) -> i64 {
        let climb = &mut self.climb;
        climb
            .state
            .sweep(&climb.tables, &climb.layout.network, forward);
        climb.state.bound()
    }

    /// Reads off a list that goes by the shifts. Answers whether it costs little enough; then it is kept.
    fn finds_list(&mut self, alloc: Global) -> Result<bool, AllocError> {
        let climb = &mut self.climb;
        let fixed = self.fixed.as_slice();
        let list = climb
            .state
            .decoded(alloc, &climb.tables, &climb.layout.network, fixed)?;
        if list.cost > self.most {
            return Ok(false);
        }
        climb.witness = list;
        Ok(true)
    }
}

/// Whether a list is read off behind that round of a test, which takes about as long as a round: behind the first two, and behind
/// each second one then.
fn reads_list(round: u32) -> bool {
    round < 2 || round % 2 == 1
}
