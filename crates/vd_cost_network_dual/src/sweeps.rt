//! Sweeps over the points. Each point is told by its arcs what these cost at least from each of its settings, and gives what it
//! then has above its least to the arcs that are ahead. A sweep visits a point again only where something changed that it is
//! told, or that it costs.

use crate::climb::{Limits, Observer};
use crate::messages::Messages;
use crate::nets::{Nets, count_at, spread};
use crate::network::{End, Network};
use crate::numbers::{settings_at, small_at, small_row_at};
use crate::progress::{Ending, Progress};
use crate::splitter::{Split, Splitter, split_at, splits};
use crate::tables::Tables;
use crate::witness::Witness;
use std::alloc::{AllocError, Global};

/// To split what a point costs at a setting takes as long as to look at so many prices.
const SPLIT: u64 = 16;

/// What sweeps either way came to.
#[derive(Drop)]
pub struct State {
    forward: Messages,
    backward: Messages,
    /// Whether the last sweep went forward.
    is_forward: bool,
    splitter: Splitter,
    /// By point: how what it gives is split in sweeps forward, and in those backward.
    splits: Vec<Option<Split>>,
    splits_back: Vec<Option<Split>>,
    /// What was computed besides the sweeps.
    besides: u64,
    /// What it takes to put each point where it costs least.
    once: u64,
}

impl State {
    /// The state before any sweep, over points of at most so many settings.
    pub fn of(
        alloc: Global,
        tables: &Tables,
        network: &Network,
        most: usize,
    ) -> Result<State, AllocError> {
        Ok(State {
            forward: Messages::nothing(alloc, tables, network, true)?,
            backward: Messages::nothing(alloc, tables, network, false)?,
            is_forward: true,
            splitter: Splitter::room(alloc, most)?,
            splits: splits(alloc, network, true)?,
            splits_back: splits(alloc, network, false)?,
            besides: 0,
            once: work_of_all(tables, network),
        })
    }

    /// The state behind a sweep that way that came to these amounts by the setting, in parts, where each point was left these
    /// settings, of at most so many. Behind one forward the next sweep is the first of all.
    pub fn from_nets(
        alloc: Global,
        tables: &Tables,
        network: &Network,
        most: usize,
        settings: &[Vec<usize>],
        nets: &Nets,
        forward: bool,
    ) -> Result<State, AllocError> {
        let mut state = State::of(alloc, tables, network, most)?;
        if forward {
            state.splitter.begin_turns();
        }
        state.hold_all(tables, network, settings, nets, forward);
        Ok(state)
    }

    /// Holds these amounts at the near ends of all arcs, as a sweep that way.
    fn hold_all(
        &mut self,
        tables: &Tables,
        network: &Network,
        settings: &[Vec<usize>],
        nets: &Nets,
        forward: bool,
    ) {
        self.is_forward = forward;
        for first in &network.firsts {
            let near = if first.is_ahead(forward) {
                *first
            } else {
                first.turned()
            };
            let places = settings_at(settings, near.point);
            if forward {
                self.forward.hold_all(tables, near, nets.row(near), places);
            } else {
                self.backward.hold_all(tables, near, nets.row(near), places);
            }
        }
    }

    /// Notes that a point has other costs.
    pub fn wake(&mut self, point: usize) {
        self.forward.wake(point);
        self.backward.wake(point);
    }

    /// Lets all points wait.
    fn wake_all(&mut self, network: &Network) {
        for point in 0..network.by_point.len() {
            self.wake(point);
        }
    }

    /// What the last sweep came to.
    fn last(&self) -> &Messages {
        if self.is_forward {
            &self.forward
        } else {
            &self.backward
        }
    }

    /// No list costs less, as the last sweep shows, in steps.
    pub fn bound(&self) -> i64 {
        self.last().bound
    }

    /// By how much the bound rises at least where a point stays at a setting, as long as no other point costs less than when it was
    /// visited.
    pub fn rise(&self, tables: &Tables, point: usize, setting: usize) -> i64 {
        let cost = small_at(small_row_at(tables.costs.as_slice(), point), setting);
        let told = small_at(self.forward.incoming(point), setting);
        let told_back = small_at(self.backward.incoming(point), setting);
        let total = cost.wrapping_add(told).wrapping_add(told_back);
        i64::from(total).saturating_sub(self.last().least(point))
    }

    /// How much was computed so far, where to look at a price of an arc counts 1.
    pub fn work(&self) -> u64 {
        self.forward
            .work
            .saturating_add(self.backward.work)
            .saturating_add(self.besides)
    }

    /// Counts what is computed besides.
    pub fn count(&mut self, work: u64) {
        self.besides = self.besides.saturating_add(work);
    }

    /// What the shifts so far come to by the setting, in parts, where each point has so many and was left these of them.
    pub fn nets(
        &self,
        alloc: Global,
        tables: &Tables,
        network: &Network,
        settings: &[Vec<usize>],
        counts: &[usize],
    ) -> Result<Nets, AllocError> {
        let last = self.last();
        let mut nets = Nets {
            firsts: Vec::with_capacity(alloc, network.firsts.len())?,
            seconds: Vec::with_capacity(alloc, network.firsts.len())?,
        };
        for first in &network.firsts {
            let (on_first, on_second) = if first.is_ahead(self.is_forward) {
                (last.held(first.at), last.told(first.at))
            } else {
                (last.told(first.at), last.held(first.at))
            };
            let firsts = settings_at(settings, first.point);
            let seconds = settings_at(settings, first.other);
            let many = count_at(counts, first.point);
            nets.firsts
                .push(spread(alloc, on_first, firsts, many, tables.bits)?)?;
            let many = count_at(counts, first.other);
            nets.seconds
                .push(spread(alloc, on_second, seconds, many, tables.bits)?)?;
        }
        Ok(nets)
    }

    /// Writes into nets what the shifts so far come to by the setting, in parts, where each point was left these settings; of a
    /// point that is fixed at its setting alone.
    pub fn write_nets(
        &self,
        tables: &Tables,
        network: &Network,
        settings: &[Vec<usize>],
        fixed: &[Option<usize>],
        nets: &mut Nets,
    ) {
        let last = self.last();
        for first in &network.firsts {
            let (on_first, on_second) = if first.is_ahead(self.is_forward) {
                (last.held(first.at), last.told(first.at))
            } else {
                (last.told(first.at), last.held(first.at))
            };
            nets.put_left(*first, on_first, settings, fixed, tables.bits);
            nets.put_left(first.turned(), on_second, settings, fixed, tables.bits);
        }
    }

    /// One sweep, over the points that wait for it.
    pub fn sweep(&mut self, tables: &Tables, network: &Network, forward: bool) {
        self.is_forward = forward;
        self.splitter.turn();
        let points = network.by_point.len();
        for step in 0..points {
            let point = if forward { step } else { points - 1 - step };
            if forward {
                if self.forward.take(point) {
                    self.visit(tables, network, point);
                }
            } else if self.backward.take(point) {
                self.visit(tables, network, point);
            }
        }
    }

    /// Visits a point the way of the last sweep, again where it was visited in it. So the bound tells at once what it comes to where
    /// nothing but the costs of the point has changed.
    pub fn visit(&mut self, tables: &Tables, network: &Network, point: usize) {
        let ahead = network.ahead(point, self.is_forward);
        if self.is_forward {
            visit(
                &mut self.splitter,
                &mut self.forward,
                &mut self.backward,
                tables,
                ahead,
                split_at(self.splits.as_slice(), point),
                point,
            );
        } else {
            visit(
                &mut self.splitter,
                &mut self.backward,
                &mut self.forward,
                tables,
                ahead,
                split_at(self.splits_back.as_slice(), point),
                point,
            );
        }
    }

    /// A sweep backward over all points, in which each gives all that it has above its least to its arc to the nearest point
    /// before it.
    pub fn give_to_nearest(&mut self, tables: &Tables, network: &Network) {
        self.sweep_backward(tables, network);
        let points = network.by_point.len();
        for step in 0..points {
            let point = points - 1 - step;
            self.backward.take(point);
            send_back(
                &mut self.splitter,
                &mut self.backward,
                &mut self.forward,
                tables,
                network.of_point(point),
                point,
            );
        }
    }

    /// The list that puts each point that is not fixed, in order, where it costs least together with its arcs to the points
    /// before it, and with what those to the points behind it tell it; behind a sweep forward, with what it holds of these.
    pub fn decoded(
        &mut self,
        alloc: Global,
        tables: &Tables,
        network: &Network,
        fixed: &[Option<usize>],
    ) -> Result<Witness, AllocError> {
        self.count(self.once);
        let points = network.by_point.len();
        let mut list = Vec::with_capacity(alloc, points)?;
        let mut cost: i64 = 0;
        for point in 0..points {
            self.sum_prices(tables, network.ahead(point, false), point, list.as_slice());
            let setting = match fixed.get(point) {
                Some(Some(setting)) => *setting,
                _ => self.best_setting(network, point),
            };
            cost = cost.saturating_add(self.splitter.sum_at(setting));
            list.push(setting)?;
        }
        Ok(Witness::of(list, cost))
    }

    /// The first setting at which a point costs least, as it was summed up, and with what its arcs to the points behind it tell
    /// it; behind a sweep forward, with what it holds of these.
    fn best_setting(&mut self, network: &Network, point: usize) -> usize {
        if !self.is_forward {
            return self.splitter.best(self.backward.incoming(point));
        }
        self.splitter.begin_with_nothing();
        for end in network.ahead(point, true) {
            self.splitter.add(self.forward.held(end.at));
        }
        self.splitter.best_with_more()
    }

    /// Sums up what a point costs by its settings together with its arcs to the points before it, which stand in a list.
    fn sum_prices(&mut self, tables: &Tables, ends: &[End], point: usize, list: &[usize]) {
        self.splitter
            .begin_sums(small_row_at(tables.costs.as_slice(), point));
        for end in ends {
            if let Some(there) = list.get(end.other) {
                self.splitter
                    .sum(small_row_at(tables.rows(end.turned()), *there));
            }
        }
    }

    /// Sweeps either way by turns, until a list costs no more than the bound, or little enough more for the limits, until the bound
    /// does not rise any more, the cheapest list stays far from the bound, or a limit is reached. Answers why it ended; the cheapest
    /// list that it met is put in the place of a dearer one.
    pub fn climb<O: Observer>(
        &mut self,
        alloc: Global,
        tables: &Tables,
        network: &Network,
        limits: Limits,
        witness: &mut Witness,
        observer: &mut O,
    ) -> Result<Ending, AllocError> {
        let mut progress = Progress::none();
        for turn in 0..limits.sweeps {
            let forward = !self.is_forward;
            if limits.visits_all {
                self.wake_all(network);
            }
            self.sweep(tables, network, forward);
            if progress.note(self.bound()) {
                observer.observe(self, tables, network);
            }
            if limits.reads(turn, forward) {
                witness.take_cheaper(self.decoded(alloc, tables, network, &[])?);
            }
            let aim = limits.aim(witness.cost, tables.bits);
            if let Some(ending) = progress.ending(aim, limits.patience) {
                return Ok(ending);
            }
            if limits.is_far(self.work(), witness.cost, self.bound()) {
                return Ok(Ending::Far);
            }
            if self.work() >= limits.work {
                break;
            }
        }
        Ok(Ending::Cut)
    }

    /// A sweep backward, where the last one went forward.
    pub fn sweep_backward(&mut self, tables: &Tables, network: &Network) {
        if self.is_forward {
            self.sweep(tables, network, false);
        }
    }
}

/// What it takes to sum up what each point costs, and to read what a list costs.
fn work_of_all(tables: &Tables, network: &Network) -> u64 {
    let mut work: u64 = 0;
    for (point, costs) in tables.costs.iter().enumerate() {
        work = work.saturating_add(work_of(costs.as_slice(), network.of_point(point)));
    }
    work
}

/// What it takes to sum up what a point costs, and to split it over its arcs.
fn work_of(costs: &[i32], ends: &[End]) -> u64 {
    let arcs = ends.len() as u64;
    arcs.saturating_add(SPLIT)
        .saturating_mul(costs.len() as u64)
}

/// What a sweep does at a point, which has these ends of arcs ahead.
fn visit(
    splitter: &mut Splitter,
    here: &mut Messages,
    back: &mut Messages,
    tables: &Tables,
    ahead: &[End],
    split: Option<Split>,
    point: usize,
) {
    let costs = small_row_at(tables.costs.as_slice(), point);
    here.count(work_of(costs, ahead));
    splitter.sum_up(costs, here.incoming(point), back.incoming(point));
    let least = splitter.least();
    here.note(point, least);
    if let Some(split) = split {
        splitter.split(split, least);
        give_all(splitter, here, back, tables, ahead);
    }
}

/// Gives their shares to the arcs that are ahead.
fn give_all(
    splitter: &Splitter,
    here: &mut Messages,
    back: &mut Messages,
    tables: &Tables,
    ahead: &[End],
) {
    let Some(mut turn) = splitter.first_turn() else {
        return;
    };
    for end in ahead {
        give(splitter, here, back, tables, *end, turn);
        turn = splitter.turn_after(turn);
    }
}

/// The same, where all goes to the arc to the nearest point before it.
fn send_back(
    splitter: &mut Splitter,
    here: &mut Messages,
    back: &mut Messages,
    tables: &Tables,
    ends: &[End],
    point: usize,
) {
    let Some(nearest) = nearest_before(ends) else {
        return;
    };
    let costs = small_row_at(tables.costs.as_slice(), point);
    here.count(work_of(costs, ends));
    splitter.begin(costs);
    for end in ends {
        if end.is_ahead(false) {
            splitter.add(here.held(end.at));
        } else {
            splitter.add(here.told(end.at));
        }
    }
    let least = splitter.least();
    here.note(point, least);
    splitter.split(Split::whole(), least);
    let Some(turn) = splitter.first_turn() else {
        return;
    };
    if here.give_back(tables, nearest, splitter, turn) {
        here.wake(nearest.other);
        back.wake(nearest.other);
    }
}

/// Gives the share of a turn to the arc of an end, and wakes the other point where it is told something else by that.
fn give(
    splitter: &Splitter,
    here: &mut Messages,
    back: &mut Messages,
    tables: &Tables,
    end: End,
    turn: i32,
) {
    if here.give(tables, end, back.told(end.at), splitter, turn) {
        here.wake(end.other);
        back.wake(end.other);
    }
}

/// The end of an arc whose other point is before this one, and of these the last; the first of equals.
fn nearest_before(ends: &[End]) -> Option<End> {
    let mut nearest: Option<End> = None;
    for end in ends {
        if end.other < end.point && nearest.is_none_or(|found| found.other < end.other) {
            nearest = Some(*end);
        }
    }
    nearest
}
