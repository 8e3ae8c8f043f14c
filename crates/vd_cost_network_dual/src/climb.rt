//! How a climb goes: how far, which points its sweeps visit, behind which of them lists are read off, and what it keeps.

use crate::network::Network;
use crate::sweeps::State;
use crate::tables::Tables;

/// How far a climb goes, and what it does on the way.
#[derive(Clone, Copy, PartialEq, Eq)]
pub struct Limits {
    /// So many sweeps are made at most.
    pub sweeps: u32,
    /// The sweeps end when so much was computed.
    pub work: u64,
    /// They end after so many in which the bound did not rise.
    pub patience: u32,
    /// Whether each sweep visits all points, and not only those that wait for it.
    pub visits_all: bool,
    /// A list is read off once in so many sweeps and one more; a power of two less one.
    pub pause: u32,
    /// Whether that is behind a sweep forward, and not behind one backward.
    pub reads_forward: bool,
    /// The sweeps end where a list costs less than so many parts more than the bound, or no more than that.
    pub gap: i64,
    /// From so much that was computed on, they also end where the cheapest list costs more than the bound and its half.
    pub far_from: u64,
}

impl Limits {
    /// Whether a list is read off behind the sweep with that number, which went that way.
    pub(crate) fn reads(self, turn: u32, forward: bool) -> bool {
        forward == self.reads_forward && turn & self.pause >= self.pause.saturating_sub(1)
    }

    /// From which bound on the sweeps end, where a list of that cost is known, in steps of so many bits more than a part.
    pub(crate) fn aim(self, cost: i64, bits: u32) -> i64 {
        let gap = self.gap.wrapping_shr(bits).max(1);
        cost.saturating_sub(gap).saturating_add(1)
    }

    /// Whether the sweeps end since the cheapest list costs so much and the bound is that, where so much was computed. Nothing is far
    /// as long as no list is known.
    pub(crate) fn is_far(self, work: u64, cost: i64, bound: i64) -> bool {
        work >= self.far_from
            && cost < i64::MAX
            && cost > bound.saturating_add(bound.wrapping_shr(1))
    }
}

/// What a climb keeps of the amounts that its sweeps came to.
pub trait Observer {
    /// Takes note of a sweep before which no bound was greater.
    fn observe(&mut self, state: &State, tables: &Tables, network: &Network);
}

/// Nothing but what the state has behind the last sweep.
#[derive(Clone, Copy, PartialEq, Eq)]
pub struct NoObserver;

impl Observer for NoObserver {
    fn observe(&mut self, _state: &State, _tables: &Tables, _network: &Network) {}
}
