//! How far a climb has come: sweeps by turns, as long as the bound rises.

/// Why a climb ended.
#[derive(Clone, Copy, PartialEq, Eq)]
pub enum Ending {
    /// A list costs no more than the bound.
    Shown,
    /// The bound did not rise any more.
    Idle,
    /// The cheapest list costs too much more than the bound.
    Far,
    /// So many sweeps were made, or so much was computed.
    Cut,
}

/// The bounds of the sweeps so far.
#[derive(Clone, Copy, PartialEq, Eq)]
pub struct Progress {
    /// The greatest.
    bound: i64,
    /// So many sweeps were made since it rose.
    idle: u32,
}

impl Progress {
    /// Before the first sweep.
    pub fn none() -> Progress {
        Progress {
            bound: i64::MIN,
            idle: 0,
        }
    }

    /// Notes the bound of a sweep. Answers whether none before was greater.
    pub fn note(&mut self, reached: i64) -> bool {
        let is_greatest = reached >= self.bound;
        self.idle = if reached > self.bound {
            0
        } else {
            self.idle.saturating_add(1)
        };
        self.bound = self.bound.max(reached);
        is_greatest
    }

    /// Why a climb ends here, if it does: where a bound of so much shows that a list costs least, or after more sweeps than so many
    /// in which the bound did not rise.
    pub fn ending(&self, aim: i64, patience: u32) -> Option<Ending> {
        if self.bound >= aim {
            Some(Ending::Shown)
        } else if self.idle > patience {
            Some(Ending::Idle)
        } else {
            None
        }
    }
}
