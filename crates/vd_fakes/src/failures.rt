ghost use Rattle.std.specs.Prelude.{◌≡◌, ◌≤◌, []};
ghost use Rattle.vd_outside.specs.Causes.{Rose};
ghost use Rattle.vd_fakes.specs.Failing.{is_listed, one_more};

use vd_base::Items;

/// Which calls of an object in memory fail, by their numbers from 0; how many were made, and how many failed.
#[derive(Drop)]
pub struct Failures {
    pub failing: Items<u64>,
    pub calls: u64,
    pub faults: u64,
}

impl Failures {
    /// None of these calls was made so far.
    pub fn new(failing: Items<u64>) -> Failures
        ensures { result ≡ record { failing = failing; calls = 0; faults = 0 } }
    {
        Failures {
            failing,
            calls: 0,
            faults: 0,
        }
    }

    /// Counts a call, and says whether it is one that fails.
    pub(crate) fn next_fails(&mut self) -> bool
        ensures listed { result ≡ is_listed self.old.failing self.old.calls }
        ensures counted { self.new ≡ record self.old { calls = one_more self.old.calls } }
    {
        let number = self.calls;
        self.calls = number.saturating_add(1);
        self.failing.contains(&number)
    }

    /// Counts a fault.
    pub(crate) fn count_fault(&mut self)
        ensures rose { Rose self.old.faults self.new.faults }
        ensures later { self.old.faults ≤ self.new.faults }
        ensures counted { self.new ≡ record self.old { faults = one_more self.old.faults } }
    {
        self.faults = self.faults.saturating_add(1);
    }
}
