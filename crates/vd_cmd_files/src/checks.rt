//! What is looked at before a program is run.

ghost use Rattle.std.specs.Prelude.{OnOk};
ghost use Rattle.vd_tape.specs.Validity.{AreDeals, IsConsistent};
ghost use Rattle.vd_cmd_plan.specs.Plans.{Checks};
ghost use Rattle.vd_cmd_files.specs.Outcomes.{ReplayOutcomes};
ghost use Rattle.vd_cmd_files.specs.Deals.{as_consistent};

use vd_cmd_plan::Status;
use vd_tape::{Deals, consistent};

/// Refuses deals with an item that breaks its identity.
pub fn expect_consistent(deals: &Deals) -> Result<(), Status>
    requires { AreDeals deals.now }
    ensures checks { (outcomes : ReplayOutcomes) → Checks (as_consistent (outcomes.judge deals.now)) result }
    ensures consistent { OnOk result (IsConsistent deals.now) }
{
    match consistent(deals) {
        Ok(()) => Ok(()),
        Err(bad) => Err(Status::BadDeal(bad)),
    }
}
