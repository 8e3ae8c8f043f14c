//! Which files the command accepts. Nothing is computed.

ghost use Rattle.vd_cmd_replay.specs.Accepting.{HardBudgetsAreEnough};

use vd_space::firm_is_at_most_hard;

/// Files are accepted where the budget is no less than the number of valid prefixes whose first bound is at most the least cost.
pub fn hard_budgets_are_enough()
    ensures { HardBudgetsAreEnough }
{
    firm_is_at_most_hard();
}
