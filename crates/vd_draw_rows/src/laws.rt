//! What is true of the rows of every program. The function here does nothing: its contract is a law.

ghost use Rattle.vd_draw_rows.specs.Costs.{CostsAddUp};

/// The costs of the rows of a program at a valid assignment of protocols add up to what it costs.
pub fn costs_add_up()
    ensures { CostsAddUp }
{}
