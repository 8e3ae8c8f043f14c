//! What is true of the plans by which programs know each other. Nothing is computed.

ghost use Rattle.vd_cmd_compile_early.specs.Plans.{PlansTell};

/// What is hashed for a plan tells what is printed of the choice of a source, and the source with one printed choice. Of sources of one
/// length it tells both; of others, one source would have to run on into what is printed for the other. Whatever sources and choices are,
/// it tells whether the programs are in program order or in an order that waits less.
pub fn plans_tell_source_choice_and_order()
    ensures { PlansTell }
{}
