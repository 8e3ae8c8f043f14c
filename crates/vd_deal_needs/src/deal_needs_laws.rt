//! How many dealt items and inputs joint code takes, read off its text: enough for every run, and where no branch takes differently
//! exactly what each run takes. Nothing is computed here: each function's clauses are laws.

ghost use Rattle.vd_deal_needs.specs.DealNeedsLawsNeeds.{AllEnd, NeedsAreEnough, NeedsAreEnoughAlone, NeedsAreExact, NeedsAreLeast, NeedsAreReadOff, NobodyIsShort};

/// Lists of the lengths that are read off joint code suffice, whatever inputs and items are. So under no schedule is a host ever short,
/// and each schedule that leaves no host able to step leads to the end of the joint run.
pub fn needs_are_enough()
    ensures suffices { NeedsAreEnough }
    ensures nobody_short { NobodyIsShort }
    ensures all_end { AllEnd }
{}

/// Joint code of which no branch takes differently takes exactly these lengths in each run, so no shorter lists suffice.
pub fn needs_are_least()
    ensures exact { NeedsAreExact }
    ensures least { NeedsAreLeast }
{}

/// What a host takes is read off its own code too, by the same rules.
pub fn needs_are_read_off()
    ensures { NeedsAreReadOff }
{}

/// What is read off a host's own code is enough for it alone: whatever words its peers send, it never takes more from a list.
pub fn needs_are_enough_alone()
    ensures { NeedsAreEnoughAlone }
{}
