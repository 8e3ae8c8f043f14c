//! What deals of the sizes that are read off are enough for, as laws.

ghost use Rattle.vd_deal_needs.specs.Enough.{DealsHaveTheirSizes, SizesAreEnough, SizesAreLeast};

/// On inputs and a consistent deal of the sizes that are read off the hosts' codes no host is ever short, and each schedule that
/// leaves no host able to step leads to the end of all: for all inputs and items.
pub fn sizes_are_enough()
    ensures { SizesAreEnough }
{}

/// Where no branch takes differently, no smaller deal suffices, whatever inputs and items are.
pub fn sizes_are_least()
    ensures { SizesAreLeast }
{}

/// The deal that is made of some sizes has them, whatever the key is.
pub fn deals_have_their_sizes()
    ensures { DealsHaveTheirSizes }
{}
