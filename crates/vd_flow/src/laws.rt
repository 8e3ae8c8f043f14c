//! What a way says. The function here does nothing: its contract is a law.

ghost use Rattle.vd_flow.specs.Ways.{WaysMakeChecksFail};

/// The rules of a way alone make its check fail, at each labelling at which they hold.
pub fn ways_make_checks_fail()
    ensures { WaysMakeChecksFail }
{}
