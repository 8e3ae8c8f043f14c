//! What a coalition is told openly in the calls of back ends, in two runs. Nothing is computed here: each function's clauses are laws.

ghost use Rattle.std.specs.Prelude.{List};
ghost use Rattle.vd_execution.specs.World.{Tape};
ghost use Rattle.vd_execution.specs.Joint.{Hosts};
ghost use Rattle.vd_execution.specs.Gadgets.{Gadget};
ghost use Rattle.vd_views.specs.Views.{Coalition};
ghost use Rattle.vd_views.specs.Sides.{AreKin, Each, IsQuiet, Telling};

/// Where nothing is told openly but own words, and those of hosts outside are the same, two runs that go side by side tell a
/// coalition the same.
pub fn quiet_gadgets_tell_the_same()
    ensures { (K : Coalition) (t y : Tape) (gs : List Gadget) (w v : Hosts) → AreKin K t y → Each IsQuiet gs → Telling K t y gs w v }
{}
