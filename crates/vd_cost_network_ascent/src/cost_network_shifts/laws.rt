//! What is true of all amounts. The functions here do nothing: the contract of each is a law.

ghost use Rattle.std.specs.Prelude.{◌≡◌, ℕ, ◌<◌, ◌+ℤ◌};
ghost use Rattle.vd_cost_network_ascent.specs.Shifts.{amount_in, shifts_by};
ghost use Rattle.vd_cost_network_dual.specs.declared.nets.Nets.{Nets as Amounts};
ghost use Rattle.vd_space.specs.Bounds.{use_shift};
ghost use Rattle.vd_space.specs.Costs.{total};

/// The shifts that come to amounts take from each arc, at settings of its two points, the amounts at its first end and at its
/// second together.
pub fn shifts_take_the_amounts()
    ensures { (nets : Amounts) (places arcs at v w : ℕ) → at < arcs → v < places → w < places →
        total (use_shift at v w) (shifts_by nets places arcs) ≡ amount_in nets.firsts at v +ℤ amount_in nets.seconds at w }
{}
