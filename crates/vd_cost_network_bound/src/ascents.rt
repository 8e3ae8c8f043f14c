//! What finds the shifts under which bounds are great. Each ascent does so in its own way; a search goes by any.

ghost use Rattle.std.specs.Prelude.{◌≡◌, ℕ, Option, List, ◌≤◌, IfOk, IfSome, length, option_map};
ghost use Rattle.std.specs.List.{All};
ghost use Rattle.vd_cost_network_prefix.specs.Tables.{AreNetworkTables};
ghost use Rattle.vd_search_tree.specs.declared.shift.Shift.{Shift as Shifts};
ghost use Rattle.vd_cost_network_bound.specs.Ascents.{IsBeyond};
ghost use Rattle.vd_space.specs.Labelled.{IsLabelled};
ghost use Rattle.vd_space.specs.Shifts.{AreArcShifts, AreUseShifts};
ghost use Rattle.vd_space.specs.Sizes.{IsWithinLimits};
ghost use Rattle.vd_space.specs.declared.problem.Problem.{Problem as Problems};

use std::alloc::{AllocError, Global};
use vd_base::Items;
use vd_cost_network_prefix::{NetworkPath, NetworkTables};
use vd_search_tree::Shift;
use vd_space::Problem;

/// An ascent over the arcs of a problem, and the shifts that it came to.
#[derive(Drop)]
pub struct ArcAscent<T> {
    pub ascent: T,
    pub shifts: Items<Shift>,
}

/// What finds shifts under which the bounds of a problem are greater than under most others. A search goes by what it answers,
/// whatever that is.
pub trait Ascents {
    /// An ascent over the arcs of a problem, from which a walk goes on.
    type Ascent: Drop;

    /// Over the uses of a problem it comes to these shifts, or to none.
    ghost uses_give: { Self → Problems → Option (List Shifts) → Type 0 };

    /// Over the arcs of a problem it comes to these shifts, or to none.
    ghost arcs_give: { Self → Problems → Option (List Shifts) → Type 0 };

    /// A walk to lists that cost at most so much passes over these prefixes, or comes to no whole list.
    ghost walks_give: { Self → Problems → ℕ → Option (List (List ℕ)) → Type 0 };

    /// The shifts of uses.
    fn over_uses(
        &self,
        alloc: Global,
        problem: &Problem,
    ) -> Result<Option<Items<Shift>>, AllocError>
        requires labelled { IsLabelled problem.now }
        requires limits { IsWithinLimits problem.now }
        ensures gives { IfOk result (uses_give self.now problem.now) }
        ensures shifts { IfOk result (λ found. IfSome found (AreUseShifts problem.now)) };

    /// The shifts of arcs, by the tables without shifts. An answer has at least one.
    fn over_arcs(
        &self,
        alloc: Global,
        problem: &Problem,
        without: &NetworkTables,
    ) -> Result<Option<ArcAscent<Self::Ascent>>, AllocError>
        requires { AreNetworkTables problem.now without.now }
        ensures gives { IfOk result (λ found. arcs_give self.now problem.now (option_map (λ a. a.shifts) found)) }
        ensures shifts { IfOk result (λ found. IfSome found (λ a. AreArcShifts problem.now a.shifts)) }
        ensures some { IfOk result (λ found. IfSome found (λ a. 1 ≤ length a.shifts)) };

    /// The prefixes that a walk to lists that cost at most so much passes over, behind an ascent over arcs and from the empty
    /// prefix on; none where it comes to no whole list. Each list that one of them begins costs more.
    fn over_prefixes(
        &self,
        alloc: Global,
        problem: &Problem,
        without: &NetworkTables,
        path: NetworkPath,
        ascent: Self::Ascent,
        most: u32,
    ) -> Result<Option<Items<Items<u32>>>, AllocError>
        requires without { AreNetworkTables problem.now without.now }
        requires path { path.problem.now ≡ problem.now }
        ensures gives { IfOk result (walks_give self.now problem.now most) }
        ensures beyond { IfOk result (λ found. IfSome found (All (IsBeyond problem.now most))) };
}
