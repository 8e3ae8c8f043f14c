//! What is true of every problem. The functions here do nothing: the contract of each is a law.

ghost use Rattle.std.specs.Prelude.{List, ◌<◌, length};
ghost use Rattle.vd_constraints.specs.declared.labels.Labels.{Labels as Labellings};
ghost use Rattle.vd_core.specs.Facts.{IsWellMade};
ghost use Rattle.vd_core.specs.declared.normal.NormalForm.{NormalForm as Programs};
ghost use Rattle.vd_space.specs.Network.{by_arcs, network_high, network_tree, units};
ghost use Rattle.vd_space.specs.Arcs.{arcs};
ghost use Rattle.vd_search_tree.specs.Trees.{IsBounded};
ghost use Rattle.vd_search_tree.specs.declared.shift.Shift.{Shift as Shifts};
ghost use Rattle.vd_space.specs.Labelled.{IsLabelled};
ghost use Rattle.vd_space.specs.Laws.{EndsInCost, IsBelowCosts};
ghost use Rattle.vd_space.specs.Reading.{problem_of};
ghost use Rattle.vd_space.specs.Spaces.{IsProblem};
ghost use Rattle.vd_space.specs.declared.problem.Problem.{Problem as Problems};

/// The bound by arcs of a prefix is at most the cost of every valid list that it begins, whatever the shifts are.
pub fn network_bounds_are_below_costs()
    ensures by_arcs { (problem : Problems) → IsProblem problem → (shifts : List Shifts) →
        IsBelowCosts problem (λ prefix. units (by_arcs problem shifts prefix)) }
    ensures high { (problem : Problems) → IsProblem problem → (shifts : List Shifts) → IsBelowCosts problem (network_high problem shifts) }
{}

/// At a whole valid list it is the cost, so no shift of an arc changes a cost.
pub fn network_bounds_end_in_costs()
    ensures by_arcs { (problem : Problems) → IsProblem problem → (shifts : List Shifts) →
        EndsInCost problem (λ prefix. units (by_arcs problem shifts prefix)) }
    ensures high { (problem : Problems) → IsProblem problem → (shifts : List Shifts) → EndsInCost problem (network_high problem shifts) }
{}

/// So the lists of a problem can be searched by these bounds, and a certificate over them shows what it says.
pub fn network_trees_are_bounded()
    ensures { (problem : Problems) → IsProblem problem → (shifts : List Shifts) → IsBounded (network_tree problem shifts) }
{}

/// The arcs of a program's problem are few enough that a number of 32 bits tells each.
pub fn programs_have_few_arcs()
    ensures { (p : Programs) (l : Labellings) → IsWellMade p → IsLabelled (problem_of p l) → length (arcs (problem_of p l)) < 4294967296 }
{}
