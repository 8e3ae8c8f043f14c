//! What is true of every problem. The functions here do nothing: the contract of each is a law.

ghost use Rattle.std.specs.Prelude.{◌≡◌, List, length, ℕ};
ghost use Rattle.vd_search_tree.specs.Trees.{IsBounded};
ghost use Rattle.vd_space.specs.Bounds.{high, low};
ghost use Rattle.vd_space.specs.Growth.{OneByPlace, PairByPlace};
ghost use Rattle.vd_space.specs.Costs.{One, Pair};
ghost use Rattle.vd_core.specs.Facts.{IsWellMade};
ghost use Rattle.vd_core.specs.declared.normal.NormalForm.{NormalForm as Programs};
ghost use Rattle.vd_constraints.specs.declared.labels.Labels.{Labels as Labellings};
ghost use Rattle.vd_space.specs.Labelled.{HasLabels, IsLabelled, NamesOwnSlots};
ghost use Rattle.vd_space.specs.Reading.{problem_of};
ghost use Rattle.vd_space.specs.Laws.{EndsInCost, IsBelowCosts, SumGrows, ValidGrows};
ghost use Rattle.vd_space.specs.Sizes.{IsWithinLimits};
ghost use Rattle.vd_space.specs.Spaces.{IsProblem, tree_of};
ghost use Rattle.vd_space.specs.declared.problem.Problem.{Problem as Problems};
ghost use Rattle.vd_search_tree.specs.declared.shift.Shift.{Shift as Shifts};

/// A bound of a prefix is at most the cost of every valid list that it begins, whatever the shifts are.
pub fn bounds_are_below_costs()
    ensures low { (problem : Problems) → IsProblem problem → IsBelowCosts problem (low problem) }
    ensures high { (problem : Problems) → IsProblem problem → (shifts : List Shifts) → IsBelowCosts problem (high problem shifts) }
{}

/// At a whole valid list each bound is the cost, so no shift changes a cost.
pub fn bounds_end_in_costs()
    ensures low { (problem : Problems) → IsProblem problem → EndsInCost problem (low problem) }
    ensures high { (problem : Problems) → IsProblem problem → (shifts : List Shifts) → EndsInCost problem (high problem shifts) }
{}

/// So the lists of a problem can be searched by these bounds.
pub fn problems_are_bounded()
    ensures { (problem : Problems) → IsProblem problem → (shifts : List Shifts) → IsBounded (tree_of problem shifts) }
{}

/// One choice more changes only the tests and terms that name the slot which it decides.
pub fn prefixes_grow()
    ensures valid { (problem : Problems) → ValidGrows problem }
    ensures sum { (problem : Problems) (ones : List One) (pairs : List Pair) → SumGrows problem ones pairs }
{}

/// Under a prefix a term is one of few numbers, by which of its slots are decided: what the tables of a search hold.
pub fn terms_go_by_place()
    ensures one { (problem : Problems) (prefix : List ℕ) (one : One) → OneByPlace problem prefix one }
    ensures pair { (problem : Problems) (prefix : List ℕ) (pair : Pair) → PairByPlace problem prefix pair }
{}

/// The problem of a program has the program's slots, names no others, has labels that can be compared, and is small: the
/// cost of a whole valid list is a number of 32 bits.
pub fn programs_have_problems()
    ensures slots { (p : Programs) (l : Labellings) → IsWellMade p → length (problem_of p l).slots ≡ length p.slots }
    ensures named { (p : Programs) (l : Labellings) → IsWellMade p → NamesOwnSlots (problem_of p l) }
    ensures labelled { (p : Programs) (l : Labellings) → IsWellMade p → HasLabels p l → IsLabelled (problem_of p l) }
    ensures limits { (p : Programs) (l : Labellings) → IsWellMade p → IsWithinLimits (problem_of p l) }
    ensures problem { (p : Programs) (l : Labellings) → IsWellMade p → IsProblem (problem_of p l) }
{}
