//! The choice of protocols for a problem, said by validity and costs alone; nothing is computed.

ghost use Rattle.std.specs.Prelude.{[], List, map, ℕ};
ghost use Rattle.vd_base.specs.declared.protocols.Proto.{Proto as Protos};
ghost use Rattle.vd_search_tree.specs.Trees.{IsChoice};
ghost use Rattle.vd_space.specs.Spaces.{IsProblem, tree_of};
ghost use Rattle.vd_space.specs.declared.problem.Problem.{Problem as Problems};
ghost use Rattle.vd_space.specs.Validity.{protocol};
ghost use Rattle.vd_space.specs.Cheapest.{IsCheapest, IsCheapestAssignment};

/// The choice is the valid list of least cost, and the first of these in order. No bound is named.
pub fn choices_cost_least()
    ensures cheapest { (problem : Problems) (list : List ℕ) → IsProblem problem → IsChoice (tree_of problem []) list →
        IsCheapest problem list }
    ensures back { (problem : Problems) (list : List ℕ) → IsProblem problem → IsCheapest problem list → IsChoice (tree_of problem []) list }
{}

/// The cheapest valid assignment has the protocols at the places of the cheapest valid list, and no other has.
pub fn cheapest_assignments_are_cheapest_lists()
    ensures assigned { (problem : Problems) (list : List ℕ) → IsCheapest problem list →
        IsCheapestAssignment problem (map (protocol problem) list) }
    ensures back { (problem : Problems) (protocols : List Protos) → (is : IsCheapestAssignment problem protocols) →
        IsCheapest problem is.valid.places }
{}
