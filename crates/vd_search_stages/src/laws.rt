//! What is true of every problem. The functions here do nothing: the contract of each is a law.

ghost use Rattle.vd_search_stages.specs.Choices.{ChoiceOutcomes, HasOneChoice};
ghost use Rattle.vd_search_stages.specs.SoFar.{AgreeAtWholeLists, AgreeWhereFull, NoneWhereBare};
ghost use Rattle.vd_space.specs.declared.problem.Problem.{Problem as Problems};

/// Each problem has one choice or none at all, and there is a function that gives it.
pub fn problems_have_one_choice()
    ensures one { (problem : Problems) → HasOneChoice problem }
    ensures function { ChoiceOutcomes }
{}

/// Validity by what a prefix decides is validity where each slot has a candidate, and at whole lists always. Where some slot has
/// none, no list is valid.
pub fn validities_agree()
    ensures full { (problem : Problems) → AgreeWhereFull problem }
    ensures whole { (problem : Problems) → AgreeAtWholeLists problem }
    ensures bare { (problem : Problems) → NoneWhereBare problem }
{}
