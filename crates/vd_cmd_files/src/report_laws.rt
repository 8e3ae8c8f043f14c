//! What each deal file, each schedule and the deals of all hosts come to, and that a printed choice tells the choice. Nothing is
//! computed here: each function's clause is a law.

ghost use Rattle.vd_cmd_files.specs.Choices.{ChoiceLinesTellTheChoice};
ghost use Rattle.vd_cmd_files.specs.Outcomes.{OutcomesAreSingle, ReplayOutcomes};

/// Each deal file, each schedule file and the deals of all hosts have an outcome, so there are functions that pick it: the deal
/// or the first offset at which the bytes go on as no deal does; the schedule or the fault of the first token that cannot
/// stand; the first item that breaks its identity, or none.
pub fn outcomes_exist()
    ensures { ReplayOutcomes }
{}

/// None of them has two.
pub fn outcomes_are_single()
    ensures { OutcomesAreSingle }
{}

/// Two choices of one program that are printed alike are one: at the same protocol for each slot, and of the same cost. So what is
/// printed tells the choice.
pub fn choice_lines_tell_the_choice()
    ensures { ChoiceLinesTellTheChoice }
{}
