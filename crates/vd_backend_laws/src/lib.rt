//! The back ends together, as the theory of splitting asks for them. Nothing is computed here: each function's clauses are laws.
#![tactic(auto)]

ghost use Rattle.vd_backend_laws.specs.Moves.{MovesKeepTheWord};
ghost use Rattle.vd_backend_laws.specs.Given.{ListedProtocolsAreOver, ZeroDealsAreValid};
ghost use Rattle.vd_backend_laws.specs.Law.{SuiteMeetsItsLaws};
ghost use Rattle.vd_backend_laws.specs.PlanRuns.{RunsAlike, GoesSmoothly, TidyAlike};
ghost use Rattle.vd_backend_laws.specs.Whole.{CodeTellsTheSame, CodeRunsWell, LoopsAreNeeded};

/// A move that is composed of the calls of two back ends gives parts that stand for the same word.
pub fn moves_keep_the_word()
    ensures { MovesKeepTheWord }
{}

/// A tidy plan of gadgets runs as its joint code does, and smoothly where it goes well. A plan that is tidy for the theory of
/// splitting is tidy for the schedules.
pub fn plans_run_as_their_code()
    ensures runs { RunsAlike }
    ensures smooth { GoesSmoothly }
    ensures tidy { TidyAlike }
{}

/// The calls of all protocols do what the theory of splitting asks of them: those of the back ends, those that no back end has, and
/// commitments, which are made from a word in clear and revealed to one host or to both.
pub fn suite_meets_its_laws()
    ensures { SuiteMeetsItsLaws }
{}

/// The joint code of every well-made program, at protocols at which it is valid, with all inputs and every valid deal, prints at
/// each declared host the program's outputs to it. No comparison fails, guards agree, it is tidy, and only declared hosts have code:
/// so on lists that are read as followed by zeros all that holds of every schedule holds of it. A host has a loop exactly where it
/// has an instruction of its body: all that have one take part, since it is tidy, and no other does.
pub fn code_tells_the_same()
    ensures tells { CodeTellsTheSame }
    ensures runs_well { CodeRunsWell }
    ensures loops { LoopsAreNeeded }
{}

/// The protocols over some hosts have their hosts among these, and a deal of zeros with any inputs is valid.
pub fn protocols_and_deals()
    ensures protocols { ListedProtocolsAreOver }
    ensures deals { ZeroDealsAreValid }
{}

mod backend_openings;

pub use backend_openings::{
    only_what_is_shown_is_told, so_many_words_are_sent, what_differs_is_found,
};
