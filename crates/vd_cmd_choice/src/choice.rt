//! The choice of protocols for a program.

ghost use Rattle.std.specs.Prelude.{◌≡◌, ◌≤◌, IfOk};
ghost use Rattle.vd_base.specs.Limits.{most_search_budget};
ghost use Rattle.vd_constraints.specs.Rules.{system_of};
ghost use Rattle.vd_constraints.specs.Satisfies.{IsLeast};
ghost use Rattle.vd_cmd_plan.specs.Labelled.{labelled_form};
ghost use Rattle.vd_cmd_choice.specs.Choice.{Chooses, IsChoiceFor, Searches, no_list, printed_at};

use std::alloc::{AllocError, Global};
use vd_base::{Bytes, Items};
use vd_cmd_labels::least_labels;
use vd_cmd_plan::{Answer, Labelled, Status};
use vd_constraints::Labels;
use vd_core::Program;
use vd_cost_network_ascent::Sweeps;
use vd_report::choice_text;
use vd_search::SearchFault;
use vd_search_stages::{Assignment, select};
use vd_search_tree::Certificate;
use vd_space_api::Space;

/// What the search for protocols came to.
#[derive(Drop)]
pub struct Choice {
    /// The program.
    pub program: Program,
    /// The least labels of its slots.
    pub labels: Labels,
    /// The choice, if an assignment is valid.
    pub assignment: Option<Assignment>,
    /// The checker accepts it.
    pub certificate: Certificate,
}

/// A source that was fetched, and the choice for the program that is run for it.
#[derive(Drop)]
pub struct ChosenSource {
    pub text: Bytes,
    pub choice: Choice,
}

/// The choice for a program under its least labels.
fn choice_under(
    alloc: Global,
    program: Program,
    labels: Labels,
    budget: u32,
) -> Result<Choice, Status>
    requires budget { budget ≤ most_search_budget }
    requires least { IsLeast (system_of program) labels }
    ensures searches { Searches program labels budget result }
    ensures found { IfOk result (IsChoiceFor program) }
{
    let space = Space::of(alloc, &program, &labels)?;
    match select(alloc, &Sweeps, space.problem(), budget) {
        Ok(optimum) => Ok(Choice {
            program,
            labels,
            assignment: optimum.assignment,
            certificate: optimum.certificate,
        }),
        Err(SearchFault::Spent) => Err(Status::Spent(budget, Labelled::new(program, labels))),
        Err(SearchFault::Memory) => Err(Status::Memory),
    }
}

/// The choice for the program that is run for a source, found with a search of at most so many prefixes. What a command needs of a
/// choice, it has from here.
pub fn choice_of(alloc: Global, program: Program, budget: u32) -> Result<Choice, Status>
    requires { budget ≤ most_search_budget }
    ensures chooses { Chooses program budget result }
    ensures found { IfOk result (IsChoiceFor program) }
{
    let labels = least_labels(alloc, &program)?;
    choice_under(alloc, program, labels, budget)
}

/// The lines of an assignment: a protocol for each slot, and the cost.
pub fn assignment_text(
    alloc: Global,
    program: &Program,
    assignment: &Assignment,
) -> Result<Bytes, AllocError>
    ensures { IfOk result (λ text. text ≡ printed_at program.now assignment.now) }
{
    let protocols = assignment.protocols.as_slice();
    choice_text(alloc, program, protocols, u64::from(assignment.cost))
}

/// The answer where no assignment is valid for a program under its least labels.
pub fn no_assignment(alloc: Global, program: Program, labels: Labels) -> Answer
    requires { IsLeast (system_of program) labels }
    ensures { result ≡ no_list (labelled_form program labels) }
{
    Answer {
        status: Status::NoAssignment(Labelled::new(program, labels)),
        stores: Items::new(alloc),
        printed: Bytes::new(alloc),
    }
}
