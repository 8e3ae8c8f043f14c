//! The command `choose`.

ghost use Rattle.std.specs.Prelude.{◌≡◌, ◌≤◌, [], ◌∷◌, IfOk};
ghost use Rattle.vd_base.specs.Limits.{most_search_budget};
ghost use Rattle.vd_search_tree.specs.Texts.{text_of};
ghost use Rattle.vd_constraints.specs.Rules.{system_of};
ghost use Rattle.vd_constraints.specs.Satisfies.{IsLeast};
ghost use Rattle.vd_cmd_plan.specs.Plans.{Computes};
ghost use Rattle.vd_cmd_choice.specs.Choice.{chosen_of};
ghost use Rattle.vd_cmd_choose.specs.Choosing.{ExecutesChoose, certificate_file, chosen_answer};

use std::alloc::{AllocError, Global};
use vd_base::{Bytes, Items, Text};
use vd_cmd_choice::{Choice, assignment_text, choice_of, load_source_program};
use vd_cmd_plan::{Answer, Labelled, Status};
use vd_outside::{Files, Stored};
use vd_search_tree::Certificate;

/// The file in which a certificate is stored.
fn certificate_files(
    alloc: Global,
    source: &str,
    certificate: &Certificate,
) -> Result<Items<Stored>, AllocError>
    ensures { IfOk result (λ files. files ≡ certificate_file source.now (text_of certificate.now) ∷ []) }
{
    let name = format!(in alloc; "{source}.cert")?;
    let name = Text::copy_of(alloc, name.as_str())?;
    let content = certificate.write(alloc)?;
    let mut files = Items::new(alloc);
    files.push(Stored { name, content })?;
    Ok(files)
}

/// Stores the certificate, and prints the choice, if there is one.
fn answer_choice(alloc: Global, source: &str, choice: Choice) -> Result<Answer, Status>
    requires { IsLeast (system_of choice.program) choice.labels }
    ensures { Computes (chosen_answer source.now (chosen_of choice)) result }
{
    let stores = certificate_files(alloc, source, &choice.certificate)?;
    match &choice.assignment {
        Some(assignment) => {
            let printed = assignment_text(alloc, &choice.program, assignment)?;
            Ok(Answer {
                status: Status::Ended,
                stores,
                printed,
            })
        }
        None => Ok(Answer {
            status: Status::NoAssignment(Labelled::new(choice.program, choice.labels)),
            stores,
            printed: Bytes::new(alloc),
        }),
    }
}

/// The command `choose`: the choice of protocols for a source, found with a search of at most so many prefixes.
pub fn choose<F: Files>(
    alloc: Global,
    files: &mut F,
    source: &str,
    budget: u32,
) -> Result<Answer, Status>
    requires { budget ≤ most_search_budget }
    ensures { ExecutesChoose source.now budget (F.view files.old) (F.view files.new) result }
{
    let loaded = load_source_program(alloc, files, source)?;
    let choice = choice_of(alloc, loaded.program, budget)?;
    answer_choice(alloc, source, choice)
}
