//! The command `certify`.

ghost use Rattle.std.specs.Prelude.{◌≡◌, ◌<◌, ◌++◌, true, [], codes, length, IfOk};
ghost use Rattle.vd_space.specs.Arcs.{arcs};
ghost use Rattle.vd_outside.specs.Files.{FilesView};
ghost use Rattle.vd_cmd_plan.specs.Plans.{Checks, Computes, Executes, ended};
ghost use Rattle.vd_cmd_choose.specs.Certifying.{ExecutesCertified, ExecutesCertify, IsFromFile, confirmed_plan, proved_of, proved_text};

use crate::certificates::load_certificate;
use crate::spaces::least_space;
use itoa::Buffer;
use std::alloc::{AllocError, Global};
use vd_base::{Bytes, Items};
use vd_bound::Proved;
use vd_cmd_choice::load_program;
use vd_cmd_plan::{Answer, Status, check_status};
use vd_core::Program;
use vd_outside::Files;
use vd_search_stages::confirm;
use vd_search_tree::Certificate;
use vd_space_api::Space;

/// What a certificate shows of a space, or why it is not accepted.
fn confirm_space(alloc: Global, space: &Space, certificate: &Certificate) -> Result<Proved, Status>
    requires from_file { IsFromFile certificate.now }
    requires few_arcs { length (arcs space.now) < 4294967296 }
    ensures { Checks (proved_of space.now certificate.now) result }
{
    match confirm(alloc, space.problem(), certificate) {
        Ok(proved) => Ok(proved),
        Err(fault) => Err(check_status(fault)),
    }
}

/// The line of what is shown.
fn shown_text(alloc: Global, proved: &Proved) -> Result<Bytes, AllocError>
    ensures { IfOk result (λ text. text ≡ proved_text proved.now) }
{
    let mut text = Bytes::new(alloc);
    match proved {
        Proved::Least(_, cost) => {
            text.extend_from_slice(b"least ")?;
            text.extend_from_slice(Buffer::new().format(*cost).as_bytes())?;
            text.extend_from_slice(b"\n")?;
        }
        Proved::Empty => text.extend_from_slice(b"empty\n")?,
    }
    Ok(text)
}

/// Prints what is shown.
fn shown_answer(alloc: Global, proved: &Proved) -> Result<Answer, Status>
    ensures { Computes (ended [] (proved_text proved.now)) result }
{
    let printed = shown_text(alloc, proved)?;
    Ok(Answer {
        status: Status::Ended,
        stores: Items::new(alloc),
        printed,
    })
}

/// What `certify` does with the space of a program.
fn certify_space(alloc: Global, space: &Space, certificate: &Certificate) -> Result<Answer, Status>
    requires from_file { IsFromFile certificate.now }
    requires few_arcs { length (arcs space.now) < 4294967296 }
    ensures { (files : FilesView) → Executes true (confirmed_plan certificate.now space.now) files files result }
{
    let proved = confirm_space(alloc, space, certificate)?;
    shown_answer(alloc, &proved)
}

/// What `certify` does with a program.
fn certify_program(
    alloc: Global,
    program: &Program,
    certificate: &Certificate,
) -> Result<Answer, Status>
    requires { IsFromFile certificate.now }
    ensures { ExecutesCertified program.now certificate.now result }
{
    let space = least_space(alloc, program)?;
    certify_space(alloc, &space, certificate)
}

/// The command `certify`: what a certificate shows of the choice of protocols for a source.
pub fn certify<F: Files>(
    alloc: Global,
    files: &mut F,
    source: &str,
    name: &str,
) -> Result<Answer, Status>
    ensures { ExecutesCertify source.now name.now (F.view files.old) (F.view files.new) result }
{
    let program = load_program(alloc, files, source)?;
    let certificate = load_certificate(alloc, files, name)?;
    certify_program(alloc, &program, &certificate)
}
