//! The slots that no protocol is for, and the program with loops in the place of their divisions.

ghost use Rattle.std.specs.Prelude.{◌≡◌, IfOk};
ghost use Rattle.std.specs.Option.{MatchOption};
ghost use Rattle.vd_long.specs.Marks.{long_marks, lengthen_of};
ghost use Rattle.vd_space.specs.Labelled.{HasLabels};
ghost use Rattle.vd_space.specs.Reading.{problem_of};
ghost use Rattle.vd_space.specs.WellFormed.{AreProtocols};

use crate::lengthening::lengthen;
use std::alloc::{AllocError, Global};
use vd_base::{Items, Proto};
use vd_constraints::Labels;
use vd_core::Program;
use vd_protocol::protocols;
use vd_space::{Problem, has_candidate};

/// Of each slot whether it has no candidate. `list` has all protocols.
fn marks_of(alloc: Global, problem: &Problem, list: &[Proto]) -> Result<Items<bool>, AllocError>
    requires { AreProtocols problem.now list.now }
    ensures { IfOk result (λ marks. marks ≡ long_marks problem.now) }
{
    let mut marks = Items::new(alloc);
    for making in problem.slots.as_slice() {
        let has = has_candidate(problem, list, making);
        marks.push(!has)?;
    }
    Ok(marks)
}

/// Of each slot of the program whether no protocol is a candidate for it, under these labels of the slots.
fn slots_without_protocol(
    alloc: Global,
    program: &Program,
    labels: &Labels,
) -> Result<Items<bool>, AllocError>
    requires { HasLabels program.now labels.now }
    ensures { IfOk result (λ marks. marks ≡ long_marks (problem_of program.now labels.now)) }
{
    let hosts = program.form().labels.as_slice().len() as u8;
    let problem = Problem::of(alloc, program, labels)?;
    let list = protocols(alloc, hosts)?;
    marks_of(alloc, &problem, list.as_slice())
}

/// The program with loops in the place of the divisions that no protocol computes, or none where it is the same.
pub fn lengthen_labelled(
    alloc: Global,
    program: &Program,
    labels: &Labels,
) -> Result<Option<Program>, AllocError>
    requires { HasLabels program.now labels.now }
    ensures { IfOk result (λ new. MatchOption new (lengthen_of program.now labels.now ≡ program.now)
        (λ form. form ≡ lengthen_of program.now labels.now)) }
{
    let marks = slots_without_protocol(alloc, program, labels)?;
    lengthen(alloc, program, marks.as_slice())
}
