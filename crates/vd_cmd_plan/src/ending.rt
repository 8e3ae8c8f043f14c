//! The end of a run.

ghost use Rattle.std.specs.Prelude.{IfOk};
ghost use Rattle.vd_cmd_plan.specs.Plans.{IsGiven};
ghost use Rattle.vd_cmd_plan.specs.Runs.{Finishes, Prints};

use crate::deliver::deliver;
use crate::{Answer, Status};
use vd_base::Failed;
use vd_outside::{Files, Sink, write_all};

/// Delivers what a command came to: stores its files in order, and then writes what it prints.
pub fn finish<F: Files, O: Sink>(came: Result<Answer, Status>, files: &mut F, out: &mut O) -> Status
    requires { IfOk came (λ answer. IsGiven answer.status answer.printed) }
    ensures { Finishes came (F.view files.old) (F.view files.new) (O.view out.old) (O.view out.new) result }
{
    match came {
        Ok(answer) => deliver(answer, files, out),
        Err(status) => status,
    }
}

/// Prints a text, and nothing else.
pub fn print_text<O: Sink>(out: &mut O, text: &str) -> Status
    ensures { Prints text.now (O.view out.old) (O.view out.new) result }
{
    match write_all(out, text.as_bytes()) {
        Ok(()) => Status::Ended,
        Err(Failed) => Status::WriteFault,
    }
}
