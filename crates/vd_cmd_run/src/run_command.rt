//! The command `run`.

ghost use Rattle.std.specs.Prelude.{◌≡◌, ◌≤◌, length};
ghost use Rattle.vd_base.specs.Limits.{most_hosts};
ghost use Rattle.vd_cmd.specs.Commands.{IsPort};
ghost use Rattle.vd_cmd_plan.specs.Plans.{IsGiven};
ghost use Rattle.vd_cmd_plan.specs.declared.status.Status.TheVariants.{Ended};
ghost use Rattle.vd_cmd_run.specs.RunsHosts.{outside};
ghost use Rattle.vd_cmd_run.specs.Running.{Plays, Runs};

use crate::commands::command_lines;
use crate::compiling::compile_for;
use crate::running::run_hosts;
use crate::statuses::run_status;
use std::alloc::Global;
use vd_base::Names;
use vd_cmd::RunWords;
use vd_cmd_plan::{Answer, Status};
use vd_outside::{Files, Sink, Spawner};

/// Runs the hosts with these names, for which the answer of `compile` has files.
fn play<F: Files, O: Sink, S: Spawner>(
    alloc: Global,
    words: &RunWords,
    names: Names,
    answer: &Answer,
    files: &mut F,
    out: &mut O,
    spawner: &mut S,
) -> Status
    requires port { IsPort words.now.port }
    requires few { length names ≤ most_hosts }
    requires ended { answer.now.status ≡ Ended }
    requires room { (S.view spawner.old).given ≤ 4294967000 }
    ensures { Plays words.now names (outside (F.view files.old) (O.view out.old) (S.view spawner.old))
        (outside (F.view files.new) (O.view out.new) (S.view spawner.new)) (Ok answer.now) result }
{
    let hosts = names.as_slice().len() as u8;
    let prefix = words.prefix.as_str();
    let Ok(lines) = command_lines(alloc, prefix, words.inputs.as_str(), words.port, hosts) else {
        return Status::Memory;
    };
    let stores = answer.stores.as_slice();
    let program = words.program.as_str();
    let came = run_hosts(
        alloc,
        stores,
        &names,
        program,
        lines.as_slice(),
        files,
        out,
        spawner,
    );
    run_status(names, came)
}

/// What is done behind the answer of `compile`.
fn play_answer<F: Files, O: Sink, S: Spawner>(
    alloc: Global,
    words: &RunWords,
    names: Names,
    answer: Answer,
    files: &mut F,
    out: &mut O,
    spawner: &mut S,
) -> Status
    requires port { IsPort words.now.port }
    requires few { length names ≤ most_hosts }
    requires given { IsGiven answer.status answer.printed }
    requires room { (S.view spawner.old).given ≤ 4294967000 }
    ensures { Plays words.now names (outside (F.view files.old) (O.view out.old) (S.view spawner.old))
        (outside (F.view files.new) (O.view out.new) (S.view spawner.new)) (Ok answer) result }
{
    match answer.status {
        Status::Ended => play(alloc, words, names, &answer, files, out, spawner),
        _ => answer.status,
    }
}

/// The command `run`: a source is compiled, the files of its hosts are stored, the hosts are run as children of this
/// process, each by the program with its command line, and a line is printed for each host of what it printed.
pub fn run<F: Files, O: Sink, S: Spawner>(
    alloc: Global,
    words: &RunWords,
    files: &mut F,
    out: &mut O,
    spawner: &mut S,
) -> Status
    requires port { IsPort words.now.port }
    requires room { (S.view spawner.old).given ≤ 4294967000 }
    ensures { Runs words.now (outside (F.view files.old) (O.view out.old) (S.view spawner.old))
        (outside (F.view files.new) (O.view out.new) (S.view spawner.new)) result }
{
    match compile_for(alloc, files, words.source.as_str(), words.prefix.as_str()) {
        Ok(compiled) => play_answer(
            alloc,
            words,
            compiled.names,
            compiled.answer,
            files,
            out,
            spawner,
        ),
        Err(status) => status,
    }
}
