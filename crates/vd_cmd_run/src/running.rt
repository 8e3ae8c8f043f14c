//! A compiled program is run.

ghost use Rattle.std.specs.Prelude.{◌≤◌, length};
ghost use Rattle.vd_base.specs.Limits.{most_hosts};
ghost use Rattle.vd_cmd_run.specs.RunsHosts.{RunsHosts, outside};

use crate::fault::RunFault;
use crate::report::ended_text;
use std::alloc::Global;
use vd_base::{Names, Texts};
use vd_cmd_plan::store_all;
use vd_host_children::run_children;
use vd_outside::{Files, Sink, Spawner, Stored, write_all};

/// Stores the files of all hosts, runs the hosts as children, each by the program with its command line, and writes a line
/// for each of what it printed. The first fault ends the run.
pub(crate) fn run_hosts<F: Files, O: Sink, S: Spawner>(
    alloc: Global,
    stores: &[Stored],
    names: &Names,
    program: &str,
    lines: &[Texts],
    files: &mut F,
    out: &mut O,
    spawner: &mut S,
) -> Result<(), RunFault>
    requires few { length lines.now ≤ most_hosts }
    requires room { (S.view spawner.old).given ≤ 4294967000 }
    ensures { RunsHosts stores.now names.now program.now lines.now (outside (F.view files.old) (O.view out.old) (S.view spawner.old))
        (outside (F.view files.new) (O.view out.new) (S.view spawner.new)) result }
{
    store_all(files, stores)?;
    let printed = run_children(alloc, spawner, program, lines)?;
    let text = ended_text(alloc, names, printed.as_slice())?;
    write_all(out, text.as_slice())?;
    Ok(())
}
