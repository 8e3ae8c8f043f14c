//! The report on hosts that have all ended.

ghost use Rattle.std.specs.Prelude.{◌≡◌, IfOk, map};
ghost use Rattle.vd_cmd_run.specs.EndedLines.{ended_line, ended_lines};

use std::alloc::{AllocError, Global};
use vd_base::{Bytes, HostState, Items, Names, Words};
use vd_report::{HostLine, HostLines, hosts_text};

/// Each of these lists of words as that of a host that has ended.
fn lines(alloc: Global, printed: &[Words]) -> Result<HostLines, AllocError>
    ensures { IfOk result (λ lines. lines ≡ map ended_line printed.now) }
{
    let mut lines = Items::new(alloc);
    for words in printed {
        lines.push(HostLine {
            state: HostState::Ended,
            printed: Words::from_slice(alloc, words.as_slice())?,
        })?;
    }
    Ok(lines)
}

/// A line for each host, all of which have ended: its name, how many words it printed, and the words.
pub(crate) fn ended_text(
    alloc: Global,
    hosts: &Names,
    printed: &[Words],
) -> Result<Bytes, AllocError>
    ensures { IfOk result (λ text. text ≡ ended_lines hosts.now printed.now) }
{
    let lines = lines(alloc, printed)?;
    hosts_text(alloc, hosts, &lines)
}
