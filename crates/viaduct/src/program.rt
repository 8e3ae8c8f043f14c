//! What the program does, whatever objects it is given.

ghost use Rattle.std.specs.Prelude.{◌≡◌, ◌≤◌, IfOk, drop, if◌then◌else◌, map, option_map, string_bytes};
ghost use Rattle.std.specs.Process.{exit_status};
ghost use Rattle.vd_cmd_host.specs.Hosts.{nets_of};
ghost use Rattle.vd_cmd_plan.specs.Lines.{Says, code_of, status_line};
ghost use Rattle.vd_diag_terminal.specs.declared.telling.Destination.TheVariants.{Asked, File, Terminal};
ghost use Rattle.vd_top.specs.Promises.{around};
ghost use Rattle.viaduct.specs.Program.{IsRun, RunsOver};

use std::alloc::{AllocError, Global};
use std::process::ExitCode;
use vd_base::Texts;
use vd_channel_link::SealedNet;
use vd_cmd_plan::{Status, tell};
use vd_diag_terminal::{Destination, say_more, say_wraps};
use vd_edge::{Directory, KeptFiles, RealFiles};
use vd_outside::{Files, Marks, Net, Sink, Spawner};
use vd_shell::read_ahead;
use vd_top::{Outside, start};

/// Copies of texts.
fn copies(alloc: Global, texts: &[String]) -> Result<Texts, AllocError>
    ensures { IfOk result (λ list. list ≡ map string_bytes texts.now) }
{
    let mut list = Texts::new(alloc);
    for text in texts {
        list.push(text.as_str())?;
    }
    Ok(list)
}

/// The words of a command line: all arguments but the first, which names the program.
pub(crate) fn words_of(alloc: Global, arguments: &[String]) -> Result<Texts, AllocError>
    ensures { IfOk result (λ words. words ≡ map string_bytes (drop 1 arguments.now)) }
{
    match arguments {
        [] => Ok(Texts::new(alloc)),
        [_program, behind @ ..] => copies(alloc, behind),
    }
}

/// Where an error stream goes, by whether a terminal is behind it, whether colours are wanted there, and whether more is asked for
/// elsewhere.
pub(crate) fn destination_of(is_terminal: bool, coloured: bool, asked: bool) -> Destination
    ensures { result ≡ (if is_terminal then Terminal coloured else if asked then Asked else File) }
{
    if is_terminal {
        Destination::Terminal { coloured }
    } else if asked {
        Destination::Asked
    } else {
        Destination::File
    }
}

/// The code with which the process ends after a status.
pub(crate) fn exit_code(status: &Status) -> ExitCode
    ensures { exit_status result ≡ code_of status.now }
{
    ExitCode::from(status.code())
}

/// How a run ended, and how many packets the hosts of a `replay` sent.
#[derive(Drop)]
pub(crate) struct Ending {
    pub status: Status,
    pub packets: Option<u64>,
}

/// Runs a command line over these objects, and says how that ended. Where the error stream goes to a terminal, and where more is asked
/// for, it then says more of a fault, and what wrapped in a run of `clear`.
fn start_over<F: Files, M: Marks, O: Sink, E: Sink, N: Net + Drop, S: Spawner>(
    alloc: Global,
    destination: Destination,
    words: &Texts,
    outside: &mut Outside<F, M, O, E, SealedNet<N>, S>,
) -> Status
    requires listeners { (N.view outside.old.net.net).given ≤ 4294967000 }
    requires children { (S.view outside.old.spawner).given ≤ 4294967000 }
    ensures { IsRun destination words.now
        (around outside.old outside.new F.view M.view O.view E.view (λ net. nets_of (N.view net.net) net.ledger net.faults) S.view) result }
{
    let status = start(alloc, words, outside);

    // The line stands: where there is no memory to say more of it, no more is said.
    let _ = say_more(
        alloc,
        destination,
        words,
        &mut outside.files,
        &mut outside.err,
        &status,
    );
    let _ = say_wraps(
        alloc,
        destination,
        words,
        &mut outside.files,
        &mut outside.err,
        &status,
    );
    status
}

/// Says how a run ended that began nothing, and gives the code of that.
pub(crate) fn end<E: Sink>(alloc: Global, err: &mut E, status: &Status) -> ExitCode
    ensures says { Says (status_line status.now) (E.view err.old) (E.view err.new) }
    ensures ends { exit_status result ≡ code_of status.now }
{
    tell(alloc, err, status);
    exit_code(status)
}

/// A run over files that were read ahead: how it ended, and what it left, with the files unless there was no memory for them.
pub(crate) struct Ran<D: Directory + Drop, M, O, E, N: Net + Drop, S> {
    pub status: Status,
    pub outside: Outside<Option<KeptFiles<D>>, M, O, E, SealedNet<N>, S>,
}

/// Why the last call of these files failed, where one did.
pub(crate) fn reason_of<D: Directory + Drop>(files: &Option<KeptFiles<D>>) -> Option<&str> {
    match files {
        Some(files) => files.reason(),
        None => None,
    }
}

/// Reads the files that a command line may fetch, runs it over what they held, and says how that ended. Each file
/// is read once, so that all of a run, and what is said of it to a person, speaks of the same bytes.
pub(crate) fn run_over<D: Directory + Drop, M: Marks, O: Sink, E: Sink, N: Net + Drop, S: Spawner>(
    alloc: Global,
    destination: Destination,
    words: &Texts,
    outside: Outside<RealFiles<D>, M, O, E, SealedNet<N>, S>,
) -> Ran<D, M, O, E, N, S>
    requires listeners { (N.view outside.net.net).given ≤ 4294967000 }
    requires children { (S.view outside.spawner).given ≤ 4294967000 }
    ensures { RunsOver destination words.now (D.fails_at outside.files.directory) D.tells (D.holds outside.files.directory)
        (option_map (λ kept. D.holds kept.files.directory) result.outside.files) (record {
          out = (O.view outside.out, O.view result.outside.out);
          err = (E.view outside.err, E.view result.outside.err);
          marks = (M.view outside.marks, M.view result.outside.marks);
          nets = (
            nets_of (N.view outside.net.net) outside.net.ledger outside.net.faults,
            nets_of (N.view result.outside.net.net) result.outside.net.ledger result.outside.net.faults,
          );
          spawner = (S.view outside.spawner, S.view result.outside.spawner);
          packets = result.outside.packets;
        }) result.status }
{
    let Outside {
        files,
        marks,
        out,
        mut err,
        net,
        spawner,
        packets: _packets,
    } = outside;
    match read_ahead(alloc, words, files) {
        Ok(files) => {
            let mut outside = Outside {
                files,
                marks,
                out,
                err,
                net,
                spawner,
                packets: None,
            };
            let status = start_over(alloc, destination, words, &mut outside);
            let Outside {
                files,
                marks,
                out,
                err,
                net,
                spawner,
                packets,
            } = outside;
            Ran {
                status,
                outside: Outside {
                    files: Some(files),
                    marks,
                    out,
                    err,
                    net,
                    spawner,
                    packets,
                },
            }
        }
        Err(_) => {
            tell(alloc, &mut err, &Status::Memory);
            Ran {
                status: Status::Memory,
                outside: Outside {
                    files: None,
                    marks,
                    out,
                    err,
                    net,
                    spawner,
                    packets: None,
                },
            }
        }
    }
}
