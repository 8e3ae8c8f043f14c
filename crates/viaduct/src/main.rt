//! The program: makes the real objects, and ends with the code that the top call gives over them. Where standard error is a
//! terminal, or a variable asks for it, more is then said of a fault.
#![tactic(auto)]

mod caller;
mod program;
mod server;

ghost use Rattle.std.specs.Prelude.{⊤};

use caller::{Caller, Known, tell_ending};
use program::{Ending, Ran, destination_of, end, exit_code, reason_of, run_over};
use server::{Streams, is_server, serve_over};
use std::alloc::{AllocError, Global};
use std::env::{Env, VarError};
use std::io::{IsTerminal, Stderr, Stdout};
use std::os::unix::process::parent_id;
use std::process::ExitCode;
use std::{env, fs, io, process};
use vd_base::{Bytes, Texts};
use vd_channel_link::SealedNet;
use vd_cmd_plan::Status;
use vd_diag_terminal::Destination;
use vd_edge::{KeptFiles, RealFiles, RealNet, RealSink, SystemDirectory, SystemSockets, Waits};
use vd_edge_marks::RealMarks;
use vd_edge_processes::{PARENT, REASONS, RealSpawner};
use vd_shell::{Reasons, copy_reason, copy_text, speaker_of};
use vd_top::Outside;

/// The arguments of the program, and none where one of them is no text.
fn arguments(rt: &(impl Env + AllocGlobal)) -> io::Result<Option<Vec<String>>> {
    match env::args(rt) {
        Ok(arguments) => Ok(Some(arguments.collect(rt.alloc())?)),
        Err(error) if error.kind() == io::ErrorKind::OutOfMemory => Err(error),
        Err(_) => Ok(None),
    }
}

/// Whether a variable asks for more than the line of a status.
fn asks_for_more(rt: &(impl Env + AllocGlobal)) -> bool {
    env::var(rt, REASONS).is_ok()
}

/// Where standard error goes, and whether there in colours.
fn destination(rt: &(impl Env + AllocGlobal), stream: &Stderr) -> Destination {
    let coloured = matches!(env::var(rt, "NO_COLOR"), Err(VarError::NotPresent));
    destination_of(stream.is_terminal(), coloured, asks_for_more(rt))
}

/// Whether a person is told why a call of the outside failed: at a terminal, and where a variable asks for it.
fn tells_reasons(rt: &(impl Env + AllocGlobal), stream: &Stderr) -> bool {
    stream.is_terminal() || asks_for_more(rt)
}

/// The number of the process whose end ends the waits of this one: of the run that started it, or of a script between the two.
fn parent(rt: &HostRuntime) -> Option<u32> {
    let run: u32 = env::var(rt, PARENT).ok()?.as_str().parse().ok()?;
    let parent = parent_id(rt.process());
    let path = format!(in rt.alloc(); "/proc/{run}").ok()?;
    let runs = fs::exists(rt, path.as_str()).unwrap_or(false);
    if parent != run && runs {
        Some(parent)
    } else {
        Some(run)
    }
}

/// The folder that a variable names, where it is set to one by its whole name.
fn folder_in(rt: &HostRuntime, variable: &str) -> Result<Option<String>, VarError> {
    match env::var(rt, variable) {
        Ok(folder) => {
            if folder.as_str().starts_with('/') {
                Ok(Some(folder))
            } else {
                Ok(None)
            }
        }
        Err(error) if error == VarError::OutOfMemory => Err(error),
        Err(_) => Ok(None),
    }
}

/// The folder in which the marks of all deals of this user stand, with its last slash: none where the system names none.
fn marks_home(rt: &HostRuntime) -> Result<Option<String>, VarError> {
    let alloc = rt.alloc();
    if let Some(state) = folder_in(rt, "XDG_STATE_HOME")? {
        return Ok(Some(format!(in alloc; "{state}/viaduct/used/")?));
    }
    match folder_in(rt, "HOME")? {
        Some(home) => Ok(Some(format!(in alloc; "{home}/.local/state/viaduct/used/")?)),
        None => Ok(None),
    }
}

/// Who started this program, with which words.
fn caller_of(rt: &HostRuntime) -> io::Result<Caller> {
    let stream = rt.stderr();
    Ok(Caller::new(
        rt.alloc(),
        &arguments(rt)?,
        destination(rt, &stream),
        tells_reasons(rt, &stream),
    )?)
}

/// The objects of a run, after it.
#[derive(Drop)]
struct Objects {
    files: Option<KeptFiles<SystemDirectory<HostRuntime>>>,
    marks: RealMarks<SystemDirectory<HostRuntime>, HostRuntime>,
    net: SealedNet<RealNet<SystemSockets<HostRuntime>>>,
    spawner: RealSpawner<HostRuntime>,
    /// Why the output took nothing more, where that is known.
    written: Option<String>,
}

impl Objects {
    /// The first child of a run that ended with a fault. Of a run of which a program could not be started none is awaited.
    fn first(&mut self) -> Option<(usize, u32)> {
        if self.spawner.reason().is_some() {
            return None;
        }
        self.spawner.first_failure()
    }
}

impl Known for Objects {
    ghost is_host = { λ host. ⊤ };

    ghost is_passed = { λ passed. ⊤ };

    ghost is_reasons = { λ reasons. ⊤ };

    fn host(&mut self, alloc: Global, words: &Texts) -> Option<Bytes> {
        match &mut self.files {
            Some(files) => speaker_of(alloc, words, files),
            None => None,
        }
    }

    fn passed(&self) -> (u64, u64) {
        self.net.net.packets()
    }

    fn reasons(&mut self, alloc: Global) -> Result<Reasons, AllocError> {
        let first = self.first();
        Ok(Reasons {
            files: copy_text(alloc, reason_of(&self.files))?,
            written: copy_text(alloc, self.written.as_deref())?,
            mark: copy_text(alloc, self.marks.reason())?,
            seal: self.net.fault(),
            peer: copy_reason(alloc, self.net.net.reason())?,
            started: copy_text(alloc, self.spawner.reason())?,
            first,
        })
    }
}

/// The runtime, once for each object that keeps it.
#[derive(Drop)]
struct Runtimes {
    net: HostRuntime,
    marks: HostRuntime,
    random: HostRuntime,
    spawner: HostRuntime,
    files: HostRuntime,
}

/// The runtime, so many times.
fn runtimes_of(rt: HostRuntime) -> io::Result<Runtimes> {
    Ok(Runtimes {
        net: rt.clone()?,
        marks: rt.clone()?,
        random: rt.clone()?,
        spawner: rt.clone()?,
        files: rt,
    })
}

/// What a run over the real objects left.
type RealRan = Ran<
    SystemDirectory<HostRuntime>,
    RealMarks<SystemDirectory<HostRuntime>, HostRuntime>,
    RealSink<Stdout>,
    RealSink<Stderr>,
    RealNet<SystemSockets<HostRuntime>>,
    RealSpawner<HostRuntime>,
>;

/// What is known before a run: who started it, and the process that it is.
#[derive(Drop)]
struct Beginning {
    caller: Caller,
    runtimes: Runtimes,
    process: u32,
    waits: Waits,
}

/// What is known before a run. An error is that there was no memory.
fn begin(rt: HostRuntime) -> io::Result<Beginning> {
    let caller = caller_of(&rt)?;
    let process = process::id(rt.process());
    let waits = Waits::new(rt.process(), parent(&rt));
    Ok(Beginning {
        caller,
        runtimes: runtimes_of(rt)?,
        process,
        waits,
    })
}

/// Says how a run over the real objects ended, and gives its code.
fn finish(alloc: Global, caller: &Caller, ran: RealRan) -> ExitCode {
    let Ran { status, outside } = ran;
    let Outside {
        files,
        marks,
        out,
        mut err,
        net,
        spawner,
        packets,
    } = outside;
    let ending = Ending { status, packets };
    let mut objects = Objects {
        files,
        marks,
        net,
        spawner,
        written: out.reason(alloc, "standard output"),
    };
    let _ = tell_ending(alloc, caller, &ending, &mut objects, &mut err);
    exit_code(&ending.status)
}

/// Makes the real objects over these streams, runs the command line over them, and gives the code of how it ended. The marks of all
/// deals of this user stand in the folder `home`.
fn run(
    alloc: Global,
    beginning: Beginning,
    home: Option<String>,
    out: RealSink<Stdout>,
    err: RealSink<Stderr>,
) -> ExitCode {
    let Beginning {
        caller,
        runtimes,
        process,
        waits,
    } = beginning;
    let Runtimes {
        net,
        marks,
        random,
        spawner,
        files,
    } = runtimes;
    let sockets = SystemSockets::new(net, alloc, waits);
    let outside = Outside {
        files: RealFiles::new(SystemDirectory::new(files, process), alloc),
        marks: RealMarks::new(SystemDirectory::new(marks, process), random, alloc, home),
        out,
        err,
        net: SealedNet::new(alloc, RealNet::new(sockets, alloc)),
        spawner: RealSpawner::new(spawner, alloc, process),
        packets: None,
    };
    let ran = run_over(alloc, caller.destination, &caller.words, outside);
    finish(alloc, &caller, ran)
}

fn main(rt: HostRuntime) -> ExitCode {
    let alloc = rt.alloc();
    let streams = Streams {
        input: rt.stdin(),
        output: rt.stdout(),
    };
    let out = RealSink::new(rt.stdout());
    let mut err = RealSink::new(rt.stderr());
    let Ok(home) = marks_home(&rt) else {
        return end(alloc, &mut err, &Status::Memory);
    };
    match begin(rt) {
        Ok(beginning) if is_server(&beginning.caller.words) => serve_over(alloc, streams, &mut err),
        Ok(beginning) => run(alloc, beginning, home, out, err),
        Err(_) => end(alloc, &mut err, &Status::Memory),
    }
}
