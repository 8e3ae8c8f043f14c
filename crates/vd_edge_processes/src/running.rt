ghost use Rattle.std.specs.Prelude.{◌≡◌, IfOk, codes, decimal, Some};
ghost use Rattle.std.specs.Process.{child_status, command_args, command_program, command_var};
ghost use Rattle.vd_edge_processes.specs.Ends.{HasEnded, IsNumberOf};
ghost use Rattle.vd_edge_processes.specs.Lines.{left};

use crate::lines::Lines;
use crate::next::Next;
use crate::player::Player;
use std::alloc::{AllocError, Global};
use std::io::{self, Read};
use std::os::fd::OwnedFd;
use std::os::unix::net::UnixStream;
use std::os::unix::process::ExitStatusExt;
use std::process::{Child, ChildStdout, Command, ExitStatus, Processes, Stdio, SystemProcess};
use vd_base::{CallFault, Texts};
use vd_edge::fault_of;

/// The variable that tells a child the number of the process that started it.
pub const PARENT: &str = "VIADUCT_PARENT";

/// The variable that asks a program to tell why a call of the outside failed.
pub const REASONS: &str = "VIADUCT_REASONS";

/// A child that was started. Where it is let go before its end was waited for, it is stopped.
pub(crate) struct Running {
    child: Child,
    lines: Lines<ChildStdout>,
    broken: bool,
}

impl Drop for Running {
    fn drop(self) {
        let Running {
            child,
            lines: _,
            broken: _,
        } = self;
        stop(child);
    }
}

/// Ends a child whose end was not waited for, and waits for its end.
fn stop(mut child: Child) {
    if child.kill().is_ok() {
        let _ = child.wait();
    }
}

/// The status with which a process ended. One that a signal ended has 128 and the signal's number, as in a shell.
fn number_of(status: ExitStatus) -> u32
    ensures { IsNumberOf status result }
{
    match status.code() {
        Some(code) => code.cast_unsigned(),
        None => 128u32.saturating_add(status.signal().unwrap_or(0).cast_unsigned()),
    }
}

/// The command that runs a program with these words.
fn command_of(alloc: Global, program: &str, words: &Texts) -> Result<Command, AllocError>
    ensures program { IfOk result (λ command. command_program command ≡ program.now) }
    ensures words { IfOk result (λ command. command_args command ≡ words.now) }
{
    let mut command = Command::new(alloc, program)?;
    for word in words.as_slice() {
        command.arg(word.as_str())?;
    }
    Ok(command)
}

/// The same command, which is told the number of the process that starts it.
fn with_parent(alloc: Global, mut command: Command, parent: u32) -> Result<Command, AllocError>
    ensures program { IfOk result (λ told. command_program told ≡ command_program command) }
    ensures words { IfOk result (λ told. command_args told ≡ command_args command) }
    ensures parent { IfOk result (λ told. command_var told PARENT.now ≡ Some (Some (decimal parent))) }
{
    let parent = format!(in alloc; "{parent}")?;
    command.env(PARENT, parent.as_str())?;
    Ok(command)
}

/// The same command, which tells why a call of the outside failed.
fn with_reasons(mut command: Command) -> Result<Command, AllocError>
    ensures program { IfOk result (λ told. command_program told ≡ command_program command) }
    ensures words { IfOk result (λ told. command_args told ≡ command_args command) }
    ensures reasons { IfOk result (λ told. command_var told REASONS.now ≡ Some (Some (codes "1"))) }
{
    command.env(REASONS, "1")?;
    Ok(command)
}

/// The same command without input, of which the output is read here.
fn piped(mut command: Command) -> Command
    ensures program { command_program result ≡ command_program command }
    ensures words { command_args result ≡ command_args command }
{
    command.stdin(Stdio::null());
    command.stdout(Stdio::piped());
    command
}

/// The same end of a pipe, from which a read does not wait.
fn unblocked(output: ChildStdout) -> io::Result<ChildStdout> {
    let stream = UnixStream::from(OwnedFd::from(output));
    stream.set_nonblocking(true)?;
    Ok(ChildStdout::from(OwnedFd::from(stream)))
}

/// What is read here of a child, without waiting.
fn output_of(child: &mut Child) -> io::Result<ChildStdout> {
    match child.stdout.take() {
        Some(output) => unblocked(output),
        None => Err(io::Error::other("its output cannot be read")),
    }
}

impl Running {
    /// Starts a program with these words and no input. Its output is read here, its error stream is that of this process, whose
    /// number it is told, and there it tells why a call of the outside failed.
    pub fn start<R: Processes<Started = SystemProcess>>(
        rt: &R,
        alloc: Global,
        parent: u32,
        program: &str,
        words: &Texts,
    ) -> io::Result<Running> {
        let command = with_reasons(piped(command_of(alloc, program, words)?))?;
        let mut command = with_parent(alloc, command, parent)?;
        Running::over(alloc, command.spawn(rt)?)
    }

    // A child with its output, which is stopped if that cannot be read.
    fn over(alloc: Global, mut child: Child) -> io::Result<Running> {
        match output_of(&mut child) {
            Ok(output) => Ok(Running {
                child,
                lines: Lines::new(alloc, output),
                broken: false,
            }),
            Err(error) => {
                stop(child);
                Err(error)
            }
        }
    }

    /// Waits for its end.
    pub fn finish(&mut self) -> Result<u32, CallFault>
        ensures { IfOk result (HasEnded (child_status self.new.child)) }
    {
        match self.child.wait() {
            Ok(status) => Ok(number_of(status)),
            Err(error) => Err(fault_of(&error)),
        }
    }
}

impl Player for Running {
    ghost left = { λ running.
        left ⟦<ChildStdout as Read>⟧.remaining running.lines.output running.lines.bytes running.lines.handed };

    ghost broken = { λ running. running.broken };

    ghost ended = { λ running number. HasEnded (child_status running.child) number };

    /// Takes what it has written since, and says whether that was anything. Where its output cannot be read, or is more than a host
    /// writes, none of its lines is given any more.
    fn turn(&mut self) -> Result<bool, CallFault> {
        match self.lines.turn() {
            Err(CallFault::Failed) => {
                self.broken = true;
                Ok(true)
            }
            came => came,
        }
    }

    fn next(&mut self) -> Result<Next, CallFault> {
        if self.broken {
            Err(CallFault::Failed)
        } else {
            self.lines.next()
        }
    }

    fn is_over(&self) -> bool {
        self.lines.is_over()
    }

    fn failure(&mut self) -> Option<u32> {
        if !self.lines.is_over() {
            return None;
        }
        match self.child.try_wait() {
            Ok(Some(status)) if !status.success() => Some(number_of(status)),
            _ => None,
        }
    }
}
