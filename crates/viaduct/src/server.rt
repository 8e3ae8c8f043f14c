//! The language server over the standard streams.

ghost use Rattle.std.specs.Prelude.{◌≡◌, false, []};
ghost use Rattle.std.specs.Process.{exit_status};
ghost use Rattle.viaduct.specs.Server as served;
ghost use Rattle.viaduct.specs.Server.{EndsServer};

use std::alloc::Global;
use std::io::{self, Read, Write};
use std::process::ExitCode;
use vd_base::Texts;
use vd_edge::{Duplex, RealLink};
use vd_lsp::{ServeFault, serve};
use vd_outside::{Sink, write_all};

/// Whether a command line asks for the language server: its one word is `lsp`.
pub(crate) fn is_server(words: &Texts) -> bool
    ensures { result ≡ served.is_server words.now }
{
    match words.as_slice() {
        [word] => word.as_str().as_bytes() == b"lsp".as_slice(),
        _ => false,
    }
}

/// Two streams as one: what is read comes from the one, and what is written goes to the other.
#[derive(Drop)]
pub(crate) struct Streams<R: Read + Drop, W: Write + Drop> {
    pub input: R,
    pub output: W,
}

impl<R: Read + Drop, W: Write + Drop> Duplex for Streams<R, W> {
    ghost view = { λ streams. record { told = false; sent = []; coming = [] } };

    fn take(&mut self, bytes: &[u8]) -> io::Result<usize> {
        self.output.write(bytes)
    }

    fn give(&mut self, into: &mut [u8]) -> io::Result<usize> {
        self.input.read(into)
    }
}

/// What is said of a server that ended before it was asked to.
fn fault_line(fault: ServeFault) -> &'static [u8]
    ensures { result.now ≡ served.fault_line fault }
{
    match fault {
        ServeFault::Memory => b"viaduct: memory\n",
        ServeFault::BadFrame => b"viaduct: lsp: what came is no frame\n",
        ServeFault::Stream => b"viaduct: lsp: a stream failed\n",
    }
}

/// Serves an editor over these streams, and gives the code with which the process ends. Of a server that ended before it was asked
/// to, a line on the error stream says why.
pub(crate) fn serve_over<R: Read + Drop, W: Write + Drop, E: Sink>(
    alloc: Global,
    streams: Streams<R, W>,
    err: &mut E,
) -> ExitCode
    ensures { EndsServer (E.view err.old) (E.view err.new) (exit_status result) }
{
    let mut link = RealLink::new(streams);
    match serve(alloc, &mut link) {
        Ok(status) => ExitCode::from(status),
        Err(fault) => {
            let _ = write_all(err, fault_line(fault));
            ExitCode::from(1)
        }
    }
}
