//! The name by which a host speaks to a person.

ghost use Rattle.std.specs.Prelude.{◌≡◌, IfSome, IsTrue, Some, slice_get};
ghost use Rattle.vd_cmd.specs.Commands.{form_of};
ghost use Rattle.vd_cmd_host.specs.Loading.{HoldsProgram};
ghost use Rattle.vd_shell.specs.Reasons.{IsOwnName, IsSpeaker};

use std::alloc::Global;
use vd_base::limits::HOST_FILE_BYTES;
use vd_base::{Bytes, Texts};
use vd_cmd::{Command, HostWords, read_words};
use vd_hostcode::{HostProgram, read};
use vd_outside::Files;

/// The program of the host that these words run, where it can be read.
fn program_of<F: Files>(alloc: Global, words: &HostWords, files: &mut F) -> Option<HostProgram>
    ensures { IfSome result (λ program. IsTrue (F.view files.old).told →
        HoldsProgram words.now (F.view files.old).contents program) }
{
    match files.fetch(words.program.as_str(), HOST_FILE_BYTES) {
        Ok(bytes) => match read(alloc, bytes.as_slice()) {
            Ok(program) => Some(program),
            Err(_) => None,
        },
        Err(_) => None,
    }
}

/// A copy of the name of a program's own host.
fn name_in(alloc: Global, program: &HostProgram) -> Option<Bytes>
    ensures { IfSome result (λ name. slice_get program.now.hosts program.now.me.0 ≡ Some name) }
{
    match program.hosts.as_slice().get(usize::from(program.me.0)) {
        Some(name) => Bytes::from_slice(alloc, name.as_slice()).ok(),
        None => None,
    }
}

/// The name of the host whose program a command line runs, where that program can be read.
fn own_name<F: Files>(alloc: Global, words: &HostWords, files: &mut F) -> Option<Bytes>
    ensures { IfSome result (λ name. IsTrue (F.view files.old).told →
        IsOwnName words.now (F.view files.old).contents name) }
{
    match program_of(alloc, words, files) {
        Some(program) => name_in(alloc, &program),
        None => None,
    }
}

/// The name by which the host of a command line speaks: its own, or that of its program's file. Other commands run no host here.
pub fn speaker_of<F: Files>(alloc: Global, words: &Texts, files: &mut F) -> Option<Bytes>
    ensures { IfSome result (λ name. IsTrue (F.view files.old).told →
        IsSpeaker (form_of words.now) (F.view files.old).contents name) }
{
    let Ok(Command::Host(words)) = read_words(alloc, words) else {
        return None;
    };
    match own_name(alloc, &words, files) {
        Some(name) => Some(name),
        None => Bytes::from_slice(alloc, words.program.as_str().as_bytes()).ok(),
    }
}
