//! Files of host programs.

ghost use Rattle.std.specs.Prelude.{◌≡◌, Ok, IfOk, IfErr};
ghost use Rattle.vd_base_codec.specs.Reading.{GivesOrMemory, to_the_end};
ghost use Rattle.vd_hostcode.specs.HostTextOutcome.{IsFileOf, IsRefused, IsFaultOf, program_at, program_read};

use crate::host_text::heading::read_program;
use crate::host_text::program::HostProgram;
use std::alloc::Global;
use vd_base::FileFault;
use vd_base_codec::{CodecFault, Cursor, offset};

/// The program of one host, from its file. The ranges of its instructions are not looked at.
///
/// Refuses bytes that are no such file, with the first offset at which they go on as none does, and fails where memory runs out.
pub fn parse(alloc: Global, bytes: &[u8]) -> Result<HostProgram, FileFault>
    ensures given { IfOk result (λ program. IsFileOf bytes.now program) }
    ensures refused { IfErr result (λ fault. IsRefused bytes.now fault) }
{
    read_bytes(alloc, bytes)
}

/// The program that is read from left to right.
fn read_bytes(alloc: Global, bytes: &[u8]) -> Result<HostProgram, FileFault>
    ensures ok { IfOk result (λ program. program_read bytes.now ≡ Ok program) }
    ensures err { IfErr result (λ fault. IsFaultOf (program_read bytes.now) fault) }
{
    let mut cursor = Cursor::new(bytes);
    match read_file(alloc, &mut cursor) {
        Ok(program) => Ok(program),
        Err(CodecFault::Stopped) => Err(FileFault::Text(offset(bytes.len() - cursor.len()))),
        Err(CodecFault::Memory) => Err(FileFault::Memory),
    }
}

/// The whole file.
fn read_file(alloc: Global, cursor: &mut Cursor) -> Result<HostProgram, CodecFault>
    ensures { GivesOrMemory result cursor.new (to_the_end (program_at cursor.old)) }
{
    let program = read_program(alloc, cursor)?;
    cursor.end()?;
    Ok(program)
}
