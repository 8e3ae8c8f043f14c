//! The mark of a deal: a deal of version 2 is used once.

ghost use Rattle.std.specs.Prelude.{◌≡◌, IfOk, true};
ghost use Rattle.vd_cmd_host.specs.Marking.{Claims, Leaves, mark_name, mark_text};

use itoa::Buffer;
use std::alloc::{AllocError, Global};
use vd_base::{Bytes, CallFault, HostId, Text};
use vd_base_codec::{push_field, push_key};
use vd_cmd::HostWords;
use vd_cmd_plan::Status;
use vd_hostcode::HostProgram;
use vd_outside::Marks;

/// The name of the mark of a host's deal of this dealing.
pub(crate) fn mark_name(alloc: Global, id: &[u8; 32], me: HostId) -> Result<Bytes, AllocError>
    ensures { IfOk result (λ name. name ≡ mark_name id.now me.0) }
{
    let mut name = Bytes::from_slice(alloc, b"viaduct-used-")?;
    push_key(&mut name, &id[..16])?;
    name.push(b'-')?;
    let mut buffer = Buffer::new();
    name.extend_from_slice(buffer.format(me.0).as_bytes())?;
    Ok(name)
}

/// What stands in the mark of a deal of this dealing that this program's host uses.
fn mark_text(alloc: Global, id: &[u8; 32], program: &HostProgram) -> Result<Bytes, AllocError>
    ensures { IfOk result (λ text. text ≡ mark_text id.now program.now) }
{
    let mut text = Bytes::from_slice(alloc, b"viaduct-used 1\nid ")?;
    push_key(&mut text, id)?;
    text.extend_from_slice(b"\nme")?;
    push_field(&mut text, u64::from(program.me.0))?;
    text.extend_from_slice(b"\nplan ")?;
    push_key(&mut text, &program.plan.bytes)?;
    text.push(b'\n')?;
    Ok(text)
}

/// What is known of a deal that is used: the name of its mark, and the bytes that were drawn for this run.
#[derive(Drop)]
pub(crate) struct Claimed {
    pub(crate) name: Bytes,
    pub(crate) seed: [u8; 32],
}

/// Draws 32 bytes for this run, and takes the mark of its deal.
///
/// Refuses a deal whose mark is taken. A draw that fails is a fault of a file named `draw`, and a mark that cannot be made one of a
/// write.
pub(crate) fn claim<M: Marks>(
    alloc: Global,
    marks: &mut M,
    words: &HostWords,
    id: &[u8; 32],
    program: &HostProgram,
) -> Result<Claimed, Status>
    ensures { Claims words.now id.now program.now (M.view marks.old) (M.view marks.new) result }
{
    let name = mark_name(alloc, id, program.me)?;
    let text = mark_text(alloc, id, program)?;
    let draw = Text::copy_of(alloc, "draw")?;
    let deal = Text::copy_of(alloc, words.deal.as_str())?;
    let seed = match marks.draw() {
        Ok(seed) => seed,
        Err(CallFault::Failed) => return Err(Status::ReadFault(draw)),
        Err(CallFault::Memory) => return Err(Status::Memory),
    };
    match marks.claim(words.deal.as_str(), name.as_slice(), text.as_slice()) {
        Ok(true) => Ok(Claimed { name, seed }),
        Ok(false) => Err(Status::DealUsed(deal)),
        Err(CallFault::Failed) => Err(Status::WriteFault),
        Err(CallFault::Memory) => Err(Status::Memory),
    }
}

/// Takes the mark back where nothing was sent that the deal masks. A mark that cannot be taken back stays.
pub(crate) fn leave<M: Marks>(marks: &mut M, words: &HostWords, name: &[u8], sent: bool)
    ensures { Leaves words.now name.now sent (M.view marks.old) (M.view marks.new) }
{
    if !sent {
        let _ = marks.release(words.deal.as_str(), name);
    }
}
