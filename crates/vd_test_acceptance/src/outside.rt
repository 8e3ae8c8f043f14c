//! What an example says of the net and of children.

ghost use Rattle.std.specs.Prelude.{◌≡◌, [], IfOk};

use std::alloc::{AllocError, Global};
use vd_base::{Bytes, Items};
use vd_fakes::{MemLink, MemNet, MemSpawner};
use vd_outside::{Child, Line};

/// The room of a link in memory.
const ROOM: usize = 262_144;

/// A link that waits at an address: the bytes that will come on it, and the calls that fail.
#[derive(Drop)]
pub(crate) struct Waiting {
    pub address: String,
    pub coming: Bytes,
    pub failing: Items<u64>,
}

impl Waiting {
    /// The link itself, which passes at most so many bytes a call.
    fn link(&self, alloc: Global, most: u32) -> Result<MemLink, AllocError>
        ensures { IfOk result (λ link. link.failures.faults ≡ 0) }
    {
        let coming = Bytes::from_slice(alloc, self.coming.as_slice())?;
        let failing = Items::from_slice(alloc, self.failing.as_slice())?;
        MemLink::new(alloc, coming, ROOM, most, failing)
    }
}

/// A child: the lines that it writes, and the status with which it ends.
#[derive(Drop)]
pub(crate) struct Writing {
    pub lines: Items<Bytes>,
    pub status: u32,
}

impl Writing {
    /// The child itself. What is no line is left out.
    fn child(&self, alloc: Global) -> Result<Child, AllocError> {
        let mut lines = Items::new(alloc);
        for bytes in self.lines.as_slice() {
            if let Some(line) = Line::from_bytes(Bytes::from_slice(alloc, bytes.as_slice())?) {
                lines.push(line)?;
            }
        }
        Ok(Child {
            lines,
            status: self.status,
        })
    }
}

/// A net that gives these links, and fails at the calls with these numbers.
pub(crate) fn net_of(
    alloc: Global,
    links: &[Waiting],
    most: u32,
    failing: Items<u64>,
) -> Result<MemNet, AllocError>
    ensures { IfOk result (λ net. net.listeners ≡ []) }
{
    let mut net = MemNet::new(alloc, failing);
    for waiting in links {
        net.add(waiting.address.as_str(), waiting.link(alloc, most)?)?;
    }
    Ok(net)
}

/// A spawner that starts these children, and fails at the calls with these numbers.
pub(crate) fn spawner_of(
    alloc: Global,
    children: &[Writing],
    failing: Items<u64>,
) -> Result<MemSpawner, AllocError>
    ensures { IfOk result (λ spawner. spawner.children ≡ []) }
{
    let mut waiting = Items::new(alloc);
    for writing in children {
        waiting.push(writing.child(alloc)?)?;
    }
    Ok(MemSpawner::new(alloc, waiting, failing))
}

/// The value of a hexadecimal digit.
fn digit(byte: u8) -> Option<u8> {
    match byte {
        b'0'..=b'9' => Some(byte - b'0'),
        b'a'..=b'f' => Some(byte - b'a' + 10),
        _ => None,
    }
}

/// Puts the bytes that are written in hexadecimal at the end, two digits each; blanks and all other bytes are left out.
pub(crate) fn push_bytes(bytes: &mut Bytes, text: &str) -> Result<(), AllocError> {
    let mut high: Option<u8> = None;
    for byte in text.as_bytes() {
        if let Some(low) = digit(*byte) {
            match high {
                None => high = Some(low),
                Some(value) => {
                    bytes.push(value.wrapping_mul(16).wrapping_add(low))?;
                    high = None;
                }
            }
        }
    }
    Ok(())
}

/// The 32 bytes that are written so, if they are 32.
pub(crate) fn drawn_of(alloc: Global, text: &str) -> Result<Option<[u8; 32]>, AllocError> {
    let mut bytes = Bytes::new(alloc);
    push_bytes(&mut bytes, text)?;
    let mut drawn = [0; 32];
    if bytes.as_slice().len() != 32 {
        return Ok(None);
    }
    drawn.copy_from_slice(bytes.as_slice());
    Ok(Some(drawn))
}
