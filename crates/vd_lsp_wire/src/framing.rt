//! Frames of the base protocol.

ghost use Rattle.std.specs.Prelude.{◌≡◌, ◌≤◌, ◌-◌, length, drop, IfOk};
ghost use Rattle.vd_base_codec.specs.Reading.{Gives};
ghost use Rattle.vd_lsp_wire.specs.Frames as frames;

use itoa::Buffer;
use std::alloc::{AllocError, Global};
use vd_base_codec::{Cursor, Stopped};

/// The most bytes of a body.
pub const MOST_BODY: u32 = 1_048_576;

/// The head of a frame with a body of this length.
#[tactic(auto, unfolding(crate::specs::Frames::head))]
fn head(alloc: Global, len: usize) -> Result<Vec<u8>, AllocError>
    ensures { IfOk result (λ text. text.items ≡ frames.head len) }
{
    let mut text = Vec::new(alloc);
    text.extend_from_slice(b"Content-Length: ")?;
    text.extend_from_slice(Buffer::new().format(len).as_bytes())?;
    text.extend_from_slice(b"\r\n\r\n")?;
    Ok(text)
}

/// A body in its frame.
pub fn frame(alloc: Global, body: &[u8]) -> Result<Vec<u8>, AllocError>
    ensures { IfOk result (λ text. text.items ≡ frames.frame body.now) }
{
    let mut text = head(alloc, body.len())?;
    text.extend_from_slice(body)?;
    Ok(text)
}

/// What a stream begins with.
#[derive(Clone, Copy)]
pub enum Framed<'a> {
    /// No frame so far: more is to come.
    Short,
    /// What no frame begins with.
    Bad,
    /// A frame with this body, and the bytes behind it.
    Whole(&'a [u8], &'a [u8]),
}

/// Passes over a head, and says which length it writes.
fn read_head(cursor: &mut Cursor) -> Result<u32, Stopped>
    ensures { Gives result cursor.new (frames.head_at cursor.old) }
{
    cursor.literal(b"Content-Length:")?;
    let len = cursor.field(MOST_BODY)?;
    cursor.literal(b"\r\n\r\n")?;
    Ok(len)
}

/// The body of this length at the front of what stands behind a head.
fn body_of(left: &[u8], len: usize) -> Framed
    ensures { frames.IsCut len left.now result }
{
    if left.len() < len {
        Framed::Short
    } else {
        Framed::Whole(&left[..len], &left[len..])
    }
}

/// What a stream begins with of which no head was read, and these bytes were left.
fn unread<'a>(left: &[u8]) -> Framed<'a>
    ensures { frames.IsUnread left.now result }
{
    match left {
        [] => Framed::Short,
        [_wrong, ..] => Framed::Bad,
    }
}

/// The last bytes of a stream, of which there are so many.
fn behind(stream: &[u8], count: usize) -> &[u8]
    requires { count ≤ length stream.now }
    ensures { result.now ≡ drop (length stream.now - count) stream.now }
{
    &stream[stream.len() - count..]
}

/// What a stream begins with.
pub fn next_frame(stream: &[u8]) -> Framed
    ensures { frames.IsFramed stream.now result }
{
    let mut cursor = Cursor::new(stream);
    match read_head(&mut cursor) {
        Ok(len) => body_of(behind(stream, cursor.len()), len as usize),
        Err(_) => unread(cursor.as_slice()),
    }
}
