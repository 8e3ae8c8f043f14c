//! The stream of frames between an editor and a server.

ghost use Rattle.std.specs.Prelude.{◌≡◌, ◌<◌, ◌-◌, drop, length, IsTrue, IfOk, OnOk};
ghost use Rattle.vd_lsp.specs.Streams as streams;
ghost use Rattle.vd_lsp.specs.Streams.{AddsStep, Answers, AnswersBody, IsServed};
ghost use Rattle.vd_lsp.specs.declared.serving.ServeFault.TheVariants as serve_fault;

use crate::responding::{Step, Turn, flush, respond, settled};
use crate::states::Server;
use std::alloc::{AllocError, Global};
use thiserror::Error;
use vd_base::{Bytes, Failed};
use vd_lsp_messages::{Outgoing, read_message, text_of};
use vd_lsp_wire::{Framed, frame, next_frame};
use vd_outside::{Link, send_all};

/// Why a server ended before it was asked to.
#[derive(Clone, Copy, Debug, Error)]
pub enum ServeFault {
    #[error("out of memory")]
    Memory,
    /// What came begins no frame.
    #[error("what came is no frame")]
    BadFrame,
    /// A call of the stream failed.
    #[error("the stream failed")]
    Stream,
}

impl From<AllocError> for ServeFault {
    ghost from_gives = { λ _ fault. fault ≡ serve_fault.Memory };

    fn from(_: AllocError) -> ServeFault {
        ServeFault::Memory
    }
}

impl From<Failed> for ServeFault {
    ghost from_gives = { λ _ fault. fault ≡ serve_fault.Stream };

    fn from(_: Failed) -> ServeFault {
        ServeFault::Stream
    }
}

/// Why no more messages of a stream are answered.
#[derive(Clone, Copy)]
pub enum Stop {
    /// The next frame has not come whole.
    Waits,
    /// What comes next begins no frame.
    Bad,
    /// The server was asked to end with this status.
    Ends(u8),
}

/// What became of a server by the frames that came.
#[derive(Drop)]
pub struct Ending {
    pub server: Server,
    pub stop: Stop,
    /// How many of the bytes stand behind the messages that were answered.
    pub left: usize,
}

/// A server behind one message, and the status with which it ends, where it was asked to.
#[derive(Drop)]
struct Answered {
    server: Server,
    ends: Option<u8>,
}

/// Says something, in a frame.
fn say(alloc: Global, said: &Outgoing, out: &mut Bytes) -> Result<(), AllocError>
    ensures { OnOk result (streams.Says said.now out.old out.new) }
{
    let text = text_of(alloc, said)?;
    let bytes = frame(alloc, text.as_str().as_bytes())?;
    out.extend_from_slice(bytes.as_slice())
}

/// Says what is published, if something is.
fn say_published(alloc: Global, said: &Option<Outgoing>, out: &mut Bytes) -> Result<(), AllocError>
    ensures { OnOk result (streams.SaysIf said.now out.old out.new) }
{
    match said {
        Some(said) => say(alloc, said, out),
        None => Ok(()),
    }
}

/// Says what a turn says.
fn say_turn(alloc: Global, turn: &Turn, out: &mut Bytes) -> Result<(), AllocError>
    ensures { OnOk result (streams.SaysTurn turn.now out.old out.new) }
{
    match turn {
        Turn::Says(said) => say(alloc, said, out),
        Turn::Silent | Turn::Ends(_) => Ok(()),
    }
}

/// Says what a step says.
fn say_step(alloc: Global, step: &Step, out: &mut Bytes) -> Result<(), AllocError>
    ensures { OnOk result (AddsStep step.now out.old out.new) }
{
    say_published(alloc, &step.before, out)?;
    say_turn(alloc, &step.turn, out)
}

/// The status with which a turn ends a server.
fn ends_of(turn: &Turn) -> Option<u8>
    ensures { result ≡ streams.ends_of turn.now }
{
    match turn {
        Turn::Ends(status) => Some(*status),
        Turn::Silent | Turn::Says(_) => None,
    }
}

/// Answers the message with this body.
fn answer_body(
    alloc: Global,
    server: Server,
    body: &[u8],
    out: &mut Bytes,
) -> Result<Answered, AllocError>
    ensures { IfOk result (λ answered. AnswersBody server body.now out.old out.new answered.server answered.ends) }
{
    let message = read_message(alloc, body)?;
    let step = respond(alloc, server, message)?;
    say_step(alloc, &step, out)?;
    let ends = ends_of(&step.turn);
    let Step { server, .. } = step;
    Ok(Answered { server, ends })
}

/// Why the messages of a stream are not answered that begins so.
fn stop_at(framed: Framed) -> Stop
    ensures { streams.IsStop framed.entry result }
{
    match framed {
        Framed::Bad => Stop::Bad,
        _ => Stop::Waits,
    }
}

/// Answers the messages of all whole frames with which these bytes begin, as far as none ends the server.
pub fn answer_stream(
    alloc: Global,
    server: Server,
    came: &[u8],
    out: &mut Bytes,
) -> Result<Ending, AllocError>
    ensures { IfOk result (Answers server came.now out.old out.new) }
{
    let mut server = server;
    let mut left = came;
    'frames: while let Framed::Whole(body, rest) = next_frame(left) {
        let answered = answer_body(alloc, server, body, out)?;
        let Answered { server: now, ends } = answered;
        server = now;
        left = rest;
        if let Some(status) = ends {
            return Ok(Ending {
                server,
                stop: Stop::Ends(status),
                left: left.len(),
            });
        }
    }
    let stop = stop_at(next_frame(left));
    Ok(Ending {
        server,
        stop,
        left: left.len(),
    })
}

/// Says the faults that are due, since no more messages are there.
fn say_due(alloc: Global, server: Server, out: &mut Bytes) -> Result<Server, AllocError>
    ensures { IfOk result (streams.SaysDue server out.old out.new) }
{
    let due = flush(alloc, &server)?;
    say_published(alloc, &due, out)?;
    Ok(settled(server))
}

/// What goes out for the bytes that came, and what is kept of them.
#[derive(Drop)]
struct Round {
    server: Server,
    stop: Stop,
    out: Bytes,
    /// The bytes that are no whole frame so far.
    came: Bytes,
}

/// The last bytes, so many of them, or all where there are fewer.
fn last_bytes(bytes: &[u8], count: usize) -> &[u8]
    ensures { result.now ≡ drop (length bytes.now - count) bytes.now }
{
    &bytes[bytes.len().saturating_sub(count)..]
}

/// Answers all that came.
fn answer_all(alloc: Global, server: Server, came: &[u8]) -> Result<Round, AllocError>
    ensures { IfOk result (streams.IsRound server came.now) }
{
    let mut out = Bytes::new(alloc);
    let ending = answer_stream(alloc, server, came, &mut out)?;
    let Ending { server, stop, left } = ending;
    let server = say_due(alloc, server, &mut out)?;
    let came = Bytes::from_slice(alloc, last_bytes(came, left))?;
    Ok(Round {
        server,
        stop,
        out,
        came,
    })
}

/// How many bytes are received at once.
const PIECE: usize = 4_096;

/// The next piece of a link; an empty one is its end.
fn next_piece<'a, L: Link>(link: &mut L, room: &'a mut [u8]) -> Result<&'a [u8], Failed>
    requires { 0 < length room.old }
    ensures told { (L.view link.new).told ≡ (L.view link.old).told }
    ensures piece { IsTrue (L.view link.new).told
        → IfOk result (λ piece. streams.Came piece.now (L.view link.old) (L.view link.new)) }
{
    let count = link.receive(room)? as usize;
    Ok(&room[..count])
}

/// Puts a piece behind the bytes that came, answers all, and sends that.
fn serve_piece<L: Link>(
    alloc: Global,
    link: &mut L,
    server: Server,
    came: Bytes,
    piece: &[u8],
) -> Result<Round, ServeFault>
    ensures told { IsTrue (L.view link.new).told → IsTrue (L.view link.old).told }
    ensures round { IsTrue (L.view link.new).told
        → IfOk result (streams.SendsRound server came piece.now (L.view link.old) (L.view link.new)) }
{
    let mut came = came;
    came.extend_from_slice(piece)?;
    let round = answer_all(alloc, server, came.as_slice())?;
    send_all(link, round.out.as_slice())?;
    Ok(round)
}

/// Serves over a link until it ends or a message asks for the end, and says with which status the server ends: with 1 where the
/// link ended first. What begins no frame ends the server too, and that is a fault.
pub fn serve<L: Link>(alloc: Global, link: &mut L) -> Result<u8, ServeFault>
    ensures { IsServed (L.view link.old) (L.view link.new) result }
{
    let mut room = [0u8; PIECE];
    let mut server = Server::new(alloc);
    let mut came = Bytes::new(alloc);
    'rounds: for _ in 0..u64::MAX {
        let piece = next_piece(link, &mut room)?;
        if piece.is_empty() {
            return Ok(1);
        }
        let round = serve_piece(alloc, link, server, came, piece)?;
        let Round {
            server: now,
            stop,
            came: left,
            ..
        } = round;
        server = now;
        came = left;
        match stop {
            Stop::Waits => {}
            Stop::Bad => return Err(ServeFault::BadFrame),
            Stop::Ends(status) => return Ok(status),
        }
    }
    Err(ServeFault::Stream)
}
