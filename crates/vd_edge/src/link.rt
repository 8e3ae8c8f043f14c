ghost use Rattle.std.specs.Prelude.{◌≡◌, IsTrue, [], false, true};
ghost use Rattle.vd_edge.specs.Duplex.{link_view};

use crate::Duplex;
use crate::meter::Meter;
use crate::waits::silent;
use std::io::Error;
use vd_base::Failed;
use vd_outside::Link;

const PIECE: usize = 65_536;

/// A link to another host over a stream, such as a socket: whether it has told its end, and how often it has failed. It
/// tells the bytes that the stream tells.
#[derive(Drop)]
pub struct RealLink<S: Duplex + Drop> {
    stream: S,
    ended: bool,
    /// Whether nothing is received any more, since the peer was silent for too long.
    late: bool,
    faults: u64,
    last: Option<Error>,
    sent: Meter,
    came: Meter,

    // A stream that has told its end has nothing to come.
    ghost drained: { IsTrue ended → IsTrue (S.view stream).told → (S.view stream).coming ≡ [] },
}

impl<S: Duplex + Drop> RealLink<S> {
    /// This stream, which has neither ended nor failed so far.
    pub fn new(stream: S) -> RealLink<S>
        ensures stream { result.stream ≡ stream }
        ensures ended { result.ended ≡ false }
        ensures faults { result.faults ≡ 0 }
    {
        RealLink {
            stream,
            ended: false,
            late: false,
            faults: 0,
            last: None,
            sent: Meter::new(),
            came: Meter::new(),
        }
    }

    /// Why the last call failed, where one did and the system says it.
    pub fn last(&self) -> Option<Error> {
        self.last
    }

    /// The stream.
    pub(crate) fn stream(&self) -> &S
        ensures { result.now ≡ self.now.stream }
    {
        &self.stream
    }

    /// Receives nothing any more: the peer was silent for too long.
    pub(crate) fn give_up(&mut self)
        ensures stream { self.new.stream ≡ self.old.stream }
        ensures ended { self.new.ended ≡ self.old.ended }
        ensures faults { self.new.faults ≡ self.old.faults }
        ensures late { self.new.late ≡ true }
    {
        self.late = true;
    }

    /// How many packets went out, and how many came, each of them whole.
    pub fn packets(&self) -> (u64, u64)
        ensures { result ≡ (self.now.sent.packets, self.now.came.packets) }
    {
        (self.sent.packets(), self.came.packets())
    }

    /// Whether it has told its end.
    pub(crate) fn has_ended(&self) -> bool
        ensures { result ≡ self.now.ended }
    {
        self.ended
    }
}

impl<S: Duplex + Drop> Link for RealLink<S> {
    ghost view = { λ link. link_view (S.view link.stream) link.ended link.faults };

    fn faults(&self) -> u64 {
        self.faults
    }

    fn send(&mut self, bytes: &[u8]) -> Result<u32, Failed> {
        let most = bytes.len().min(PIECE);
        match self.stream.take(&bytes[..most]) {
            Ok(count) if count > 0 => {
                self.sent.pass(&bytes[..count]);
                Ok(count as u32)
            }
            failed => {
                self.last = failed.err();
                self.faults = self.faults.saturating_add(1);
                Err(Failed)
            }
        }
    }

    fn receive(&mut self, into: &mut [u8]) -> Result<u32, Failed> {
        if self.ended {
            return Ok(0);
        }
        if self.late {
            self.last = Some(silent());
            self.faults = self.faults.saturating_add(1);
            return Err(Failed);
        }
        let most = into.len().min(PIECE);
        match self.stream.give(&mut into[..most]) {
            Ok(count) => {
                self.ended = count == 0;
                self.came.pass(&into[..count]);
                Ok(count as u32)
            }
            Err(error) => {
                self.last = Some(error);
                self.faults = self.faults.saturating_add(1);
                Err(Failed)
            }
        }
    }
}
