ghost use Rattle.std.specs.Prelude.{◌≡◌, ◌≤◌, ℕ, List, Option, IfOk, IfSome, IsSome, IsTrue, ⊤};

use crate::comers::{
    GREETING_SECONDS, SystemListener, Wanted, accept_first, accept_greeting, left, looked_at,
    pause, seconds_of, turn,
};
use crate::waits::silent;
use crate::{Duplex, SystemStream, Waits};
use std::alloc::Global;
use std::io::{self, ErrorKind, Read, Write};
use std::net::{Net as Network, OpenListener, OpenStream, TcpListener, TcpStream, ToSocketAddrs};
use std::thread;
use std::time::{Clock, Duration, Instant};

/// Sockets at addresses, as a system has them.
pub trait Sockets {
    type Stream: Duplex + Drop;

    type Listener: Drop;

    /// A listener listens at an address.
    ghost listens_at: { Self.Listener → List ℕ → Type 0 };

    /// A stream came to a listener.
    ghost came_to: { Self.Stream → Self.Listener → Type 0 };

    /// A stream was given to who awaited this greeting.
    ghost greets: { Self.Stream → List ℕ → Type 0 };

    /// So many bytes are taken from a stream without a wait.
    ghost at_hand: { Self.Stream → ℕ → Type 0 };

    /// A stream leads to an address.
    ghost leads_to: { Self.Stream → List ℕ → Type 0 };

    /// For how many seconds at most each wait lasts, where there is such a limit.
    ghost limit: { Self → Option ℕ };

    /// Lets no wait be longer than so many seconds from now on, also on the streams that are then given.
    fn wait_at_most(&mut self, seconds: Option<u32>)
        ensures { limit self.new ≡ seconds };

    /// Listens at an address.
    fn listen(&self, address: &str) -> io::Result<Self::Listener>
        ensures { IfOk result (λ listener. listens_at listener address.now) };

    /// The next stream that comes to a listener, where this greeting is awaited. Those that begin otherwise may be let go.
    fn accept(&self, listener: &mut Self::Listener, greeting: &[u8]) -> io::Result<Self::Stream>
        ensures came { IfOk result (λ stream. came_to stream listener.old) }
        ensures greets { IfOk result (λ stream. greets stream greeting.now) };

    /// One that came to a listener, over which so many bytes have come, of which these are the first; `None` where a moment went by without
    /// one. Those who come are awaited side by side, and stay until they are given.
    fn next_comer(
        &self,
        listener: &mut Self::Listener,
        front: &[u8],
        count: u32,
    ) -> io::Result<Option<Self::Stream>>
        ensures came { IfOk result (λ found. IfSome found (λ stream. came_to stream listener.old)) }
        ensures at_hand { IfOk result (λ found. IfSome found (λ stream. at_hand stream count)) };

    /// Whether so many bytes are taken from a stream without a wait: they have come, or no more will. `None` where that is to be seen. They
    /// have ten seconds, from when the stream was made: then it is not so.
    fn has_come(&self, stream: &Self::Stream, count: u32) -> Option<bool>
        ensures told { IsTrue (Self.Stream.view stream.now).told → IsSome result }
        ensures at_hand { IfSome result (λ came. IsTrue came → at_hand stream.now count) };

    /// Waits until that is seen.
    fn await_bytes(&self, stream: &Self::Stream, count: u32) -> bool
        ensures { IsTrue result → at_hand stream.now count };

    /// A stream to an address.
    fn connect(&self, address: &str) -> io::Result<Self::Stream>
        ensures { IfOk result (λ stream. leads_to stream address.now) };
}

/// The TCP sockets of a runtime.
#[derive(Drop)]
pub struct SystemSockets<R: Network + Clock + Drop> {
    rt: R,
    alloc: Global,
    waits: Waits,
}

impl<R: Network + Clock + Drop> SystemSockets<R> {
    /// The sockets of this runtime, which wait for peers as these waits say.
    pub fn new(rt: R, alloc: Global, waits: Waits) -> SystemSockets<R>
        ensures { result.waits ≡ waits }
    {
        SystemSockets { rt, alloc, waits }
    }
}

/// The same address, if a port stands in it.
fn with_port(address: &str) -> io::Result<&str>
    ensures { IfOk result (λ same. same.now ≡ address.now) }
{
    if address.contains(':') {
        Ok(address)
    } else {
        let without = io::Error::new(ErrorKind::InvalidInput, "no port in the address");
        Err(without)
    }
}

/// Whether a peer that cannot be reached may be reached later.
fn may_come(error: &io::Error) -> bool {
    matches!(
        error.kind(),
        ErrorKind::ConnectionRefused
            | ErrorKind::HostUnreachable
            | ErrorKind::NetworkUnreachable
            | ErrorKind::NetworkDown
            | ErrorKind::TimedOut
            | ErrorKind::Interrupted
    )
}

/// A stream that was made, unless it is the own one: both its ends are one address, since nobody listens there.
fn not_own<S: OpenStream + Drop>(stream: S) -> io::Result<S> {
    match (stream.local_addr(), stream.peer_addr()) {
        (Ok(here), Ok(there)) if here == there => {
            Err(io::Error::from(ErrorKind::ConnectionRefused))
        }
        _ => Ok(stream),
    }
}

/// For how many seconds a machine is tried at most, where so many tries came to nothing: for longer each time, since the way to it may be
/// long, and never for so long that a run which is over goes unnoticed.
fn patience(tries: u64) -> u64
    ensures first { tries ≡ 0 → result ≡ 1 }
    ensures later { 3 ≤ tries → result ≡ 8 }
    ensures most { result ≤ 8 }
{
    match tries {
        0 => 1,
        1 => 2,
        2 => 4,
        _ => 8,
    }
}

/// A stream to an address. Each machine that goes by it is tried for so many seconds at most, and for no longer than is left of a wait
/// that began then.
fn connect_once<R: Network + Clock>(
    rt: &R,
    address: &str,
    start: &Instant,
    limit: Duration,
    seconds: u64,
) -> io::Result<R::Stream> {
    let mut last = io::Error::from(ErrorKind::InvalidInput);
    for to in address.to_socket_addrs(rt)? {
        let Some(left) = left(rt, start, limit)? else {
            return Err(silent());
        };
        match rt.connect_timeout(to, left.min(Duration::from_secs(seconds))) {
            Ok(stream) => match not_own(stream) {
                Ok(stream) => return Ok(stream),
                Err(error) => last = error,
            },
            Err(error) => last = error,
        }
    }
    Err(last)
}

/// A stream to an address. It is tried again each half second, as long as a wait may last, and with more patience each time.
fn connect_soon<R: Network + Clock>(
    rt: &R,
    waits: &Waits,
    address: &str,
    limit: Duration,
) -> io::Result<R::Stream> {
    let start = Instant::now(rt)?;
    for tries in 0..u64::MAX {
        let error = match connect_once(rt, address, &start, limit, patience(tries)) {
            Ok(stream) => return Ok(stream),
            Err(error) => error,
        };
        match left(rt, &start, limit)? {
            Some(left) if may_come(&error) => {
                waits.go_on()?;
                thread::sleep(rt, left.min(Duration::from_millis(500)));
            }
            _ => return Err(error),
        }
    }
    Err(silent())
}

/// A stream to an address.
fn connected<R: Network + Clock>(rt: &R, waits: &Waits, address: &str) -> io::Result<R::Stream> {
    match waits.seconds() {
        None => not_own(TcpStream::connect(rt, address)?),
        Some(seconds) => connect_soon(rt, waits, address, seconds_of(seconds)),
    }
}

/// Whether so many bytes are taken from a stream without a wait, and `None` where that is to be seen. They have ten seconds from when it
/// was made, and no longer than a wait may last.
fn at_hand<R: Clock, S: Read + Write + OpenStream + Drop>(
    rt: &R,
    waits: &Waits,
    stream: &SystemStream<S>,
    count: u32,
) -> io::Result<Option<bool>> {
    let wanted = Wanted {
        greeting: &[],
        count: count as usize,
    };
    stream.stream().set_nonblocking(true)?;
    let (_, found) = looked_at(stream.stream(), wanted);
    stream.stream().set_nonblocking(false)?;
    let seconds = match waits.seconds() {
        Some(seconds) => seconds.min(GREETING_SECONDS),
        None => GREETING_SECONDS,
    };
    match found {
        Some(_) => Ok(Some(true)),
        None if left(rt, &stream.made(), seconds_of(seconds))?.is_none() => Ok(Some(false)),
        None => Ok(None),
    }
}

impl<R: Network + Clock + Drop> Sockets for SystemSockets<R> {
    type Stream = SystemStream<R::Stream>;

    type Listener = SystemListener<R::Listener, R::Stream>;

    ghost listens_at = { λ listener address. ⊤ };

    ghost came_to = { λ stream listener. ⊤ };

    ghost greets = { λ stream greeting. ⊤ };

    ghost at_hand = { λ stream count. ⊤ };

    ghost leads_to = { λ stream address. ⊤ };

    ghost limit = { λ sockets. sockets.waits.seconds };

    fn wait_at_most(&mut self, seconds: Option<u32>) {
        self.waits = self.waits.within(seconds);
    }

    fn listen(&self, address: &str) -> io::Result<SystemListener<R::Listener, R::Stream>> {
        let listener = TcpListener::bind(&self.rt, with_port(address)?)?;
        listener.set_nonblocking(true)?;
        Ok(SystemListener::new(self.alloc, listener))
    }

    fn accept(
        &self,
        listener: &mut SystemListener<R::Listener, R::Stream>,
        greeting: &[u8],
    ) -> io::Result<SystemStream<R::Stream>> {
        let stream = if self.waits.seconds().is_some() {
            accept_greeting(&self.rt, &self.waits, listener, greeting)?
        } else {
            accept_first(&self.rt, &self.waits, listener)?
        };
        SystemStream::new(stream, self.waits, Instant::now(&self.rt)?)
    }

    fn next_comer(
        &self,
        listener: &mut SystemListener<R::Listener, R::Stream>,
        front: &[u8],
        count: u32,
    ) -> io::Result<Option<SystemStream<R::Stream>>> {
        let wanted = Wanted {
            greeting: front,
            count: count as usize,
        };
        match turn(&self.rt, &self.waits, listener, wanted)? {
            Some(comer) => {
                let (stream, came) = comer.into_parts();
                Ok(Some(SystemStream::new(stream, self.waits, came)?))
            }
            None => Ok(None),
        }
    }

    fn has_come(&self, stream: &SystemStream<R::Stream>, count: u32) -> Option<bool> {
        at_hand(&self.rt, &self.waits, stream, count).unwrap_or(Some(true))
    }

    fn await_bytes(&self, stream: &SystemStream<R::Stream>, count: u32) -> bool {
        for _ in 0..u64::MAX {
            if let Some(found) = self.has_come(stream, count) {
                return found;
            }
            if self.waits.go_on().is_err() {
                return false;
            }
            pause(&self.rt);
        }
        false
    }

    fn connect(&self, address: &str) -> io::Result<SystemStream<R::Stream>> {
        let stream = connected(&self.rt, &self.waits, with_port(address)?)?;
        SystemStream::new(stream, self.waits, Instant::now(&self.rt)?)
    }
}
