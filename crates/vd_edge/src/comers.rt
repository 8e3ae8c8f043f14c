//! Those who came to a listener. They are awaited side by side.

ghost use Rattle.std.specs.Prelude.{◌≡◌, ◌*◌};
ghost use Rattle.std.specs.Duration.{as_nanos};
ghost use Rattle.vd_edge.specs.Greetings.{is_greeting};

use crate::Waits;
use crate::duplex::{is_early, is_interrupted};
use crate::waits::silent;
use std::alloc::Global;
use std::io::{self, ErrorKind};
use std::net::{OpenListener, OpenStream};
use std::thread;
use std::time::{Clock, Duration, Instant};

/// How long one who came may take for its greeting, in seconds.
pub(crate) const GREETING_SECONDS: u32 = 10;

/// How many who came are awaited at once. For one more the one goes that has been silent longest.
const MOST_COMERS: usize = 64;

/// The most bytes that are looked at ahead.
const FRONT_BYTES: usize = 128;

/// The errors of a listener that want room: too many files are open, or there is no place for more.
const WANTS: [i32; 3] = [23, 24, 105];

/// The errors of a listener that are those of one who came and is gone: the network, the protocol, or a connection that was aborted.
const GONE: [i32; 11] = [1, 64, 71, 92, 95, 100, 101, 103, 112, 113, 110];

/// A pause between two times that something is asked for.
pub(crate) fn pause<R: Clock>(rt: &R) {
    thread::sleep(rt, Duration::from_millis(5));
}

/// What is left of a wait that began then and may last so long, and `None` where it is over.
pub(crate) fn left<R: Clock>(
    rt: &R,
    start: &Instant,
    most: Duration,
) -> io::Result<Option<Duration>> {
    match most.checked_sub(start.elapsed(rt)?) {
        Some(left) if !left.is_zero() => Ok(Some(left)),
        _ => Ok(None),
    }
}

/// So many seconds, as long as they last.
pub(crate) fn seconds_of(count: u32) -> Duration
    ensures { as_nanos result ≡ count * 1_000_000_000 }
{
    Duration::from_secs(u64::from(count))
}

/// Whether a wait that began then has lasted as long as it may.
fn is_over<R: Clock>(rt: &R, waits: &Waits, start: &Instant) -> io::Result<bool> {
    match waits.seconds() {
        Some(seconds) => Ok(left(rt, start, seconds_of(seconds))?.is_none()),
        None => Ok(false),
    }
}

/// What is awaited of one who came: so many bytes, of which these are the first.
#[derive(Clone, Copy)]
pub(crate) struct Wanted<'a> {
    pub greeting: &'a [u8],
    pub count: usize,
}

/// Whether what came so far is a greeting, and `None` where it is a prefix of one.
fn is_greeting(came: &[u8], greeting: &[u8]) -> Option<bool>
    ensures { result ≡ is_greeting came.now greeting.now }
{
    if !greeting.starts_with(came) {
        Some(false)
    } else if came.len() < greeting.len() {
        None
    } else {
        Some(true)
    }
}

/// Whether what came so far is what is wanted, and `None` where that is to be seen.
fn is_wanted(came: &[u8], wanted: Wanted) -> Option<bool> {
    let front = came.len().min(wanted.greeting.len());
    match is_greeting(&came[..front], wanted.greeting) {
        Some(true) if came.len() < wanted.count => None,
        found => found,
    }
}

/// How many bytes came over a stream so far, and whether they are what is wanted; `None` where that is to be seen. A stream that ended
/// or failed before has not brought it.
pub(crate) fn looked_at<S: OpenStream>(stream: &S, wanted: Wanted) -> (usize, Option<bool>) {
    let most = wanted.count.min(FRONT_BYTES);
    if most == 0 {
        return (0, Some(true));
    }
    let mut front = [0u8; FRONT_BYTES];
    match stream.peek(&mut front[..most]) {
        Ok(0) => (0, Some(false)),
        Ok(count) => (count, is_wanted(&front[..count], wanted)),
        Err(error) if is_early(&error) || is_interrupted(&error) => (0, None),
        Err(_) => (0, Some(false)),
    }
}

/// A stream that came, when, how many bytes came over it, and when the last of them did.
#[derive(Drop)]
pub(crate) struct Comer<S: Drop> {
    pub stream: S,
    pub came: Instant,
    heard: usize,
    spoke: Instant,
}

impl<S: Drop> Comer<S> {
    /// The stream, and when it came.
    pub(crate) fn into_parts(self) -> (S, Instant) {
        let Comer { stream, came, .. } = self;
        (stream, came)
    }
}

/// Where the one stands that has been silent longest.
fn longest_silent<S: Drop>(comers: &[Comer<S>]) -> usize {
    let mut longest = 0usize;
    let mut since: Option<Instant> = None;
    for place in 0..comers.len() {
        let spoke = comers[place].spoke;
        match since {
            Some(least) if least <= spoke => {}
            _ => {
                since = Some(spoke);
                longest = place;
            }
        }
    }
    longest
}

/// A listener of the system, and those who came to it and wait.
#[derive(Drop)]
pub struct SystemListener<L: Drop, S: Drop> {
    listener: L,
    /// When the wait at it began, where it did.
    began: Option<Instant>,
    comers: Vec<Comer<S>>,
    /// How many were let go, or given: where the wait goes on they were strangers.
    strangers: u32,
}

impl<L: Drop, S: Drop> SystemListener<L, S> {
    /// This listener, to which nobody came so far. Its calls are not to wait.
    pub(crate) fn new(alloc: Global, listener: L) -> SystemListener<L, S> {
        SystemListener {
            listener,
            began: None,
            comers: Vec::new(alloc),
            strangers: 0,
        }
    }

    /// When the wait at it began: now, where it did not before.
    fn began<R: Clock>(&mut self, rt: &R) -> io::Result<Instant> {
        match self.began {
            Some(began) => Ok(began),
            None => {
                let now = Instant::now(rt)?;
                self.began = Some(now);
                Ok(now)
            }
        }
    }

    /// The one at a place is let go.
    fn let_go(&mut self, place: usize) {
        if place < self.comers.len() {
            let _ = self.comers.remove(place);
            self.strangers = self.strangers.saturating_add(1);
        }
    }

    /// The one is let go that has been silent longest, if there is one.
    fn make_room(&mut self) {
        let place = longest_silent(&self.comers);
        self.let_go(place);
    }

    /// Why nobody was given for as long as a wait may last: nobody came, or none who came greeted as it is awaited.
    fn unmet(&self) -> io::Error {
        if self.strangers == 0 && self.comers.is_empty() {
            silent()
        } else {
            io::Error::new(ErrorKind::InvalidData, "nobody greeted as it is awaited")
        }
    }
}

/// Whether an error is one of these of the system.
fn is_one_of(error: &io::Error, numbers: &[i32]) -> bool {
    match error.raw_os_error() {
        Some(number) => numbers.contains(&number),
        None => false,
    }
}

/// The next stream that comes to a listener, if somebody is there. Where the system has no room for one more, the one is let go that has
/// been silent longest. Who is gone before that is nobody.
fn next_stream<S: Drop, L: OpenListener<Stream = S> + Drop>(
    place: &mut SystemListener<L, S>,
) -> io::Result<Option<S>> {
    match place.listener.accept() {
        Ok((stream, _)) => Ok(Some(stream)),
        Err(error) if is_early(&error) || is_interrupted(&error) => Ok(None),
        Err(error) if is_one_of(&error, &WANTS) => {
            place.make_room();
            Ok(None)
        }
        Err(error) if is_one_of(&error, &GONE) => Ok(None),
        Err(error) => Err(error),
    }
}

/// One more is let in, if somebody is there; says whether that was so. Where too many wait, the one is let go that has been silent longest.
fn let_in<R: Clock, S: OpenStream + Drop, L: OpenListener<Stream = S> + Drop>(
    rt: &R,
    place: &mut SystemListener<L, S>,
) -> io::Result<bool> {
    let Some(stream) = next_stream(place)? else {
        return Ok(false);
    };
    if place.comers.len() >= MOST_COMERS {
        place.make_room();
    }
    if stream.set_nonblocking(true).is_ok() {
        let came = Instant::now(rt)?;
        place.comers.push(Comer {
            stream,
            came,
            heard: 0,
            spoke: came,
        })?;
    }
    Ok(true)
}

/// Whether one who came has brought what is wanted, and `None` where that is to be seen. Who takes too long has not.
fn look_at<R: Clock, S: OpenStream + Drop>(
    rt: &R,
    comer: &mut Comer<S>,
    wanted: Wanted,
) -> io::Result<Option<bool>> {
    let (heard, found) = looked_at(&comer.stream, wanted);
    if heard > comer.heard {
        comer.heard = heard;
        comer.spoke = Instant::now(rt)?;
    }
    let most = seconds_of(GREETING_SECONDS);
    match found {
        None if left(rt, &comer.came, most)?.is_none() => Ok(Some(false)),
        found => Ok(found),
    }
}

/// The first of those who came that has brought what is wanted. Those who did not are let go, and the others stay.
fn choose<R: Clock, S: OpenStream + Drop, L: Drop>(
    rt: &R,
    place: &mut SystemListener<L, S>,
    wanted: Wanted,
) -> io::Result<Option<Comer<S>>> {
    let mut next = 0usize;
    for _ in 0..=MOST_COMERS {
        if next >= place.comers.len() {
            break;
        }
        match look_at(rt, &mut place.comers[next], wanted)? {
            Some(true) => {
                place.strangers = place.strangers.saturating_add(1);
                return Ok(Some(place.comers.remove(next)));
            }
            Some(false) => place.let_go(next),
            None => next += 1,
        }
    }
    Ok(None)
}

/// One turn of the wait for a peer at a listener: one who brought what is wanted; `None` where a moment went by without one. It is an error
/// where the wait is over, which began with its first turn.
pub(crate) fn turn<R: Clock, S: OpenStream + Drop, L: OpenListener<Stream = S> + Drop>(
    rt: &R,
    waits: &Waits,
    place: &mut SystemListener<L, S>,
    wanted: Wanted,
) -> io::Result<Option<Comer<S>>> {
    let began = place.began(rt)?;
    let came = let_in(rt, place)?;
    if let Some(comer) = choose(rt, place, wanted)? {
        return Ok(Some(comer));
    }
    if is_over(rt, waits, &began)? {
        return Err(place.unmet());
    }
    waits.go_on()?;
    if !came {
        pause(rt);
    }
    Ok(None)
}

/// The next stream that comes to a listener, whatever it brings.
pub(crate) fn accept_first<R: Clock, S: OpenStream + Drop, L: OpenListener<Stream = S> + Drop>(
    rt: &R,
    waits: &Waits,
    place: &mut SystemListener<L, S>,
) -> io::Result<S> {
    for _ in 0..u64::MAX {
        match next_stream(place)? {
            Some(stream) => return Ok(stream),
            None => pause(rt),
        }
        waits.go_on()?;
    }
    Err(silent())
}

/// The first who comes to a listener and greets so, as long as a wait may last. All who come are awaited side by side, so that nobody
/// waits behind a silent stranger.
pub(crate) fn accept_greeting<R: Clock, S: OpenStream + Drop, L: OpenListener<Stream = S> + Drop>(
    rt: &R,
    waits: &Waits,
    place: &mut SystemListener<L, S>,
    greeting: &[u8],
) -> io::Result<S> {
    let wanted = Wanted {
        greeting,
        count: greeting.len(),
    };
    for _ in 0..u64::MAX {
        if let Some(comer) = turn(rt, waits, place, wanted)? {
            let (stream, _) = comer.into_parts();
            return Ok(stream);
        }
    }
    Err(silent())
}
