ghost use Rattle.std.specs.Prelude.{◌≡◌, ◌<◌, ◌≤◌, ◌+◌, IfSome, [], false, ⊤};

use std::alloc::Global;
use std::io::{self, Write};
use std::net::{Net as Network, OpenListener, TcpListener};
use std::os::unix::process::parent_id;
use std::process::Process;
use std::time::Clock;
use vd_edge::{Duplex, RealNet, Sockets, SystemSockets, Waits};
use vd_outside::{Link, Net};

/// What is known of the process that started this one.
#[derive(Clone, Copy, Debug)]
enum Parent {
    /// Nothing.
    Unknown,
    /// It runs.
    Runs,
    /// It is gone.
    Gone,
}

/// A meeting over the loopback: who comes to a listener, and who is awaited there.
#[derive(Drop)]
struct Meeting {
    name: &'static str,
    parent: Parent,
    /// The limit of each wait, in seconds.
    seconds: Option<u32>,
    /// Whether another listener was made before.
    second: bool,
    /// What a stranger sends who comes first, if one does.
    stranger: Option<&'static [u8]>,
    /// What the peer sends, if it comes.
    peer: Option<&'static [u8]>,
    greeting: &'static [u8],
}

/// A meeting of a peer that sends `abc` with one who awaits no greeting.
const PLAIN: Meeting = Meeting {
    name: "one link",
    parent: Parent::Unknown,
    seconds: None,
    second: false,
    stranger: None,
    peer: Some(b"abc"),
    greeting: b"",
};

/// Meetings. Without a limit the link is given to the stranger, and within one to the peer, which greets as it is awaited.
const MEETINGS: [Meeting; 10] = [
    PLAIN,
    Meeting {
        name: "one link, watched",
        parent: Parent::Runs,
        ..PLAIN
    },
    Meeting {
        name: "two listeners",
        second: true,
        ..PLAIN
    },
    Meeting {
        name: "two listeners, watched",
        parent: Parent::Runs,
        second: true,
        ..PLAIN
    },
    Meeting {
        name: "nobody comes, orphaned",
        parent: Parent::Gone,
        peer: None,
        ..PLAIN
    },
    Meeting {
        name: "nobody comes within a second",
        seconds: Some(1),
        peer: None,
        ..PLAIN
    },
    Meeting {
        name: "a stranger first",
        stranger: Some(b"axc"),
        greeting: b"abc",
        ..PLAIN
    },
    Meeting {
        name: "a stranger first, limited",
        seconds: Some(10),
        stranger: Some(b"axc"),
        greeting: b"abc",
        ..PLAIN
    },
    Meeting {
        name: "a silent one first, limited",
        seconds: Some(10),
        stranger: Some(b""),
        greeting: b"abc",
        ..PLAIN
    },
    Meeting {
        name: "a stranger alone",
        seconds: Some(1),
        stranger: Some(b"axc"),
        peer: None,
        greeting: b"abc",
        ..PLAIN
    },
];

/// An address on the loopback that was free a moment ago.
fn free_address<R: Network>(alloc: Global, rt: &R) -> Option<String> {
    let listener = TcpListener::bind(rt, "127.0.0.1:0").ok()?;
    let address = listener.local_addr().ok()?;
    format!(in alloc; "{address}").ok()
}

/// The number of a listener at an address.
fn listener_at<N: Net>(net: &mut N, address: &str) -> Option<u32>
    requires { (N.view net.old).given < u32.MAX }
    ensures number { IfSome result (λ listener. listener < (N.view net.new).given) }
    ensures most { (N.view net.new).given ≤ (N.view net.old).given + 1 }
{
    net.listen(address).ok()
}

/// The number of a listener at the second address, made behind one at the first if that is wanted.
fn last_listener<N: Net>(net: &mut N, first: &str, address: &str, second: bool) -> Option<u32>
    requires { (N.view net.old).given ≤ 4294967000 }
    ensures { IfSome result (λ listener. listener < (N.view net.new).given) }
{
    if second {
        let _ = listener_at(net, first);
    }
    listener_at(net, address)
}

/// Whether all these bytes are sent over a link.
fn takes<L: Link>(link: &mut L, bytes: &[u8]) -> bool {
    if bytes.is_empty() {
        return true;
    }
    match link.send(bytes) {
        Ok(sent) => sent as usize == bytes.len(),
        Err(_) => false,
    }
}

/// A link to an address over which these bytes go; none where nobody comes, or where they do not go.
fn link_of<N: Net>(net: &mut N, address: &str, bytes: Option<&[u8]>) -> Option<N::Link>
    ensures { (N.view net.new).given ≡ (N.view net.old).given }
{
    let bytes = bytes?;
    let mut link = net.connect(address).ok()?;
    if takes(&mut link, bytes) {
        Some(link)
    } else {
        None
    }
}

/// How many bytes come over a link, and the second of them.
fn front_of<L: Link>(link: &mut Option<L>) -> Option<(u32, u8)> {
    let link = link.as_mut()?;
    let mut into = [0u8; 8];
    let came = link.receive(&mut into).ok()?;
    Some((came, into[1]))
}

/// Hands a link back, if there is one.
fn hang_up<N: Net>(net: &mut N, link: Option<N::Link>) {
    if let Some(link) = link {
        net.hang_up(link);
    }
}

/// What comes of a meeting: the number of the listener, and what passes over the link that it is given, at first and behind its end.
type Met = (u32, Option<(u32, u8)>, Option<(u32, u8)>);

/// What comes of a meeting at an address.
fn meet<N: Net>(net: &mut N, first: &str, address: &str, meeting: &Meeting) -> Option<Met>
    requires { (N.view net.old).given ≤ 4294967000 }
{
    let listener = last_listener(net, first, address, meeting.second)?;
    let stranger = link_of(net, address, meeting.stranger);
    let peer = link_of(net, address, meeting.peer);
    let mut here = net.accept(listener, meeting.greeting).ok();
    let front = front_of(&mut here);
    hang_up(net, stranger);
    hang_up(net, peer);
    let behind = front_of(&mut here);
    hang_up(net, here);
    Some((listener, front, behind))
}

/// What is waited for by a net, as a meeting says.
fn waits_of(process: Process, parent: Parent) -> Waits {
    let number = match parent {
        Parent::Unknown => None,
        Parent::Runs => Some(parent_id(process)),
        Parent::Gone => Some(0),
    };
    Waits::new(process, number)
}

/// Two addresses on the loopback that were free a moment ago.
fn two_addresses<R: Network>(alloc: Global, rt: &R) -> Option<(String, String)> {
    let first = free_address(alloc, rt)?;
    let second = free_address(alloc, rt)?;
    Some((first, second))
}

/// What comes of a meeting at the second of these addresses, and how often the net failed.
fn met_at<R: Network + Clock + Drop>(
    alloc: Global,
    rt: R,
    waits: Waits,
    first: &str,
    address: &str,
    meeting: &Meeting,
) -> (Option<Met>, u64) {
    let mut net = RealNet::new(SystemSockets::new(rt, alloc, waits), alloc);
    net.wait_at_most(meeting.seconds);
    let came = meet(&mut net, first, address, meeting);
    (came, net.faults())
}

/// What comes of a meeting, and how often the net failed; nothing where no address was free.
fn met<R: Network + Clock + Drop>(
    alloc: Global,
    rt: R,
    waits: Waits,
    meeting: &Meeting,
) -> Option<(Option<Met>, u64)> {
    let (first, address) = two_addresses(alloc, &rt)?;
    Some(met_at(alloc, rt, waits, first.as_str(), address.as_str(), meeting))
}

/// Prints what comes of a meeting.
fn print_meeting<W: Write, R: Network + Clock + Clone + Drop>(
    to: &mut W,
    rt: &R,
    alloc: Global,
    process: Process,
    meeting: &Meeting,
) -> io::Result<()> {
    let waits = waits_of(process, meeting.parent);
    let came = met(alloc, rt.clone()?, waits, meeting);
    writeln!(to, "{}: {came:?}", meeting.name)
}

/// How often a net failed that went to an address at which nobody listens, and whether a link was given there.
fn gone_alone<R: Network + Clock + Drop>(
    alloc: Global,
    rt: R,
    waits: Waits,
    seconds: Option<u32>,
) -> Option<(bool, u64)> {
    let address = free_address(alloc, &rt)?;
    let mut net = RealNet::new(SystemSockets::new(rt, alloc, waits), alloc);
    net.wait_at_most(seconds);
    let link = net.connect(address.as_str());
    Some((link.is_ok(), net.faults()))
}

/// Prints what comes of going to an address at which nobody listens.
fn print_gone_alone<W: Write, R: Network + Clock + Clone + Drop>(
    to: &mut W,
    rt: &R,
    alloc: Global,
    process: Process,
    parent: Parent,
) -> io::Result<()> {
    let came = gone_alone(alloc, rt.clone()?, waits_of(process, parent), None);
    writeln!(to, "nobody listens, {parent:?}: {came:?}")
}

/// A stream that takes all bytes, and over which the same byte comes for ever.
#[derive(Drop)]
struct Constant {
    byte: u8,
}

impl Duplex for Constant {
    ghost view = { λ stream. record { told = false; sent = []; coming = [] } };

    fn take(&mut self, bytes: &[u8]) -> io::Result<usize> {
        Ok(bytes.len())
    }

    fn give(&mut self, into: &mut [u8]) -> io::Result<usize> {
        into.fill(self.byte);
        Ok(into.len())
    }
}

/// What is answered of the bytes of a stream.
#[derive(Clone, Copy, Debug)]
enum Coming {
    /// That is still to be seen, and a wait ends with them.
    Later,
    /// They have come.
    Here,
    /// They do not come in time.
    Late,
}

/// Sockets in memory, on which whoever is wanted is there, and which answer so of the bytes of each stream.
#[derive(Drop)]
struct Answering {
    coming: Coming,
    limit: Option<u32>,
}

impl Sockets for Answering {
    type Stream = Constant;

    type Listener = Constant;

    ghost listens_at = { λ listener address. ⊤ };

    ghost came_to = { λ stream listener. ⊤ };

    ghost greets = { λ stream greeting. ⊤ };

    ghost at_hand = { λ stream count. ⊤ };

    ghost leads_to = { λ stream address. ⊤ };

    ghost limit = { λ sockets. sockets.limit };

    fn wait_at_most(&mut self, seconds: Option<u32>) {
        self.limit = seconds;
    }

    fn listen(&self, _address: &str) -> io::Result<Constant> {
        Ok(Constant { byte: 1 })
    }

    fn accept(&self, _listener: &mut Constant, _greeting: &[u8]) -> io::Result<Constant> {
        Ok(Constant { byte: 2 })
    }

    fn next_comer(
        &self,
        _listener: &mut Constant,
        _front: &[u8],
        _count: u32,
    ) -> io::Result<Option<Constant>> {
        Ok(None)
    }

    fn has_come(&self, _stream: &Constant, _count: u32) -> Option<bool> {
        match self.coming {
            Coming::Later => None,
            Coming::Here => Some(true),
            Coming::Late => Some(false),
        }
    }

    fn await_bytes(&self, _stream: &Constant, _count: u32) -> bool {
        !matches!(self.coming, Coming::Late)
    }

    fn connect(&self, _address: &str) -> io::Result<Constant> {
        Ok(Constant { byte: 3 })
    }
}

/// Whether the bytes of a link have come, and what is received over it then.
fn looked_at<N: Net>(net: &mut N) -> Option<(bool, Option<(u32, u8)>)> {
    let mut link = net.connect("peer").ok()?;
    let here = net.has_come(&mut link, 4);
    let mut link = Some(link);
    let front = front_of(&mut link);
    hang_up(net, link);
    Some((here, front))
}

/// What is received over a link after a wait for its bytes.
fn awaited<N: Net>(net: &mut N) -> Option<(u32, u8)> {
    let mut link = net.connect("peer").ok()?;
    net.await_bytes(&mut link, 4);
    let mut link = Some(link);
    let front = front_of(&mut link);
    hang_up(net, link);
    front
}

/// Prints what is received over links of which so is answered.
fn print_answered<W: Write>(to: &mut W, alloc: Global, coming: Coming) -> io::Result<()> {
    let sockets = Answering {
        coming,
        limit: None,
    };
    let mut net = RealNet::new(sockets, alloc);
    let looked = looked_at(&mut net);
    let waited = awaited(&mut net);
    writeln!(
        to,
        "bytes {coming:?}: {looked:?}, {waited:?}, {} faults",
        net.faults()
    )
}

/// Prints what passes over links of the loopback.
pub(crate) fn print_links<W: Write, R: Network + Clock + Clone + Drop>(
    to: &mut W,
    rt: &R,
    alloc: Global,
    process: Process,
) -> io::Result<()> {
    for meeting in &MEETINGS {
        print_meeting(to, rt, alloc, process, meeting)?;
    }
    for parent in [Parent::Unknown, Parent::Runs, Parent::Gone] {
        print_gone_alone(to, rt, alloc, process, parent)?;
    }
    let waits = waits_of(process, Parent::Unknown);
    let came = gone_alone(alloc, rt.clone()?, waits, Some(1));
    writeln!(to, "nobody listens within a second: {came:?}")?;
    for coming in [Coming::Later, Coming::Here, Coming::Late] {
        print_answered(to, alloc, coming)?;
    }
    Ok(())
}
