ghost use Rattle.std.specs.Prelude.{◌≡◌, IfSome, option_map};
ghost use Rattle.vd_edge.specs.PeerReasons.{call_text};

use std::alloc::Global;
use std::io::{Error, ErrorKind};
use vd_base::Text;

/// What is done for a peer.
#[derive(Clone, Copy, PartialEq, Eq)]
pub enum PeerCall {
    /// A place is made where it can come.
    Listen,
    /// It is awaited.
    Accept,
    /// It is gone to.
    Connect,
    /// Bytes go to it or come from it.
    Pass,
}

impl PeerCall {
    /// The words in front of the peer's name.
    pub fn text(self) -> &'static str
        ensures { result.now ≡ call_text self }
    {
        match self {
            PeerCall::Listen => "listen for",
            PeerCall::Accept => "wait for",
            PeerCall::Connect => "connect to",
            PeerCall::Pass => "link to",
        }
    }
}

/// Why something that was done for a peer failed, as a person is told.
#[derive(Drop)]
pub struct PeerReason {
    pub call: PeerCall,
    /// The address, where one was used.
    pub address: Option<Text>,
    /// What the system says of it.
    pub cause: Text,
}

/// The same with this cause. Where there is no memory for it, nothing is told.
pub(crate) fn with_cause(
    alloc: Global,
    call: PeerCall,
    address: Option<&str>,
    cause: &str,
) -> Option<PeerReason>
    ensures call { IfSome result (λ reason. reason.call ≡ call) }
    ensures address { IfSome result (λ reason. reason.address ≡ option_map (λ address. address.now) address.entry) }
    ensures cause { IfSome result (λ reason. reason.cause ≡ cause.now) }
{
    let address = match address {
        Some(address) => Some(Text::copy_of(alloc, address).ok()?),
        None => None,
    };
    let cause = Text::copy_of(alloc, cause).ok()?;
    Some(PeerReason {
        call,
        address,
        cause,
    })
}

/// Whether an error is that of a wait that was over: the system's own errors have a number.
fn is_silence(error: &Error) -> bool {
    error.kind() == ErrorKind::TimedOut && error.raw_os_error().is_none()
}

/// What is told of an error, where no wait may be longer than so many seconds.
fn text_of(alloc: Global, limit: Option<u32>, error: &Error) -> Option<String> {
    match limit {
        Some(seconds) if is_silence(error) => {
            format!(in alloc; "silent for {seconds} seconds").ok()
        }
        _ => format!(in alloc; "{error}").ok(),
    }
}

/// Why something that was done for a peer failed, with what the system says of it, or how long the peer was silent. Where there is no
/// memory for it, nothing is told.
pub(crate) fn peer_reason(
    alloc: Global,
    limit: Option<u32>,
    call: PeerCall,
    address: Option<&str>,
    error: &Error,
) -> Option<PeerReason>
    ensures call { IfSome result (λ reason. reason.call ≡ call) }
    ensures address { IfSome result (λ reason. reason.address ≡ option_map (λ address. address.now) address.entry) }
{
    let cause = text_of(alloc, limit, error)?;
    with_cause(alloc, call, address, cause.as_str())
}
