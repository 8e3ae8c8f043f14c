use thiserror::Error;
use vd_base::HostId;
use vd_link::Digest;
use vd_tape::DealKind;

/// Why a host did not run to its end.
#[derive(Clone, Copy, Debug, PartialEq, Eq, Error)]
pub enum HostFault {
    /// There was no memory left.
    #[error("memory")]
    Memory,
    /// A write of the output failed.
    #[error("the output was not written")]
    Write,
    /// A call of the net for this peer failed, or the link to it.
    #[error("peer fault")]
    Peer(HostId),
    /// The first byte at this offset that no greeting has, or no awaited packet.
    #[error("byte {1} at {0} is of no frame that is awaited")]
    BadFrame(u64, u8),
    /// Two words that are to be the same.
    #[error("the words {0} and {1} differ")]
    Unequal(u32, u32),
    /// This peer has another plan: the digest of this host's plan, and that of the peer's.
    #[error("a peer has another plan")]
    WrongProgram(HostId, Digest, Digest),
    /// The host that a byte of a greeting should name, and the one that it names.
    #[error("a greeting names host {1} in place of host {0}")]
    WrongHost(u8, u8),
    /// An input past the end: how many were taken, and how many there are.
    #[error("input {0} of {1}")]
    ShortInput(usize, usize),
    /// An item past the end of a list of the deal: how many were taken, and how many there are.
    #[error("{0} item {1} of {2}")]
    ShortDeal(DealKind, usize, usize),
    /// The link to this peer told its end within an awaited frame or before it.
    #[error("the link to a peer ended")]
    EndOfLink(HostId),
}
