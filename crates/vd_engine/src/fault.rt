use thiserror::Error;
use vd_base::HostId;
use vd_tape::DealKind;

/// Why a machine did not run to its end.
#[derive(Clone, Copy, Debug, PartialEq, Eq, Error)]
pub enum EngineFault {
    /// The link to this host failed, which it has counted.
    #[error("the link to host {} failed", .0.0)]
    Peer(HostId),
    /// The sink failed, which it has counted.
    #[error("a word was not written")]
    Write,
    /// The first byte from this host that no awaited packet has at this offset.
    #[error("byte {} at {} from host {} is of no packet that is awaited", .2, .1, .0.0)]
    BadFrame(HostId, u64, u8),
    /// Two words that are to be the same.
    #[error("the words {0} and {1} differ")]
    Unequal(u32, u32),
    /// An input past the end: how many were taken, and how many there are.
    #[error("input {0} of {1}")]
    ShortInput(usize, usize),
    /// An item past the end of a list of the deal: how many were taken, and how many there are.
    #[error("{0} item {1} of {2}")]
    ShortDeal(DealKind, usize, usize),
    /// The link to this host told its end within an awaited packet or before it.
    #[error("the link to host {} ended", .0.0)]
    EndOfLink(HostId),
}
