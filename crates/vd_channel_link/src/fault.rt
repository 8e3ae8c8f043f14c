//! Why a sealed link gives no bytes.

use thiserror::Error;

/// Why a sealed link gives no bytes.
#[derive(Clone, Copy, PartialEq, Eq, Debug, Error)]
pub enum SealFault {
    /// The link below failed, which it has counted.
    #[error("the link failed")]
    Peer,
    /// The link below told its end.
    #[error("the link ended")]
    End,
    /// Bytes came that begin no hello of this version.
    #[error("no viaduct host of this version")]
    Version,
    /// The hello names another dealing.
    #[error("another dealing")]
    Dealing,
    /// The hello names other hosts.
    #[error("another host")]
    Host,
    /// Bytes came that begin no record.
    #[error("no record")]
    Head,
    /// A record came without its code.
    #[error("a record without proof")]
    Code,
}
