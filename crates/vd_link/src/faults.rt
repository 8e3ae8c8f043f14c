ghost use Rattle.std.specs.Prelude.{◌≡◌};
ghost use Rattle.vd_link.specs.Sessions.{greet_fault_of};

use crate::Digest;
use crate::receiving::FrameFault;
use thiserror::Error;

/// Why a greeting did not come to an end.
#[derive(Clone, Copy, Debug, PartialEq, Eq, Error)]
pub enum GreetFault {
    /// The link failed, which it has counted.
    #[error("the link failed")]
    Peer,
    /// The first byte that no greeting has at this offset.
    #[error("byte {1} at {0} is of no greeting")]
    BadFrame(u64, u8),
    /// The digest of this host's plan, and that of the other's.
    #[error("the other host has another plan")]
    WrongProgram(Digest, Digest),
    /// The host that a byte of the greeting should name, and the one that it names.
    #[error("the greeting names host {1} in place of host {0}")]
    WrongHost(u8, u8),
    /// The link told its end within the greeting.
    #[error("the link ended within the greeting")]
    End,
}

impl From<FrameFault> for GreetFault {
    ghost from_gives = { λ fault greet. greet ≡ greet_fault_of fault };

    fn from(fault: FrameFault) -> Self {
        match fault {
            FrameFault::Peer => GreetFault::Peer,
            FrameFault::First(byte) => GreetFault::BadFrame(0, byte),
            FrameFault::Second(byte) => GreetFault::BadFrame(1, byte),
            FrameFault::End => GreetFault::End,
        }
    }
}

/// Why a packet did not come.
#[derive(Clone, Copy, Debug, PartialEq, Eq, Error)]
pub enum LinkFault {
    /// The link failed, which it has counted.
    #[error("the link failed")]
    Peer,
    /// The first byte that no packet with the wanted count has at this offset, counted from the first byte of the greeting.
    #[error("byte {1} at {0} is of no packet that is awaited")]
    BadFrame(u64, u8),
    /// The link told its end within the packet or before it.
    #[error("the link ended")]
    End,
}
