use crate::HostId;

/// How a running host stands.
#[derive(Clone, Copy, PartialEq, Eq)]
pub enum HostState {
    /// Nothing is pending.
    Ended,
    /// Its next instruction waits for nothing.
    Ready,
    /// Its next instruction receives a packet from this host that cannot be taken yet.
    Waiting(HostId),
    /// Its next input is past the end.
    ShortInput,
    /// Its next dealt item is past the end.
    ShortDeal,
}
