use vd_execution::Reg;

/// What the host that is bound keeps: a value, and the first of the eight registers of its nonce.
#[derive(Clone, Copy, PartialEq, Eq)]
pub struct Held {
    pub value: Reg,
    pub nonce: Reg,
}

/// What the other host keeps: the first of the eight registers of the digest.
#[derive(Clone, Copy, PartialEq, Eq)]
pub struct Seen {
    pub digest: Reg,
}
