/// A host, by its place among the declared hosts.
#[derive(Clone, Copy, PartialEq, Eq, Debug)]
pub struct HostId(pub u8);

/// A binding, a variable or an array of a let-normal program, by its place in program order.
#[derive(Clone, Copy, PartialEq, Eq, Debug)]
pub struct SlotId(pub u16);

/// The bytes of a source from `start` up to `end`.
#[derive(Clone, Copy, PartialEq, Eq, Debug)]
pub struct Span {
    pub start: u32,
    pub end: u32,
}
