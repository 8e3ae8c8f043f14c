/// An amount that is taken from the cost of moving a value, wherever it has that choice on that side, and put on what the
/// slot on that side costs there; or the other way round where `add` is false. It changes bounds, and no cost of a whole list.
#[derive(Clone, Copy, PartialEq, Eq)]
pub struct Shift {
    /// The number of the use.
    pub at: u32,
    /// 0 for its source, 1 for its target.
    pub side: u8,
    /// The place of the protocol in the list.
    pub proto: u8,
    pub add: bool,
    pub amount: u32,
}
