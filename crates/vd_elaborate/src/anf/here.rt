/// Where a statement stands: the offset of the source's statement, and the number of its block.
#[derive(Clone, Copy, PartialEq, Eq)]
pub struct Here {
    pub offset: u32,
    pub block: u32,
}
