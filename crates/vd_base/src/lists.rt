use crate::base_lists::Items;

/// The bytes of a file or of a printed text.
pub type Bytes = Items<u8>;

/// A name as it is written: a nonempty list of bytes.
pub type Name = Items<u8>;

/// Names in order of declaration.
pub type Names = Items<Name>;

/// Words of 32 bits.
pub type Words = Items<u32>;

/// For each host in order, the words that it hands in.
pub type Inputs = Items<Words>;

/// For each host in order, the words that are printed to it.
pub type Outputs = Items<Words>;
