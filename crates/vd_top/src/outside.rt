//! What a run finds outside of itself.

/// The objects that a run uses, and how many packets it says that hosts sent in this process, where it says so. The objects are of
/// any types: what is known of them is what the calls ask of these.
pub struct Outside<F, M, O, E, N, S> {
    pub files: F,
    pub marks: M,
    pub out: O,
    /// Where it is said how the run ended.
    pub err: E,
    pub net: N,
    pub spawner: S,
    pub packets: Option<u64>,
}
