use vd_base::Words;

/// What a name holds while a source runs.
#[derive(Drop)]
pub enum Held {
    /// The word of a `let` name, a parameter or a loop name, which stays.
    Bound(u32),
    /// The word of a variable.
    Cell(u32),
    /// The words of an array.
    Elements(Words),
}
