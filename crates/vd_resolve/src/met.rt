//! What meets where kinds do not fit.

use vd_base::Kind;

/// What meets where kinds do not fit, by the form of the text there.
#[derive(Clone, Copy, PartialEq, Eq, Debug)]
pub enum Met {
    /// The name of an array where a value is to stand.
    WholeArray,
    /// A name with an index that is no array.
    NoArray,
    /// An array with a bool as index.
    BoolIndex,
    /// A call with an argument of another kind than its parameter: its number, from 1, and its kind.
    Argument(usize, Kind),
    /// An operator before an operand of this kind.
    Behind(Kind),
    /// An operator between operands of these kinds.
    Sides(Kind, Kind),
    /// A shift of a value of this kind by so many bits.
    Shifted(Kind, u32),
    /// A `min` or `max` of values of these kinds.
    Given(Kind, Kind),
    /// A `mux` of values of these kinds.
    Chosen(Kind, Kind, Kind),
    /// A name that is given another value and is no `var`.
    NoVariable,
    /// A name that is given a value of this kind and takes the other.
    Value(Kind),
    /// A guard of this kind.
    Guard(Kind),
    /// A `return` of a value of this kind from a function that gives the other.
    Returned(Kind),
}
