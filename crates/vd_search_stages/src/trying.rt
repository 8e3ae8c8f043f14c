//! What searches come to that may end without an answer.

use crate::selecting::Selection;

/// What the searches so far came to.
#[derive(Drop)]
pub(crate) enum Tried {
    /// A selection.
    Selected(Selection),
    /// No search ended; each valid list costs at least so much.
    Unended(u32),
}
