//! Whether a budget cannot suffice, seen in the first levels of a tree: there more prefixes are within a threshold than it has. They
//! are counted in fewer steps than a search takes to open them, since the last ones need not be opened.

mod counting;
mod telling;

pub use telling::is_exceeded;
