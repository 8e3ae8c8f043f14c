//! The search for the least list of a tree of which more is known than its bounds say: of some prefixes, that each list that
//! they begin costs more than the least cost.

mod searching;
mod untied;

pub use searching::search_untied;
