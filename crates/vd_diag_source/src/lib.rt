//! Sentences on the faults that a person can make in a source, by cases.
#![tactic(auto)]

mod follow;
mod kinds;
mod laws;
mod phrases;
mod refusals;
mod rules;
mod syntax;

pub use laws::goes_on_is_exact;
pub use refusals::syntax_remark;
pub use rules::rule_remark;
