//! The protocols over the hosts: their list, their authorities, what can stand at them and which of them join.
#![tactic(auto)]

mod authorities;
mod list;
mod tables;

pub use authorities::{HostLabels, authority};
pub use list::protocols;
pub use tables::{can, holds, joins};
pub use vd_base::Row;
