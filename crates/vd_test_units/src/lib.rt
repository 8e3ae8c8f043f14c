//! Tests through public calls, of what no command shows: lists; formulas, labels and authorities; tokens and trees of sources, and the
//! problem of a source; the search on a small tree, and certificates; texts that are cut at each byte; and the plans that a refused
//! greeting tells.
#![tactic(auto)]

#[cfg(test)]
mod authorities;
#[cfg(test)]
mod certificates;
#[cfg(test)]
mod declared_names;
#[cfg(test)]
mod forms;
#[cfg(test)]
mod formulas;
#[cfg(test)]
mod greetings;
#[cfg(test)]
mod label_order;
#[cfg(test)]
mod labels;
#[cfg(test)]
mod lexer;
#[cfg(test)]
mod lists;
#[cfg(test)]
mod meaning;
#[cfg(test)]
mod problems;
#[cfg(test)]
mod searches;
#[cfg(test)]
mod sources;
#[cfg(test)]
mod texts;
mod tree;

pub use tree::Words;
