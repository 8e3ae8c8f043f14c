//! A program with selections in the place of hidden branches keeps the labels of its slots.

mod law;

pub use law::{least_labels_do_not_rise, selections_keep_labels, turned_programs_can_be_labelled};
