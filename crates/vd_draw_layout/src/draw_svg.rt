//! Drawings as SVG 1.1: their marks as data, and the text of each by fixed tags, whole numbers and escaped bytes alone.

mod classes;
mod documents;
mod laws;
mod marks;
mod tags;

pub use classes::{Area, Shape, Stroke, Style};
pub use documents::document;
pub use laws::escaped_texts_have_no_tags;
pub use marks::{Mark, Place};
