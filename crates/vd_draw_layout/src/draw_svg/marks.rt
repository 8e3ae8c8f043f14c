//! The marks of a drawing.

use crate::draw_svg::classes::{Area, Shape, Stroke, Style};
use vd_base::Bytes;

/// A place in a drawing, from its upper left corner.
#[derive(Clone, Copy, PartialEq, Eq, Debug)]
pub struct Place {
    pub x: u64,
    pub y: u64,
}

/// A mark of a drawing.
#[derive(Drop)]
pub enum Mark {
    /// The marks behind it, up to its end, stand so far below, and have this title.
    Group(u64, Bytes),
    /// A group ends.
    End,
    /// A text, at the place where its line stands.
    Text(Style, Place, Bytes),
    /// A line between two places.
    Line(Stroke, Place, Place),
    /// A rectangle: its upper left corner, its width and its height.
    Rectangle(Area, Place, u64, u64),
    /// A shape, at its middle.
    Shape(Shape, Place),
}
