//! The text of a mark.

ghost use Rattle.std.specs.Prelude.{◌≡◌, ◌++◌, OnOk};
ghost use Rattle.vd_draw_layout.specs.Tags as tags;

use crate::draw_svg::classes::{Area, Shape, Stroke, Style};
use crate::draw_svg::marks::{Mark, Place};
use itoa::Buffer;
use std::alloc::AllocError;
use vd_base::Bytes;

/// Puts a number at the end.
fn push_number(text: &mut Bytes, number: u64) -> Result<(), AllocError>
    ensures { OnOk result (text.new ≡ text.old ++ tags.number_text number) }
{
    text.extend_from_slice(Buffer::new().format(number).as_bytes())
}

/// Puts a byte at the end, by its name where it could begin something.
fn push_escaped_byte(text: &mut Bytes, byte: u8) -> Result<(), AllocError>
    ensures { OnOk result (text.new ≡ text.old ++ tags.escaped_byte byte) }
{
    if byte == b'&' {
        text.extend_from_slice(b"&amp;")
    } else if byte == b'<' {
        text.extend_from_slice(b"&lt;")
    } else if byte == b'>' {
        text.extend_from_slice(b"&gt;")
    } else {
        text.push(byte)
    }
}

/// Puts bytes at the end, so that they are read as they are.
fn push_escaped(text: &mut Bytes, bytes: &[u8]) -> Result<(), AllocError>
    ensures { OnOk result (text.new ≡ text.old ++ tags.escaped bytes.now) }
{
    for byte in bytes {
        push_escaped_byte(text, *byte)?;
    }
    Ok(())
}

/// Puts an attribute at the end.
#[tactic(auto, unfolding(crate::specs::Tags::attribute))]
pub(crate) fn push_attribute(text: &mut Bytes, name: &[u8], number: u64) -> Result<(), AllocError>
    ensures { OnOk result (text.new ≡ text.old ++ tags.attribute name.now number) }
{
    text.extend_from_slice(name)?;
    text.extend_from_slice(b"=\"")?;
    push_number(text, number)?;
    text.extend_from_slice(b"\"")
}

/// Puts the beginning of a tag at the end, with its class.
#[tactic(auto, unfolding(crate::specs::Tags::classed))]
fn push_classed(text: &mut Bytes, tag: &[u8], class: &[u8]) -> Result<(), AllocError>
    ensures { OnOk result (text.new ≡ text.old ++ tags.classed tag.now class.now) }
{
    text.extend_from_slice(tag)?;
    text.extend_from_slice(class)?;
    text.extend_from_slice(b"\"")
}

/// Puts a place at the end.
#[tactic(auto, unfolding(crate::specs::Tags::place_text))]
fn push_place(text: &mut Bytes, at: Place) -> Result<(), AllocError>
    ensures { OnOk result (text.new ≡ text.old ++ tags.place_text at) }
{
    push_attribute(text, b" x", at.x)?;
    push_attribute(text, b" y", at.y)
}

/// Puts the beginning of a group at the end.
fn push_group(text: &mut Bytes, y: u64, title: &[u8]) -> Result<(), AllocError>
    ensures { OnOk result (text.new ≡ text.old ++ tags.group_text y title.now) }
{
    text.extend_from_slice(b"<g transform=\"translate(0,")?;
    push_number(text, y)?;
    text.extend_from_slice(b")\"><title>")?;
    push_escaped(text, title)?;
    text.extend_from_slice(b"</title>\n")
}

/// Puts a text at the end.
fn push_text(text: &mut Bytes, style: Style, at: Place, content: &[u8]) -> Result<(), AllocError>
    ensures { OnOk result (text.new ≡ text.old ++ tags.text_text style at content.now) }
{
    push_classed(text, b"<text class=\"", style.class())?;
    push_place(text, at)?;
    text.extend_from_slice(b">")?;
    push_escaped(text, content)?;
    text.extend_from_slice(b"</text>\n")
}

/// Puts where a line begins at the end.
#[tactic(auto, unfolding(crate::specs::Tags::begin_text))]
fn push_begin(text: &mut Bytes, from: Place) -> Result<(), AllocError>
    ensures { OnOk result (text.new ≡ text.old ++ tags.begin_text from) }
{
    push_attribute(text, b" x1", from.x)?;
    push_attribute(text, b" y1", from.y)
}

/// Puts where a line ends at the end.
#[tactic(auto, unfolding(crate::specs::Tags::end_text))]
fn push_end(text: &mut Bytes, to: Place) -> Result<(), AllocError>
    ensures { OnOk result (text.new ≡ text.old ++ tags.end_text to) }
{
    push_attribute(text, b" x2", to.x)?;
    push_attribute(text, b" y2", to.y)
}

/// Puts a line at the end.
fn push_line(text: &mut Bytes, stroke: Stroke, from: Place, to: Place) -> Result<(), AllocError>
    ensures { OnOk result (text.new ≡ text.old ++ tags.line_text stroke from to) }
{
    push_classed(text, b"<line class=\"", stroke.class())?;
    push_begin(text, from)?;
    push_end(text, to)?;
    text.extend_from_slice(b"/>\n")
}

/// Puts a rectangle at the end.
fn push_rectangle(
    text: &mut Bytes,
    area: Area,
    at: Place,
    width: u64,
    height: u64,
) -> Result<(), AllocError>
    ensures { OnOk result (text.new ≡ text.old ++ tags.rectangle_text area at width height) }
{
    push_classed(text, b"<rect class=\"", area.class())?;
    push_place(text, at)?;
    push_attribute(text, b" width", width)?;
    push_attribute(text, b" height", height)?;
    text.extend_from_slice(area.corners())?;
    text.extend_from_slice(b"/>\n")
}

/// How a tag begins that uses a drawing.
#[tactic(auto, unfolding(crate::specs::Tags::use_tag))]
fn use_tag() -> &'static [u8]
    ensures { result.now ≡ tags.use_tag }
{
    b"<use xlink:href=\""
}

/// Puts a shape at the end.
fn push_shape(text: &mut Bytes, shape: Shape, at: Place) -> Result<(), AllocError>
    ensures { OnOk result (text.new ≡ text.old ++ tags.shape_text shape at) }
{
    push_classed(text, use_tag(), shape.class())?;
    push_place(text, at)?;
    text.extend_from_slice(b"/>\n")
}

/// Puts a mark at the end.
pub(crate) fn push_mark(text: &mut Bytes, mark: &Mark) -> Result<(), AllocError>
    ensures { OnOk result (text.new ≡ text.old ++ tags.mark_text mark.now) }
{
    match mark {
        Mark::Group(y, title) => push_group(text, *y, title.as_slice()),
        Mark::End => text.extend_from_slice(b"</g>\n"),
        Mark::Text(style, at, content) => push_text(text, *style, *at, content.as_slice()),
        Mark::Line(stroke, from, to) => push_line(text, *stroke, *from, *to),
        Mark::Rectangle(area, at, width, height) => {
            push_rectangle(text, *area, *at, *width, *height)
        }
        Mark::Shape(shape, at) => push_shape(text, *shape, *at),
    }
}
