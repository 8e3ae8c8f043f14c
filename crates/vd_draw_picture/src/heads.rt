//! What stands above the rows, and the lanes behind them.

ghost use Rattle.std.specs.Prelude.{◌≡◌, ◌≤◌, ◌++◌, [], ◌∷◌, map, IfOk, OnOk};
ghost use Rattle.std.specs.List.{flat_map};
ghost use Rattle.vd_draw_picture.specs.Heads as heads;

use crate::arrows::Marks;
use std::alloc::{AllocError, Global};
use vd_base::{Bytes, Names, Proto};
use vd_draw_layout::{
    Area, Drawn, Lane, Layout, Mark, Place, Stroke, Style, cut, dear_place, name_length, printable,
    protocol_kind, protocol_name, push_number,
};

/// A text at a place.
fn text(style: Style, x: u64, y: u64, said: Bytes) -> Mark
    ensures { result ≡ heads.text style x y said }
{
    Mark::Text(style, Place { x, y }, said)
}

/// Half of the width of a host's name.
fn half_name(letters: u64) -> u64
    ensures { result ≡ heads.half_name letters }
{
    letters.saturating_mul(4).saturating_add(5)
}

/// Adds the name of a host in a box.
fn push_host(marks: &mut Marks, x: u64, half: u64, name: Bytes) -> Result<(), AllocError>
    ensures { OnOk result (marks.new ≡ marks.old ++ heads.host_marks x half name) }
{
    let corner = Place {
        x: x.saturating_sub(half),
        y: 54,
    };
    marks.push(Mark::Rectangle(Area::Host, corner, half.saturating_add(half), 19))?;
    marks.push(text(Style::Host, x, 68, name))
}

/// Adds a small text that can be read over a lane.
fn push_over(
    alloc: Global,
    marks: &mut Marks,
    x: u64,
    y: u64,
    said: &[u8],
) -> Result<(), AllocError>
    ensures { OnOk result (marks.new ≡ marks.old ++ heads.over x y said.now) }
{
    marks.push(text(Style::Halo, x, y, Bytes::from_slice(alloc, said)?))?;
    marks.push(text(Style::Pair, x, y, Bytes::from_slice(alloc, said)?))
}

/// Adds the names of two hosts, and what they share there.
fn push_pair(
    alloc: Global,
    marks: &mut Marks,
    x: u64,
    name: &[u8],
    kind: &[u8],
) -> Result<(), AllocError>
    ensures { OnOk result (marks.new ≡ marks.old ++ heads.pair_marks x name.now kind.now) }
{
    push_over(alloc, marks, x, 60, name)?;
    push_over(alloc, marks, x, 72, kind)
}

/// Adds the name of a lane.
fn push_head(
    alloc: Global,
    marks: &mut Marks,
    hosts: &Names,
    at: Proto,
    x: u64,
) -> Result<(), AllocError>
    ensures { OnOk result (marks.new ≡ marks.old ++ heads.head_of hosts.now at x) }
{
    let name = protocol_name(alloc, hosts, at)?;
    let name = cut(alloc, 30, name.as_slice())?;
    match at {
        Proto::Local(_) => {
            let half = half_name(name_length(alloc, hosts, at)?);
            push_host(marks, x, half, name)
        }
        Proto::Rep(_) | Proto::Commit(_, _) | Proto::Add(_, _) | Proto::Xor(_, _) => {
            push_pair(alloc, marks, x, name.as_slice(), protocol_kind(at))
        }
    }
}

/// How a lane looks.
fn lane_stroke(at: Proto) -> Stroke
    ensures { result ≡ heads.lane_stroke at }
{
    match at {
        Proto::Local(_) => Stroke::Host,
        Proto::Rep(_) | Proto::Commit(_, _) | Proto::Add(_, _) | Proto::Xor(_, _) => Stroke::Pair,
    }
}

/// A lane, down to the bottom.
fn lane_mark(bottom: u64, lane: &Lane) -> Mark
    ensures { result ≡ heads.lane_mark bottom lane.now }
{
    let from = Place { x: lane.x, y: 74 };
    let to = Place {
        x: lane.x,
        y: bottom,
    };
    Mark::Line(lane_stroke(lane.at), from, to)
}

/// Adds the lanes, down to the bottom.
fn push_lanes(marks: &mut Marks, bottom: u64, lanes: &[Lane]) -> Result<(), AllocError>
    ensures { OnOk result (marks.new ≡ marks.old ++ map (heads.lane_mark bottom) lanes.now) }
{
    for lane in lanes {
        marks.push(lane_mark(bottom, lane))?;
    }
    Ok(())
}

/// Adds the names of the lanes.
pub(crate) fn push_heads(
    alloc: Global,
    marks: &mut Marks,
    hosts: &Names,
    lanes: &[Lane],
) -> Result<(), AllocError>
    ensures { OnOk result (marks.new ≡ marks.old ++ flat_map (heads.head_marks hosts.now) lanes.now) }
{
    for lane in lanes {
        push_head(alloc, marks, hosts, lane.at, lane.x)?;
    }
    Ok(())
}

/// Adds the lanes and their names.
pub(crate) fn push_all_lanes(
    alloc: Global,
    marks: &mut Marks,
    hosts: &Names,
    bottom: u64,
    lanes: &[Lane],
) -> Result<(), AllocError>
    ensures { OnOk result (marks.new ≡ marks.old ++ heads.lanes_marks hosts.now bottom lanes.now) }
{
    push_lanes(marks, bottom, lanes)?;
    push_heads(alloc, marks, hosts, lanes)
}

/// What stands before the name of a row that has this place among the dearest.
fn before_place(place: u64) -> &'static [u8]
    ensures { result.now ≡ heads.before_place place }
{
    if place < 2 { b"; dearest: (" } else { b", (" }
}

/// Puts what is said of a row at the end that has this place among the dearest: `(1) 12: min(a, b) 41 %`.
fn push_dear(
    alloc: Global,
    said: &mut Bytes,
    total: u64,
    place: u64,
    row: &Drawn,
) -> Result<(), AllocError>
    ensures { OnOk result (said.new ≡ said.old ++ heads.dear_said total place row.now) }
{
    said.extend_from_slice(before_place(place))?;
    push_number(said, place)?;
    said.extend_from_slice(b") ")?;
    let name = cut(alloc, 28, row.said.as_slice())?;
    said.extend_from_slice(name.as_slice())?;
    said.extend_from_slice(b" ")?;
    push_number(said, row.cost.saturating_mul(100) / total.max(1))?;
    said.extend_from_slice(b" %")
}

/// Puts the name of a row at the end, if it has this place among the dearest.
#[tactic(auto, unfolding(crate::specs::Heads::said_if_dear))]
fn push_if_dear(
    alloc: Global,
    said: &mut Bytes,
    layout: &Layout,
    place: u64,
    row: &Drawn,
) -> Result<(), AllocError>
    ensures { OnOk result (said.new ≡ said.old ++ heads.said_if_dear layout.now place row.now) }
{
    if dear_place(layout, row.number, row.cost) == place {
        push_dear(alloc, said, layout.total, place, row)?;
    }
    Ok(())
}

/// Puts the name of the row at the end that has this place among the dearest, if there is one.
fn push_dear_at(
    alloc: Global,
    said: &mut Bytes,
    layout: &Layout,
    place: u64,
) -> Result<(), AllocError>
    ensures { OnOk result (said.new ≡ said.old ++ heads.said_at layout.now place) }
{
    let drawn = layout.drawn.as_slice();
    for row in drawn {
        push_if_dear(alloc, said, layout, place, row)?;
    }
    Ok(())
}

/// What is said of the whole drawing: what it costs, how many slots there are, and which rows are the dearest.
fn summary(alloc: Global, layout: &Layout, slots: u64) -> Result<Bytes, AllocError>
    ensures { IfOk result (λ said. said ≡ heads.summary layout.now slots) }
{
    let mut said = Bytes::from_slice(alloc, b"cost ")?;
    push_number(&mut said, layout.total)?;
    said.extend_from_slice(b", ")?;
    push_number(&mut said, slots)?;
    said.extend_from_slice(b" slots")?;
    push_dear_at(alloc, &mut said, layout, 1)?;
    push_dear_at(alloc, &mut said, layout, 2)?;
    push_dear_at(alloc, &mut said, layout, 3)?;
    Ok(said)
}

/// How wide a drawing is.
pub(crate) fn width_of(layout: &Layout) -> u64
    ensures { result ≡ heads.width_of layout.now }
{
    layout.cost_x.saturating_add(298).max(790)
}

/// The letters that a line above the drawing may have.
fn heading_room(layout: &Layout) -> u64
    ensures room { result ≡ heads.heading_room layout.now }
    ensures some { 8 ≤ result }
{
    (width_of(layout).saturating_sub(40) / 7).max(8)
}

/// Adds the heading.
pub(crate) fn push_title(
    alloc: Global,
    marks: &mut Marks,
    name: &[u8],
    layout: &Layout,
    slots: u64,
) -> Result<(), AllocError>
    ensures { OnOk result (marks.new ≡ marks.old ++ heads.title_marks name.now layout.now slots) }
{
    let name = printable(alloc, name)?;
    let name = cut(alloc, 60, name.as_slice())?;
    marks.push(text(Style::Heading, 20, 24, name))?;
    let said = summary(alloc, layout, slots)?;
    let said = cut(alloc, heading_room(layout) as usize, said.as_slice())?;
    marks.push(text(Style::Plain, 20, 42, said))
}

/// Adds a small word above a column.
fn push_column(alloc: Global, marks: &mut Marks, x: u64, word: &[u8]) -> Result<(), AllocError>
    ensures { OnOk result (marks.new ≡ marks.old ++ heads.column x word.now ∷ []) }
{
    let word = Bytes::from_slice(alloc, word)?;
    marks.push(text(Style::Small, x, 70, word))
}

/// Adds the heads of the columns that tell slots.
fn push_slot_columns(alloc: Global, marks: &mut Marks, layout: &Layout) -> Result<(), AllocError>
    ensures { OnOk result (marks.new ≡ marks.old ++ heads.slot_columns layout.now) }
{
    push_column(alloc, marks, 20, b"slot")?;
    push_column(alloc, marks, layout.label_x, b"label")
}

/// Adds the heads of the columns that tell the choice.
fn push_choice_columns(alloc: Global, marks: &mut Marks, layout: &Layout) -> Result<(), AllocError>
    ensures { OnOk result (marks.new ≡ marks.old ++ heads.choice_columns layout.now) }
{
    push_column(alloc, marks, layout.protocol_x, b"protocol")?;
    push_column(alloc, marks, layout.cost_x, b"cost")
}

/// Adds the heads of the columns.
pub(crate) fn push_columns(
    alloc: Global,
    marks: &mut Marks,
    layout: &Layout,
) -> Result<(), AllocError>
    ensures { OnOk result (marks.new ≡ marks.old ++ heads.column_marks layout.now) }
{
    push_slot_columns(alloc, marks, layout)?;
    push_choice_columns(alloc, marks, layout)
}
