//! The marks of a row, from its upper edge down.

ghost use Rattle.std.specs.Prelude.{◌≡◌, ◌++◌, ◌≤◌, [], ◌∷◌, length, map, IfOk, OnOk};
ghost use Rattle.vd_base.specs.Limits.{most_hosts};
ghost use Rattle.vd_draw_picture.specs.RowMarks as row_marks;

use crate::arrows::{Ground, Marks, push_arrows, xs_of_lane};
use std::alloc::{AllocError, Global};
use vd_base::{Bytes, Items, Names, Proto};
use vd_core::Slot;
use vd_draw_layout::{
    Area, Lane, Layout, Mark, Place, Shape, Stroke, Style, arrows_of, cut, dear_place, drawn_text,
    goes_on, indent, label_at, protocol_name, push_number, set_x,
};
use vd_draw_rows::{Kind, Line, Row};

/// What is known of all rows: the columns, the names of the hosts, the slots, and their labels as they are printed.
#[derive(Clone, Copy)]
pub(crate) struct Scene<'a> {
    pub layout: &'a Layout,
    pub hosts: &'a Names,
    pub slots: &'a [Slot],
    pub labels: &'a Items<Bytes>,
}

/// How high a row is.
pub(crate) fn height_of(row: &Row) -> u64
    ensures { result ≡ row_marks.height_of row.now }
{
    arrows_of(row).saturating_mul(15).saturating_add(8).max(22)
}

/// Whether the names of the lanes stand above a row of the drawing, below so many: they do above each fortieth.
pub(crate) fn has_names(number: u64) -> bool
    ensures { result ≡ row_marks.has_names number }
{
    number % 40 == 0 && 0 < number
}

/// How high the names of the lanes above a row are.
pub(crate) fn names_height(number: u64) -> u64
    ensures { result ≡ row_marks.names_height number }
{
    if has_names(number) { 34 } else { 0 }
}

/// Whether a line of the source stands above a row.
pub(crate) fn is_other_line(last: usize, line: &Option<Line>) -> bool
    ensures { result ≡ row_marks.is_other_line last line.now }
{
    match line {
        Some(line) => line.number != last,
        None => false,
    }
}

/// How high the line above a row is.
pub(crate) fn line_height(last: usize, row: &Row) -> u64
    ensures { result ≡ row_marks.line_height last row.now }
{
    if is_other_line(last, &row.line) {
        17
    } else {
        0
    }
}

/// The number of the line that was shown last, behind a row that is drawn.
pub(crate) fn line_behind(last: usize, line: &Option<Line>) -> usize
    ensures { result ≡ row_marks.line_behind last line.now }
{
    match line {
        Some(line) => line.number,
        None => last,
    }
}

/// The number of the line that was shown last, behind a row.
pub(crate) fn next_last(last: usize, row: &Row, rest: &[Row]) -> usize
    ensures { result ≡ row_marks.next_last last row.now rest.now }
{
    if goes_on(row, rest) {
        last
    } else {
        line_behind(last, &row.line)
    }
}

/// How many rows of the drawing stand above what is behind a row.
pub(crate) fn next_number(number: u64, row: &Row, rest: &[Row]) -> u64
    ensures { result ≡ row_marks.next_number number row.now rest.now }
{
    if goes_on(row, rest) {
        number
    } else {
        number.saturating_add(1)
    }
}

/// How high what stands above a row is: names of lanes, and a line of the source.
pub(crate) fn height_above(number: u64, last: usize, row: &Row) -> u64
    ensures { result ≡ row_marks.height_above number last row.now }
{
    names_height(number).saturating_add(line_height(last, row))
}

/// How deep the row behind a row stands.
fn depth_behind(rest: &[Row]) -> u32
    ensures { result ≡ row_marks.depth_behind rest.now }
{
    match rest.first() {
        Some(next) => next.depth,
        None => 1,
    }
}

/// The room below a row for the ends of blocks: six points for each that ends there, of those in a block that begins at this depth.
fn room_below(depth: u32, row: &Row, rest: &[Row]) -> u64
    ensures { result ≡ row_marks.room_below depth row.now rest.now }
{
    let ends = row.depth.saturating_sub(depth_behind(rest).max(depth));
    u64::from(ends).saturating_mul(6)
}

/// How high a row is, with what stands above it and the ends of blocks below it.
pub(crate) fn whole_height(depth: u32, number: u64, last: usize, row: &Row, rest: &[Row]) -> u64
    ensures { result ≡ row_marks.whole_height depth number last row.now rest.now }
{
    if goes_on(row, rest) {
        0
    } else {
        height_above(number, last, row)
            .saturating_add(height_of(row))
            .saturating_add(room_below(depth, row, rest))
    }
}

/// How high the rows are that follow, as long as they stand deeper.
pub(crate) fn height_inside(depth: u32, number: u64, last: usize, rows: &[Row]) -> u64
    ensures { result ≡ row_marks.height_inside depth number last rows.now }
{
    let mut number = number;
    let mut last = last;
    let mut height: u64 = 0;
    for place in 0..rows.len() {
        let row = &rows[place];
        if row.depth <= depth {
            return height;
        }
        let rest = &rows[place + 1..];
        height = height.saturating_add(whole_height(depth, number, last, row, rest));
        last = next_last(last, row, rest);
        number = next_number(number, row, rest);
    }
    height
}

/// Whether a row begins a block.
fn is_block(kind: Kind) -> bool
    ensures { result ≡ row_marks.is_block kind }
{
    matches!(kind, Kind::Branch | Kind::Otherwise | Kind::Loop)
}

/// Where a row begins.
pub(crate) fn row_x(row: &Row) -> u64
    ensures x { result ≡ row_marks.row_x row.now }
    ensures small { result ≤ 188 }
{
    14 * indent(row) + 20
}

/// How the text of a row looks.
fn text_style(row: &Row) -> Style
    ensures { result ≡ row_marks.text_style row.now }
{
    if is_block(row.kind) {
        Style::Bold
    } else {
        Style::Plain
    }
}

/// Where the text of a row begins.
fn text_x(row: &Row) -> u64
    ensures { result ≡ row_marks.text_x row.now }
{
    if is_block(row.kind) {
        row_x(row)
    } else {
        row_x(row) + 28
    }
}

/// How many letters are left for the text of a row.
fn room(layout: &Layout, row: &Row) -> u64
    ensures room { result ≡ row_marks.room layout.now row.now }
    ensures some { 3 ≤ result }
{
    layout
        .text_letters
        .saturating_sub(2 * indent(row) + 4)
        .max(3)
}

/// The text of a row, where so many rows before it are drawn with it.
fn text_mark(alloc: Global, layout: &Layout, before: u64, row: &Row) -> Result<Mark, AllocError>
    ensures { IfOk result (λ mark. mark ≡ row_marks.text_mark layout.now before row.now) }
{
    let said = drawn_text(alloc, before, row)?;
    let shown = cut(alloc, room(layout, row) as usize, said.as_slice())?;
    let place = Place {
        x: text_x(row),
        y: 15,
    };
    Ok(Mark::Text(text_style(row), place, shown))
}

/// Adds the number of the slot that a row makes, its label and its protocol.
fn push_slot(alloc: Global, marks: &mut Marks, scene: Scene, row: &Row) -> Result<(), AllocError>
    ensures { OnOk result (marks.new ≡ marks.old ++ row_marks.slot_marks scene.entry.layout.now scene.entry.hosts.now
        scene.entry.labels.now row.now row.now.slot row.now.at) }
{
    let (Some(slot), Some(at)) = (row.slot, row.at) else {
        return Ok(());
    };
    let mut number = Bytes::new(alloc);
    push_number(&mut number, u64::from(slot.0))?;
    push_small(marks, row_x(row), number)?;
    push_small(
        marks,
        scene.layout.label_x,
        cut(alloc, 34, label_at(scene.labels, slot))?,
    )?;
    let name = protocol_name(alloc, scene.hosts, at)?;
    push_small(
        marks,
        scene.layout.protocol_x,
        cut(alloc, 30, name.as_slice())?,
    )
}

/// Adds a small text.
fn push_small(marks: &mut Marks, x: u64, text: Bytes) -> Result<(), AllocError>
    ensures { OnOk result (marks.new ≡ marks.old ++ row_marks.small x text ∷ []) }
{
    marks.push(Mark::Text(Style::Small, Place { x, y: 15 }, text))
}

/// The shape of a word at a protocol.
fn shape_at(protocol: Proto) -> Shape
    ensures { result ≡ row_marks.shape_at protocol }
{
    match protocol {
        Proto::Local(_) => Shape::Host,
        Proto::Rep(_) => Shape::Copy,
        Proto::Commit(_, _) => Shape::Committed,
        Proto::Add(_, _) => Shape::Sums,
        Proto::Xor(_, _) => Shape::Bits,
    }
}

/// The shape of what a row makes, stores or tells.
fn shape_of(kind: Kind, protocol: Proto) -> Shape
    ensures { result ≡ row_marks.shape_of kind protocol }
{
    match kind {
        Kind::Variable | Kind::Store => Shape::Variable,
        Kind::Output => Shape::Printed,
        Kind::Binding | Kind::Branch | Kind::Otherwise | Kind::Loop => shape_at(protocol),
    }
}

/// A place on the lanes, where the first line of a row is.
fn on_lane(x: u64) -> Place
    ensures { result ≡ row_marks.on_lane x }
{
    Place { x, y: 11 }
}

/// Adds a line from each of some copies to the next.
fn push_joins(marks: &mut Marks, xs: &[u64]) -> Result<(), AllocError>
    ensures { OnOk result (marks.new ≡ marks.old ++ row_marks.joins xs.now) }
{
    match xs.split_first() {
        None => Ok(()),
        Some((first, others)) => push_joins_from(marks, *first, others),
    }
}

/// Adds a line from one copy to the next, and so on.
fn push_joins_from(marks: &mut Marks, first: u64, others: &[u64]) -> Result<(), AllocError>
    ensures { OnOk result (marks.new ≡ marks.old ++ row_marks.joins_from first others.now) }
{
    let mut last = first;
    for x in others {
        marks.push(Mark::Line(Stroke::Copies, on_lane(last), on_lane(*x)))?;
        last = *x;
    }
    Ok(())
}

/// Adds a shape on each of some lanes.
fn push_each_shape(marks: &mut Marks, shape: Shape, xs: &[u64]) -> Result<(), AllocError>
    ensures { OnOk result (marks.new ≡ marks.old ++ map (row_marks.shape_mark shape) xs.now) }
{
    for x in xs {
        marks.push(Mark::Shape(shape, on_lane(*x)))?;
    }
    Ok(())
}

/// The lanes on which a word stands.
fn places_of(
    alloc: Global,
    lanes: &[Lane],
    hosts: u8,
    protocol: Proto,
) -> Result<Items<u64>, AllocError>
    ensures { IfOk result (λ xs. xs ≡ row_marks.places_of lanes.now hosts protocol) }
{
    match protocol {
        Proto::Rep(set) => set_x(alloc, lanes, hosts, set),
        _ => xs_of_lane(alloc, lanes, protocol),
    }
}

/// Adds what joins the copies at which a row is, which stands below the arrows.
fn push_all_joins(
    alloc: Global,
    marks: &mut Marks,
    lanes: &[Lane],
    hosts: u8,
    at: Option<Proto>,
) -> Result<(), AllocError>
    ensures { OnOk result (marks.new ≡ marks.old ++ row_marks.join_marks lanes.now hosts at) }
{
    let Some(protocol) = at else {
        return Ok(());
    };
    let xs = places_of(alloc, lanes, hosts, protocol)?;
    push_joins(marks, xs.as_slice())
}

/// Adds the shapes on the lanes for what a row makes, stores or tells.
fn push_at(
    alloc: Global,
    marks: &mut Marks,
    lanes: &[Lane],
    hosts: u8,
    kind: Kind,
    at: Option<Proto>,
) -> Result<(), AllocError>
    ensures { OnOk result (marks.new ≡ marks.old ++ row_marks.at_marks lanes.now hosts kind at) }
{
    let Some(protocol) = at else {
        return Ok(());
    };
    let xs = places_of(alloc, lanes, hosts, protocol)?;
    push_each_shape(marks, shape_of(kind, protocol), xs.as_slice())
}

/// Adds all that stands on the lanes.
fn push_on_lanes(
    alloc: Global,
    marks: &mut Marks,
    scene: Scene,
    row: &Row,
) -> Result<(), AllocError>
    requires { length scene.hosts.now ≤ most_hosts }
    ensures { OnOk result (marks.new ≡ marks.old ++ row_marks.lane_marks scene.entry.layout.now scene.entry.hosts.now
        scene.entry.slots.now row.now) }
{
    let lanes = scene.layout.lanes.as_slice();
    let hosts = scene.hosts.as_slice().len() as u8;
    let ground = Ground {
        lanes,
        hosts,
        half: scene.layout.half,
        slots: scene.slots,
    };
    push_all_joins(alloc, marks, lanes, hosts, row.at)?;
    push_arrows(alloc, marks, ground, row.moves.as_slice())?;
    push_at(alloc, marks, lanes, hosts, row.kind, row.at)
}

/// How wide the bar of a cost is.
fn bar_width(layout: &Layout, cost: u64) -> u64
    requires { 1 ≤ layout.now.greatest }
    ensures { result ≡ row_marks.bar_width layout.now cost }
{
    (cost.saturating_mul(90) / layout.greatest).min(90).max(1)
}

/// A cost as it is told: `5520 = 24 x 230` where it comes more than once.
fn cost_note(alloc: Global, cost: u64, weight: u32) -> Result<Bytes, AllocError>
    ensures { IfOk result (λ text. text ≡ row_marks.cost_note cost weight) }
{
    let mut text = Bytes::new(alloc);
    push_number(&mut text, cost)?;
    if 1 < weight {
        text.extend_from_slice(b" = ")?;
        push_number(&mut text, u64::from(weight))?;
        text.extend_from_slice(b" x ")?;
        push_number(&mut text, cost / u64::from(weight))?;
    }
    Ok(text)
}

/// How the bar of a cost looks.
fn bar_area(is_dear: bool) -> Area
    ensures { result ≡ row_marks.bar_area is_dear }
{
    if is_dear { Area::Dear } else { Area::Cost }
}

/// How the number of a cost looks.
fn note_style(is_dear: bool) -> Style
    ensures { result ≡ row_marks.note_style is_dear }
{
    if is_dear { Style::Bold } else { Style::Plain }
}

/// What is said of a cost: a row that is among the dearest has its place there behind it.
fn said_of_cost(alloc: Global, cost: u64, weight: u32, place: u64) -> Result<Bytes, AllocError>
    ensures { IfOk result (λ text. text ≡ row_marks.said_of_cost cost weight place) }
{
    let mut text = cost_note(alloc, cost, weight)?;
    if 0 < place {
        text.extend_from_slice(b" (")?;
        push_number(&mut text, place)?;
        text.extend_from_slice(b")")?;
    }
    Ok(text)
}

/// Adds the bar of a cost, and its number, of a row with this place among the dearest.
fn push_bar(
    alloc: Global,
    marks: &mut Marks,
    layout: &Layout,
    place: u64,
    cost: u64,
    weight: u32,
) -> Result<(), AllocError>
    requires { 1 ≤ layout.now.greatest }
    ensures { OnOk result (marks.new ≡ marks.old ++ row_marks.bar_marks layout.now place cost weight) }
{
    let width = bar_width(layout, cost);
    let is_dear = 0 < place;
    let bar = Place {
        x: layout.cost_x,
        y: 6,
    };
    marks.push(Mark::Rectangle(bar_area(is_dear), bar, width, 10))?;
    let behind = Place {
        x: layout.cost_x.saturating_add(width).saturating_add(6),
        y: 15,
    };
    let said = said_of_cost(alloc, cost, weight, place)?;
    marks.push(Mark::Text(note_style(is_dear), behind, said))
}

/// Adds what tells the cost of a row of the drawing, if there is one.
fn push_cost(
    alloc: Global,
    marks: &mut Marks,
    layout: &Layout,
    number: u64,
    cost: u64,
    weight: u32,
) -> Result<(), AllocError>
    requires { 1 ≤ layout.now.greatest }
    ensures { OnOk result (marks.new ≡ marks.old ++ row_marks.cost_marks layout.now number cost weight) }
{
    if 0 < cost {
        let place = dear_place(layout, number, cost);
        push_bar(alloc, marks, layout, place, cost, weight)
    } else {
        Ok(())
    }
}

/// The left edge of the frame of a block.
fn frame_left(row: &Row) -> u64
    ensures { result ≡ row_marks.frame_left row.now }
{
    row_x(row).saturating_sub(8)
}

/// The right edge of the frame of a block.
fn frame_right(layout: &Layout, row: &Row) -> u64
    ensures { result ≡ row_marks.frame_right layout.now row.now }
{
    layout.cost_x.saturating_sub(4 * indent(row) + 14)
}

/// The frame of a block whose rows are so high.
fn frame_mark(layout: &Layout, area: Area, inside: u64, row: &Row) -> Mark
    ensures { result ≡ row_marks.frame_mark layout.now area inside row.now }
{
    let left = frame_left(row);
    let place = Place { x: left, y: 2 };
    let width = frame_right(layout, row).saturating_sub(left);
    let height = height_of(row).saturating_add(inside);
    Mark::Rectangle(area, place, width, height.saturating_sub(4))
}

/// What parts the two blocks of a branch.
fn parting_mark(layout: &Layout, row: &Row) -> Mark
    ensures { result ≡ row_marks.parting_mark layout.now row.now }
{
    let from = Place {
        x: frame_left(row).saturating_sub(14),
        y: 2,
    };
    let to = Place {
        x: frame_right(layout, row),
        y: 2,
    };
    Mark::Line(Stroke::Otherwise, from, to)
}

/// Adds the frame of a block that a row begins.
fn push_frame(marks: &mut Marks, layout: &Layout, inside: u64, row: &Row) -> Result<(), AllocError>
    ensures { OnOk result (marks.new ≡ marks.old ++ row_marks.frame_marks layout.now inside row.now row.now.kind) }
{
    match row.kind {
        Kind::Branch => marks.push(frame_mark(layout, Area::Branch, inside, row)),
        Kind::Loop => marks.push(frame_mark(layout, Area::Loop, inside, row)),
        Kind::Otherwise => marks.push(parting_mark(layout, row)),
        Kind::Binding | Kind::Variable | Kind::Store | Kind::Output => Ok(()),
    }
}

/// Adds the marks of a row of the drawing with this number, where the rows in its block are so high, so many rows before it
/// are drawn with it, and all of them cost so much.
pub(crate) fn push_row(
    alloc: Global,
    marks: &mut Marks,
    scene: Scene,
    number: u64,
    inside: u64,
    before: u64,
    cost: u64,
    row: &Row,
) -> Result<(), AllocError>
    requires few { length scene.hosts.now ≤ most_hosts }
    requires greatest { 1 ≤ scene.layout.now.greatest }
    ensures { OnOk result (marks.new ≡ marks.old ++ row_marks.row_marks scene.entry.layout.now scene.entry.hosts.now
        scene.entry.slots.now scene.entry.labels.now number inside before cost row.now) }
{
    push_frame(marks, scene.layout, inside, row)?;
    push_words(alloc, marks, scene, before, row)?;
    push_on_lanes(alloc, marks, scene, row)?;
    push_cost(alloc, marks, scene.layout, number, cost, row.weight)
}

/// Adds the text of a row, and what is said of the slot that it makes.
fn push_words(
    alloc: Global,
    marks: &mut Marks,
    scene: Scene,
    before: u64,
    row: &Row,
) -> Result<(), AllocError>
    ensures { OnOk result (marks.new ≡ marks.old ++ row_marks.word_marks scene.entry.layout.now scene.entry.hosts.now
        scene.entry.labels.now before row.now) }
{
    marks.push(text_mark(alloc, scene.layout, before, row)?)?;
    push_slot(alloc, marks, scene, row)
}
