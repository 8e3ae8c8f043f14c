//! The marks of all rows, one after another from above.

ghost use Rattle.std.specs.Prelude.{◌≡◌, ◌++◌, ◌≤◌, length, IfOk, OnOk};
ghost use Rattle.vd_base.specs.Limits.{most_hosts};
ghost use Rattle.vd_draw_picture.specs.AllRows as rows_spec;

use crate::arrows::Marks;
use crate::heads::push_heads;
use crate::row_marks::{
    Scene, has_names, height_above, height_inside, is_other_line, line_behind, names_height,
    next_last, next_number, push_row, row_x, whole_height,
};
use std::alloc::{AllocError, Global};
use vd_base::{Bytes, Names};
use vd_draw_layout::{
    Lane, Layout, Mark, Place, Style, cost_of, cut, goes_on, push_number, push_row_title,
};
use vd_draw_rows::{Line, Row, is_seen_on_the_way};

/// Rows that are drawn as one: how many, what they cost, and their titles.
#[derive(Drop)]
pub(crate) struct Run {
    pub count: u64,
    pub cost: u64,
    pub title: Bytes,
}

/// Where a row stands: so far down, below so many rows of the drawing, and behind the line of the source that was shown last.
#[derive(Clone, Copy)]
struct RowAt {
    y: u64,
    number: u64,
    last: usize,
}

impl Run {
    /// No rows.
    fn none(alloc: Global) -> Run
        ensures { result ≡ rows_spec.no_run }
    {
        Run {
            count: 0,
            cost: 0,
            title: Bytes::new(alloc),
        }
    }
}

/// Adds a row to a run.
fn add_row(alloc: Global, run: &mut Run, scene: Scene, row: &Row) -> Result<(), AllocError>
    ensures { OnOk result (run.new ≡ rows_spec.with_row scene.entry.layout.now scene.entry.hosts.now scene.entry.slots.now
        scene.entry.labels.now run.old
        row.now) }
{
    run.count = run.count.saturating_add(1);
    run.cost = run.cost.saturating_add(cost_of(row));
    push_row_title(
        alloc,
        &mut run.title,
        scene.hosts,
        scene.slots,
        scene.labels,
        row,
    )
}

/// A line of the source, as it is shown.
fn line_said(alloc: Global, line: &Line) -> Result<Bytes, AllocError>
    ensures { IfOk result (λ text. text ≡ rows_spec.line_said line.now) }
{
    let mut text = Bytes::new(alloc);
    push_number(&mut text, line.number as u64)?;
    text.extend_from_slice(b": ")?;
    text.extend_from_slice(line.text.as_slice())?;
    Ok(text)
}

/// The letters that a line of the source may have, up to the lanes.
fn line_room(layout: &Layout, x: u64) -> u64
    ensures room { result ≡ rows_spec.line_room layout.now x }
    ensures some { 8 ≤ result }
{
    (layout.lanes_x.saturating_sub(x) / 7).max(8)
}

/// Adds a line of the source.
fn push_line(
    alloc: Global,
    marks: &mut Marks,
    layout: &Layout,
    y: u64,
    x: u64,
    line: &Line,
) -> Result<(), AllocError>
    ensures { OnOk result (marks.new ≡ marks.old ++ rows_spec.line_marks layout.now y x line.now) }
{
    let said = line_said(alloc, line)?;
    let shown = cut(alloc, line_room(layout, x) as usize, said.as_slice())?;
    let place = Place { x, y: 13 };
    marks.push(Mark::Group(y, Bytes::new(alloc)))?;
    marks.push(Mark::Text(Style::Source, place, shown))?;
    marks.push(Mark::End)
}

/// Adds the line of the source above a row, if there is one.
fn push_source_line(
    alloc: Global,
    marks: &mut Marks,
    layout: &Layout,
    y: u64,
    last: usize,
    row: &Row,
) -> Result<(), AllocError>
    ensures { OnOk result (marks.new ≡ marks.old ++ rows_spec.line_above layout.now y last row.now) }
{
    match &row.line {
        Some(line) => {
            if is_other_line(last, &row.line) {
                push_line(alloc, marks, layout, y, row_x(row), line)
            } else {
                Ok(())
            }
        }
        None => Ok(()),
    }
}

/// Adds the names of the lanes again.
fn push_names(
    alloc: Global,
    marks: &mut Marks,
    hosts: &Names,
    y: u64,
    lanes: &[Lane],
) -> Result<(), AllocError>
    ensures { OnOk result (marks.new ≡ marks.old ++ rows_spec.names_marks hosts.now y lanes.now) }
{
    marks.push(Mark::Group(y.saturating_sub(46), Bytes::new(alloc)))?;
    push_heads(alloc, marks, hosts, lanes)?;
    marks.push(Mark::End)
}

/// Adds the names of the lanes above a row of the drawing, where they stand there.
fn push_names_above(
    alloc: Global,
    marks: &mut Marks,
    scene: Scene,
    y: u64,
    number: u64,
) -> Result<(), AllocError>
    ensures { OnOk result (marks.new ≡ marks.old ++ rows_spec.names_above scene.entry.layout.now scene.entry.hosts.now y number) }
{
    if has_names(number) {
        push_names(alloc, marks, scene.hosts, y, scene.layout.lanes.as_slice())?;
    }
    Ok(())
}

/// Adds what stands above a row of the drawing: the names of the lanes, and a line of the source.
fn push_above(
    alloc: Global,
    marks: &mut Marks,
    scene: Scene,
    at: RowAt,
    row: &Row,
) -> Result<(), AllocError>
    ensures { OnOk result (marks.new ≡ marks.old ++ rows_spec.above_marks scene.entry.layout.now scene.entry.hosts.now
        at.y at.number at.last row.now) }
{
    push_names_above(alloc, marks, scene, at.y, at.number)?;
    let below = at.y.saturating_add(names_height(at.number));
    push_source_line(alloc, marks, scene.layout, below, at.last, row)
}

/// What is said of a branch in which hosts send.
#[tactic(auto, unfolding(crate::specs::AllRows::way_said))]
fn way_said() -> &'static [u8]
    ensures { result.now ≡ rows_spec.way_said }
{
    b"seen on the way"
}

/// Adds that who is on the way sees which way a branch goes, where hosts send in it.
fn push_way(
    alloc: Global,
    marks: &mut Marks,
    layout: &Layout,
    row: &Row,
    rest: &[Row],
) -> Result<(), AllocError>
    ensures { OnOk result (marks.new ≡ marks.old ++ rows_spec.way_marks layout.now row.now rest.now) }
{
    if is_seen_on_the_way(row, rest) {
        let said = Bytes::from_slice(alloc, way_said())?;
        let place = Place {
            x: layout.label_x,
            y: 15,
        };
        marks.push(Mark::Text(Style::Small, place, said))?;
    }
    Ok(())
}

/// Adds a row with those before it that are drawn with it.
fn push_group(
    alloc: Global,
    marks: &mut Marks,
    scene: Scene,
    at: RowAt,
    run: Run,
    row: &Row,
    rest: &[Row],
) -> Result<(), AllocError>
    requires few { length scene.hosts.now ≤ most_hosts }
    requires greatest { 1 ≤ scene.layout.now.greatest }
    ensures { OnOk result (marks.new ≡ marks.old ++ rows_spec.group_marks scene.entry.layout.now scene.entry.hosts.now
        scene.entry.slots.now scene.entry.labels.now at.y at.number at.last run row.now rest.now) }
{
    let shown = line_behind(at.last, &row.line);
    let inside = height_inside(row.depth, at.number.saturating_add(1), shown, rest);
    let Run { count, cost, title } = run;
    let top = at.y.saturating_add(height_above(at.number, at.last, row));
    marks.push(Mark::Group(top, title))?;
    push_row(
        alloc,
        marks,
        scene,
        at.number,
        inside,
        count.saturating_sub(1),
        cost,
        row,
    )?;
    push_way(alloc, marks, scene.layout, row, rest)?;
    marks.push(Mark::End)
}

/// Adds the marks of a row, unless it is drawn with the one behind it; and gives the rows that wait then.
fn push_step(
    alloc: Global,
    marks: &mut Marks,
    scene: Scene,
    at: RowAt,
    run: Run,
    row: &Row,
    rest: &[Row],
) -> Result<Run, AllocError>
    requires few { length scene.hosts.now ≤ most_hosts }
    requires greatest { 1 ≤ scene.layout.now.greatest }
    ensures marks { OnOk result (marks.new ≡ marks.old ++ rows_spec.step_marks scene.entry.layout.now scene.entry.hosts.now
        scene.entry.slots.now scene.entry.labels.now at.y at.number at.last run row.now rest.now) }
    ensures run { IfOk result (λ next. next ≡ rows_spec.next_run scene.entry.layout.now scene.entry.hosts.now scene.entry.slots.now
        scene.entry.labels.now run row.now rest.now) }
{
    if goes_on(row, rest) {
        return Ok(run);
    }
    push_above(alloc, marks, scene, at, row)?;
    push_group(alloc, marks, scene, at, run, row, rest)?;
    Ok(Run::none(alloc))
}

/// Adds the marks of all rows, from so far below.
pub(crate) fn push_rows(
    alloc: Global,
    marks: &mut Marks,
    scene: Scene,
    top: u64,
    rows: &[Row],
) -> Result<(), AllocError>
    requires few { length scene.hosts.now ≤ most_hosts }
    requires greatest { 1 ≤ scene.layout.now.greatest }
    ensures { OnOk result (marks.new ≡ marks.old ++ rows_spec.rows_marks scene.entry.layout.now scene.entry.hosts.now
        scene.entry.slots.now scene.entry.labels.now top 0 0 rows_spec.no_run rows.now) }
{
    let mut y = top;
    let mut number: u64 = 0;
    let mut last = 0;
    let mut run = Run::none(alloc);
    for place in 0..rows.len() {
        let row = &rows[place];
        let rest = &rows[place + 1..];
        add_row(alloc, &mut run, scene, row)?;
        let at = RowAt { y, number, last };
        run = push_step(alloc, marks, scene, at, run, row, rest)?;
        y = y.saturating_add(whole_height(0, number, last, row, rest));
        last = next_last(last, row, rest);
        number = next_number(number, row, rest);
    }
    Ok(())
}
