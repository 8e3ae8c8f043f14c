//! The drawing of a choice of protocols.

ghost use Rattle.std.specs.Prelude.{◌≡◌, ◌++◌, ◌≤◌, length, IfOk, OnOk};
ghost use Rattle.vd_base.specs.Limits.{most_hosts};
ghost use Rattle.vd_draw_picture.specs.Picture as pictures;

use crate::all_rows::push_rows;
use crate::arrows::Marks;
use crate::heads::{push_all_lanes, push_columns, push_title, width_of};
use crate::legend::{kinds_of, push_meanings};
use crate::row_marks::{Scene, height_inside};
use std::alloc::{AllocError, Global};
use vd_base::{Bytes, Items, Proto};
use vd_constraints::Labels;
use vd_core::{NormalForm, Program};
use vd_draw_layout::{Area, Layout, Mark, Place, Style, document, label_texts, layout_of};
use vd_draw_rows::{Arrow, Row, rows_of};

/// Where the rows end.
fn bottom_of(rows: &[Row]) -> u64
    ensures { result ≡ pictures.bottom_of rows.now }
{
    height_inside(0, 0, 0, rows).saturating_add(90)
}

/// Where the meanings of shapes begin, below those of so many kinds of arrows.
fn shapes_y(bottom: u64, kinds: usize) -> u64
    ensures { result ≡ pictures.shapes_y bottom kinds }
{
    (kinds as u64)
        .saturating_mul(20)
        .saturating_add(bottom)
        .saturating_add(50)
}

/// How high a drawing is whose rows end there, with so many kinds of arrows.
fn height_of(bottom: u64, kinds: usize) -> u64
    ensures { result ≡ pictures.height_of bottom kinds }
{
    shapes_y(bottom, kinds).saturating_add(46)
}

/// The page itself.
fn page_mark(width: u64, height: u64) -> Mark
    ensures { result ≡ pictures.page width height }
{
    Mark::Rectangle(Area::Page, Place { x: 0, y: 0 }, width, height)
}

/// Adds what stands above the rows, and the lanes.
fn push_front(
    alloc: Global,
    marks: &mut Marks,
    name: &[u8],
    form: &NormalForm,
    bottom: u64,
    height: u64,
    layout: &Layout,
) -> Result<(), AllocError>
    ensures { OnOk result (marks.new ≡ marks.old ++ pictures.front_marks name.now form.now layout.now bottom height) }
{
    marks.push(page_mark(width_of(layout), height))?;
    push_title(
        alloc,
        marks,
        name,
        layout,
        form.slots.as_slice().len() as u64,
    )?;
    push_columns(alloc, marks, layout)?;
    push_all_lanes(alloc, marks, &form.hosts, bottom, layout.lanes.as_slice())
}

/// The title of the legend.
#[tactic(auto, unfolding(crate::specs::Picture::legend_title))]
fn legend_title() -> &'static [u8]
    ensures { result.now ≡ pictures.legend_title }
{
    b"what arrows and shapes mean"
}

/// What stands above the meanings of arrows.
#[tactic(auto, unfolding(crate::specs::Picture::arrows_title))]
fn arrows_title() -> &'static [u8]
    ensures { result.now ≡ pictures.arrows_title }
{
    b"What goes between hosts"
}

/// Adds the beginning of the legend.
fn push_legend_head(alloc: Global, marks: &mut Marks, bottom: u64) -> Result<(), AllocError>
    ensures { OnOk result (marks.new ≡ marks.old ++ pictures.legend_head bottom) }
{
    let title = Bytes::from_slice(alloc, legend_title())?;
    let said = Bytes::from_slice(alloc, arrows_title())?;
    marks.push(Mark::Group(bottom.saturating_add(30), title))?;
    marks.push(Mark::Text(Style::Bold, Place { x: 20, y: 0 }, said))
}

/// Adds what these kinds of arrows mean, and begins the group of what shapes mean.
fn push_legend(
    alloc: Global,
    marks: &mut Marks,
    bottom: u64,
    kinds: &[Arrow],
) -> Result<(), AllocError>
    ensures { OnOk result (marks.new ≡ marks.old ++ pictures.legend bottom kinds.now) }
{
    push_legend_head(alloc, marks, bottom)?;
    push_meanings(alloc, marks, kinds)?;
    marks.push(Mark::End)?;
    marks.push(Mark::Group(shapes_y(bottom, kinds.len()), Bytes::new(alloc)))
}

/// All marks, where these kinds of arrows occur.
fn picture_marks(
    alloc: Global,
    name: &[u8],
    form: &NormalForm,
    labels: &Items<Bytes>,
    rows: &[Row],
    kinds: &[Arrow],
    layout: &Layout,
) -> Result<Marks, AllocError>
    requires few { length form.now.hosts ≤ most_hosts }
    requires greatest { 1 ≤ layout.now.greatest }
    ensures { IfOk result (λ marks. marks ≡ pictures.picture_marks name.now form.now labels.now rows.now kinds.now layout.now) }
{
    let bottom = bottom_of(rows);
    let height = height_of(bottom, kinds.len());
    let scene = Scene {
        layout,
        hosts: &form.hosts,
        slots: form.slots.as_slice(),
        labels,
    };
    let mut marks = Items::new(alloc);
    push_front(alloc, &mut marks, name, form, bottom, height, layout)?;
    push_rows(alloc, &mut marks, scene, 86, rows)?;
    push_legend(alloc, &mut marks, bottom, kinds)?;
    Ok(marks)
}

/// The drawing of some rows, where these kinds of arrows occur.
fn picture(
    alloc: Global,
    name: &[u8],
    form: &NormalForm,
    labels: &Items<Bytes>,
    rows: &[Row],
    kinds: &[Arrow],
) -> Result<Bytes, AllocError>
    requires { length form.now.hosts ≤ most_hosts }
    ensures { IfOk result (λ text. text ≡ pictures.rows_picture name.now form.now labels.now rows.now kinds.now) }
{
    let layout = layout_of(alloc, &form.hosts, labels.as_slice(), rows)?;
    let marks = picture_marks(alloc, name, form, labels, rows, kinds, &layout)?;
    document(
        alloc,
        width_of(&layout),
        height_of(bottom_of(rows), kinds.len()),
        marks.as_slice(),
    )
}

/// The drawing of a program, under these labels and with its slots at these protocols, as the bytes of an SVG file. `name`
/// and `source` are those of its source.
pub fn drawing(
    alloc: Global,
    name: &[u8],
    source: &[u8],
    program: &Program,
    labels: &Labels,
    list: &[Proto],
) -> Result<Bytes, AllocError>
    ensures { IfOk result (λ text. text ≡ pictures.drawn name.now source.now program.now labels.now list.now) }
{
    let rows = rows_of(alloc, source, program, list)?;
    let rows = rows.as_slice();
    let form = program.form();
    let labels = label_texts(alloc, form, labels)?;
    let kinds = kinds_of(alloc, rows)?;
    let kinds = kinds.as_slice();
    picture(alloc, name, form, &labels, rows, kinds)
}
