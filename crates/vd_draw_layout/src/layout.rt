//! Where everything stands: columns from left to right, by whole numbers.

ghost use Rattle.std.specs.Prelude.{◌≡◌, ◌≤◌, length, map, IfOk};
ghost use Rattle.vd_base.specs.Limits.{most_hosts};
ghost use Rattle.vd_draw_layout.specs.Layout as layouts;

use crate::lanes::{Lane, lane_protocols, lanes_from};
use crate::numbers::cost_of;
use crate::runs::{Drawn, drawn_rows};
use crate::words::{label_text, protocol_name};
use std::alloc::{AllocError, Global};
use vd_base::{Bytes, Items, Names, Proto};
use vd_constraints::Labels;
use vd_core::NormalForm;
use vd_draw_rows::Row;

/// The columns of a drawing.
#[derive(Drop)]
pub struct Layout {
    /// How many letters the column of texts has.
    pub text_letters: u64,
    pub label_x: u64,
    pub protocol_x: u64,
    /// Where the room for the lanes begins.
    pub lanes_x: u64,
    /// Half of the gap between two lanes.
    pub half: u64,
    pub lanes: Items<Lane>,
    pub cost_x: u64,
    /// The rows of the drawing, from above.
    pub drawn: Items<Drawn>,
    /// The greatest cost of a row of the drawing, at least 1.
    pub greatest: u64,
    /// What all rows cost.
    pub total: u64,
}

/// How deep a row is drawn.
pub fn indent(row: &Row) -> u64
    ensures indent { result ≡ layouts.indent row.now }
    ensures small { result ≤ 12 }
{
    u64::from(row.depth.saturating_sub(1).min(12))
}

/// The letters that a row takes, with its number and its indentation: 4 for the number, 2 for each block around it.
fn letters_of(row: &Row) -> u64
    ensures { result ≡ layouts.letters_of row.now }
{
    row.text.as_slice().len().min(56) as u64 + 4 + 2 * indent(row)
}

/// How many letters the column of texts has.
fn text_letters(rows: &[Row]) -> u64
    ensures { result ≡ layouts.text_letters rows.now }
{
    let mut most = 0;
    for row in rows {
        most = letters_of(row).max(most);
    }
    most.max(24)
}

/// How many letters the column of labels has.
fn label_letters(labels: &[Bytes]) -> u64
    ensures { result ≡ layouts.label_letters labels.now }
{
    let mut most = 0;
    for label in labels {
        most = (label.as_slice().len().min(34) as u64).max(most);
    }
    most.max(6)
}

/// How many letters the name of a protocol takes.
pub fn name_length(alloc: Global, hosts: &Names, protocol: Proto) -> Result<u64, AllocError>
    ensures { IfOk result (λ letters. letters ≡ layouts.name_length hosts.now protocol) }
{
    let name = protocol_name(alloc, hosts, protocol)?;
    Ok(name.as_slice().len().min(30) as u64)
}

/// How many letters the names of lanes have.
fn lane_letters(alloc: Global, hosts: &Names, protocols: &[Proto]) -> Result<u64, AllocError>
    ensures { IfOk result (λ letters. letters ≡ layouts.lane_letters hosts.now protocols.now) }
{
    let mut most = 0;
    for protocol in protocols {
        most = name_length(alloc, hosts, *protocol)?.max(most);
    }
    Ok(most.max(9))
}

/// Half of the gap between two lanes.
fn half_gap(letters: u64) -> u64
    ensures { result ≡ layouts.half_gap letters }
{
    letters.saturating_mul(4).saturating_add(4).max(46)
}

/// Where the column of labels begins.
fn label_x(letters: u64) -> u64
    ensures { result ≡ layouts.label_x letters }
{
    letters.saturating_mul(7).saturating_add(34)
}

/// Where the next column begins behind one of so many small letters.
fn behind_column(x: u64, letters: u64) -> u64
    ensures { result ≡ layouts.behind_column x letters }
{
    letters
        .saturating_mul(6)
        .saturating_add(x)
        .saturating_add(14)
}

/// The greatest cost of a row of the drawing, at least 1.
fn greatest_cost(drawn: &[Drawn]) -> u64
    ensures { result ≡ layouts.greatest_cost drawn.now }
{
    let mut most = 0;
    for row in drawn {
        most = row.cost.max(most);
    }
    most.max(1)
}

/// What the costs of all rows add up to.
fn total_cost(rows: &[Row]) -> u64
    ensures { result ≡ layouts.total_cost rows.now }
{
    let mut total: u64 = 0;
    for row in rows {
        total = total.saturating_add(cost_of(row));
    }
    total
}

/// The columns, from the letters of those of texts, labels and protocols, and the protocols of the lanes.
fn columns(
    alloc: Global,
    rows: &[Row],
    texts: u64,
    labels: u64,
    names: u64,
    protocols: &[Proto],
) -> Result<Layout, AllocError>
    ensures { IfOk result (λ layout. layout ≡ layouts.columns rows.now texts labels names protocols.now) }
{
    let label_x = label_x(texts);
    let protocol_x = behind_column(label_x, labels);
    let lanes_x = behind_column(protocol_x, names);
    let half = half_gap(names);
    let gap = half.saturating_add(half);
    let right = (protocols.len() as u64).saturating_mul(gap);
    let drawn = drawn_rows(alloc, rows)?;
    let greatest = greatest_cost(drawn.as_slice());
    Ok(Layout {
        text_letters: texts,
        label_x,
        protocol_x,
        lanes_x,
        half,
        lanes: lanes_from(alloc, lanes_x.saturating_add(half), gap, protocols)?,
        cost_x: right.saturating_add(lanes_x).saturating_add(26),
        drawn,
        greatest,
        total: total_cost(rows),
    })
}

/// The labels of the slots, as they are printed.
pub fn label_texts(
    alloc: Global,
    form: &NormalForm,
    labels: &Labels,
) -> Result<Items<Bytes>, AllocError>
    ensures { IfOk result (λ texts. texts ≡ layouts.label_texts form.now labels.now) }
{
    let mut texts = Items::new(alloc);
    for label in labels.slots.as_slice() {
        texts.push(label_text(alloc, &form.principals, label)?)?;
    }
    Ok(texts)
}

/// The columns of the drawing of some rows.
pub fn layout_of(
    alloc: Global,
    hosts: &Names,
    labels: &[Bytes],
    rows: &[Row],
) -> Result<Layout, AllocError>
    requires { length hosts.now ≤ most_hosts }
    ensures { IfOk result (λ layout. layout ≡ layouts.layout_of hosts.now labels.now rows.now) }
{
    let protocols = lane_protocols(alloc, rows, hosts.as_slice().len() as u8)?;
    let protocols = protocols.as_slice();
    let names = lane_letters(alloc, hosts, protocols)?;
    columns(
        alloc,
        rows,
        text_letters(rows),
        label_letters(labels),
        names,
        protocols,
    )
}
