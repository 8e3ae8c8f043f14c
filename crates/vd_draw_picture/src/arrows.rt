//! The arrows of a row: one for each word that is moved for it, in a line of its own.

ghost use Rattle.std.specs.Prelude.{◌≡◌, ◌++◌, IfOk, OnOk};
ghost use Rattle.std.specs.List.{flat_map};
ghost use Rattle.vd_base.specs.declared.protocols.Proto.TheVariants.{Rep as rep};
ghost use Rattle.vd_draw_rows.specs.Moves.{is_told as told_word};
ghost use Rattle.vd_draw_picture.specs.Arrows as arrows;
ghost use Rattle.vd_draw_layout.specs.Lanes.{hosts_x};

use std::alloc::{AllocError, Global};
use vd_base::{Bytes, HostId, HostSet, Items, Proto};
use vd_core::Slot;
use vd_draw_layout::{Lane, Mark, Place, Stroke, Style, cut, lane_x, push_x, set_x};
use vd_draw_rows::{Arrow, Move, arrow_of, is_seen, is_told, slot_name};

/// Marks in order.
pub(crate) type Marks = Items<Mark>;

/// How an arrow looks.
fn stroke_of(arrow: Arrow) -> Stroke
    ensures { result ≡ arrows.stroke_of arrow }
{
    match arrow {
        Arrow::Clear => Stroke::Clear,
        Arrow::Checked => Stroke::Checked,
        Arrow::Opened => Stroke::Opened,
        Arrow::Revealed => Stroke::Revealed,
        Arrow::Shared => Stroke::Shared,
        Arrow::Committed => Stroke::Committed,
        Arrow::Converted => Stroke::Converted,
        Arrow::Stays => Stroke::Stays,
    }
}

/// The head of an arrow ends before the lane to which it goes.
fn head_x(from: u64, to: u64) -> u64
    ensures { result ≡ arrows.head_x from to }
{
    if from < to {
        to.saturating_sub(18)
    } else {
        to.saturating_add(18)
    }
}

/// The name stands half a gap from where the arrow begins.
fn name_x(half: u64, from: u64, to: u64) -> u64
    ensures { result ≡ arrows.name_x half from to }
{
    if from < to {
        from.saturating_add(half)
    } else {
        from.saturating_sub(half)
    }
}

/// Adds the white middle of what is opened.
fn push_middle(marks: &mut Marks, arrow: Arrow, from: Place, to: Place) -> Result<(), AllocError>
    ensures { OnOk result (marks.new ≡ marks.old ++ arrows.middle_of arrow from to) }
{
    match arrow {
        Arrow::Opened => marks.push(Mark::Line(Stroke::Middle, from, to)),
        _ => Ok(()),
    }
}

/// Adds a line from one lane to another.
pub(crate) fn push_line(
    marks: &mut Marks,
    arrow: Arrow,
    y: u64,
    from: u64,
    to: u64,
) -> Result<(), AllocError>
    ensures { OnOk result (marks.new ≡ marks.old ++ arrows.line_marks arrow y from to) }
{
    let begin = Place { x: from, y };
    let end = Place {
        x: head_x(from, to),
        y,
    };
    marks.push(Mark::Line(stroke_of(arrow), begin, end))?;
    push_middle(marks, arrow, begin, end)
}

/// Adds lines from one lane to others.
fn push_lines_to(
    marks: &mut Marks,
    arrow: Arrow,
    y: u64,
    tos: &[u64],
    from: u64,
) -> Result<(), AllocError>
    ensures { OnOk result (marks.new ≡ marks.old ++ arrows.lines_to arrow y tos.now from) }
{
    for to in tos {
        push_line(marks, arrow, y, from, *to)?;
    }
    Ok(())
}

/// Adds lines from some lanes to others.
fn push_all_lines(
    marks: &mut Marks,
    arrow: Arrow,
    y: u64,
    froms: &[u64],
    tos: &[u64],
) -> Result<(), AllocError>
    ensures { OnOk result (marks.new ≡ marks.old ++ arrows.all_lines arrow y froms.now tos.now) }
{
    for from in froms {
        push_lines_to(marks, arrow, y, tos, *from)?;
    }
    Ok(())
}

/// Adds the name of a word, on the first of some lines.
fn push_name(
    alloc: Global,
    marks: &mut Marks,
    half: u64,
    y: u64,
    name: &[u8],
    froms: &[u64],
    tos: &[u64],
) -> Result<(), AllocError>
    ensures { OnOk result (marks.new ≡ marks.old ++ arrows.name_marks half y name.now froms.now tos.now) }
{
    let (Some(from), Some(to)) = (froms.first(), tos.first()) else {
        return Ok(());
    };
    let place = Place {
        x: name_x(half, *from, *to),
        y: y.saturating_add(3),
    };
    let halo = Bytes::from_slice(alloc, name)?;
    marks.push(Mark::Text(Style::Halo, place, halo))?;
    let name = Bytes::from_slice(alloc, name)?;
    marks.push(Mark::Text(Style::Name, place, name))
}

/// One lane.
pub(crate) fn xs_of_lane(
    alloc: Global,
    lanes: &[Lane],
    protocol: Proto,
) -> Result<Items<u64>, AllocError>
    ensures { IfOk result (λ xs. xs ≡ arrows.xs_of_lane lanes.now protocol) }
{
    let mut xs = Items::new(alloc);
    xs.push(lane_x(lanes, protocol))?;
    Ok(xs)
}

/// Where an arrow begins: at each copy, where they are compared; where copies become shared words, at the later host.
fn begins(
    alloc: Global,
    lanes: &[Lane],
    hosts: u8,
    from: Proto,
    to: Proto,
) -> Result<Items<u64>, AllocError>
    ensures { IfOk result (λ xs. xs ≡ arrows.begins lanes.now hosts from to) }
{
    match (from, to) {
        (Proto::Rep(_), Proto::Add(_, later) | Proto::Xor(_, later)) => {
            xs_of_lane(alloc, lanes, Proto::Local(later))
        }
        (Proto::Rep(set), _) => set_x(alloc, lanes, hosts, set),
        _ => xs_of_lane(alloc, lanes, from),
    }
}

/// The lanes of the hosts that are told a word that goes to copies.
fn told_x(
    alloc: Global,
    lanes: &[Lane],
    hosts: u8,
    from: Proto,
    set: HostSet,
) -> Result<Items<u64>, AllocError>
    ensures { IfOk result (λ xs. xs ≡ hosts_x lanes.now (λ h. told_word h from (rep set)) hosts) }
{
    let mut xs = Items::new(alloc);
    for host in 0..hosts {
        let is_told = is_told(HostId(host), from, Proto::Rep(set));
        push_x(&mut xs, lanes, HostId(host), is_told)?;
    }
    Ok(xs)
}

/// Where an arrow ends: at each host that is told the word, where it goes to copies.
fn ends(
    alloc: Global,
    lanes: &[Lane],
    hosts: u8,
    from: Proto,
    to: Proto,
) -> Result<Items<u64>, AllocError>
    ensures { IfOk result (λ xs. xs ≡ arrows.ends lanes.now hosts from to) }
{
    match to {
        Proto::Rep(set) => told_x(alloc, lanes, hosts, from, set),
        _ => xs_of_lane(alloc, lanes, to),
    }
}

/// What is needed to draw arrows: the lanes, how many hosts there are, half of the gap between two lanes, and the slots.
#[derive(Clone, Copy)]
pub(crate) struct Ground<'a> {
    pub lanes: &'a [Lane],
    pub hosts: u8,
    pub half: u64,
    pub slots: &'a [Slot],
}

/// Adds the arrow of a word that is moved.
fn push_move(
    alloc: Global,
    marks: &mut Marks,
    ground: Ground,
    y: u64,
    one: &Move,
) -> Result<(), AllocError>
    ensures { OnOk result (marks.new ≡ marks.old ++ arrows.move_marks ground.entry.lanes.now ground.entry.hosts ground.entry.half
        ground.entry.slots.now y one.now) }
{
    let name = slot_name(alloc, ground.slots, one.slot)?;
    let name = cut(alloc, 10, name.as_slice())?;
    let froms = begins(alloc, ground.lanes, ground.hosts, one.from, one.to)?;
    let tos = ends(alloc, ground.lanes, ground.hosts, one.from, one.to)?;
    let (froms, tos) = (froms.as_slice(), tos.as_slice());
    push_all_lines(marks, arrow_of(one.from, one.to), y, froms, tos)?;
    push_name(alloc, marks, ground.half, y, name.as_slice(), froms, tos)
}

/// Adds the arrows of words that are moved, one below the other.
pub(crate) fn push_arrows(
    alloc: Global,
    marks: &mut Marks,
    ground: Ground,
    moves: &[Move],
) -> Result<(), AllocError>
    ensures { OnOk result (marks.new ≡ marks.old ++ arrows.arrow_marks ground.entry.lanes.now ground.entry.hosts ground.entry.half
        ground.entry.slots.now 11 moves.now) }
{
    let mut y = 11;
    for one in moves {
        if is_seen(one.from, one.to) {
            push_move(alloc, marks, ground, y, one)?;
            y = y.saturating_add(15);
        }
    }
    Ok(())
}
