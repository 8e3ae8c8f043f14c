//! How lines of joint code rank: by depth, the longest chain of what comes one after the other, in rounds, and no lower than what stood
//! before them and they may not pass. In a round acts come first, and then packets. A packet is heard in the next round.

ghost use Rattle.std.specs.Prelude.{◌≡◌, ◌+◌, ◌<◌, IfOk, OnOk, length, slice_index};
ghost use Rattle.vd_execution.specs.Registers.{put};
ghost use Rattle.vd_reorder.specs.InRows.{in_row, in_rows};
ghost use Rattle.vd_reorder.specs.ReorderLawsTesting.{meet, needs};
ghost use Rattle.vd_choreography_reorder.specs.Passing.{turn_of};
ghost use Rattle.vd_choreography_reorder.specs.Ranks as order;
ghost use Rattle.vd_choreography_reorder.specs.Ranks.{behind_line, deepest, line_rank, nothing_left, noted, raised, raised_if};
ghost use Rattle.vd_choreography_reorder.specs.Testing.{opened_at};

use std::alloc::{AllocError, Global};
use vd_base::{HostId, Items};
use vd_execution::{Act, Action, Line, Reg};
use vd_reorder::{Row, Rows, have_common, is_simple, read_by, written_by};

/// The place behind which all lines stand.
const FLOOR: usize = 8;

/// The place behind which marks of blocks stand.
const TOP: usize = 9;

/// The ranks of a round: that of acts, and those of packets.
const ROUND: u64 = 65537;

/// A line of joint code, and how it ranks.
#[derive(Drop)]
pub(crate) struct Ranked {
    pub rank: u64,
    pub line: Line,
}

/// The place of what a host prints, compares and opens.
fn telling_place(host: HostId) -> usize
    ensures { result ≡ order.telling_place host.0 }
{
    usize::from(host.0) % 4
}

/// The place of the items that a host takes.
fn taking_place(host: HostId) -> usize
    ensures { result ≡ order.taking_place host.0 }
{
    usize::from(host.0) % 4 + 4
}

/// The column of the words of a host's registers.
fn word_column(host: HostId) -> usize
    ensures { result ≡ order.word_column host.0 }
{
    usize::from(host.0) % 4
}

/// The column of where other words are written to a host's registers.
fn room_column(host: HostId) -> usize
    ensures { result ≡ order.room_column host.0 }
{
    usize::from(host.0) % 4 + 4
}

/// The place of a register in a column of the table.
fn place_of(column: usize, register: usize) -> usize
    requires { register < 8589934592 }
    ensures { result ≡ order.place_of column register }
{
    (register + 2) * 8 + column % 8
}

/// The rank at a place of the table.
fn rank_at(ranks: &[u64], place: usize) -> u64
    ensures { result ≡ slice_index ranks.now place }
{
    match ranks.get(place) {
        Some(rank) => *rank,
        None => 0,
    }
}

/// The rank at a place of the table, where it matters.
fn held(ranks: &[u64], matters: bool, place: usize) -> u64
    ensures { result ≡ order.held matters place (slice_index ranks.now) }
{
    if matters { rank_at(ranks, place) } else { 0 }
}

/// Makes room in the table for a place. Nothing was left there.
fn make_room(ranks: &mut Items<u64>, place: usize) -> Result<(), AllocError>
    ensures room { OnOk result (place < length ranks.new) }
    ensures same { OnOk result (slice_index ranks.new ≡ slice_index ranks.old) }
{
    'places: while ranks.as_slice().len() <= place {
        ranks.push(0)?;
    }
    Ok(())
}

/// Writes down the rank at a place.
#[tactic(auto, using(crate::proofs::Tables::put_there))]
fn note(ranks: &mut Items<u64>, place: usize, rank: u64) -> Result<(), AllocError>
    ensures { OnOk result (slice_index ranks.new ≡ put (slice_index ranks.old) place rank) }
{
    make_room(ranks, place)?;
    ranks.set(place, rank);
    Ok(())
}

/// Leaves a rank at a place, if no greater one was left there.
fn raise(ranks: &mut Items<u64>, place: usize, rank: u64) -> Result<(), AllocError>
    ensures { OnOk result (slice_index ranks.new ≡ raised place rank (slice_index ranks.old)) }
{
    let greatest = rank.max(rank_at(ranks.as_slice(), place));
    note(ranks, place, greatest)
}

/// Leaves a rank at a place, where it matters.
fn raise_if(
    ranks: &mut Items<u64>,
    matters: bool,
    place: usize,
    rank: u64,
) -> Result<(), AllocError>
    ensures { OnOk result (slice_index ranks.new ≡ raised_if matters place rank (slice_index ranks.old)) }
{
    if matters {
        raise(ranks, place, rank)
    } else {
        Ok(())
    }
}

/// The greatest of a rank and of those of the registers of a row.
#[tactic(auto, using(crate::proofs::Tables::deepest_next, crate::proofs::Tables::deepest_none))]
fn row_rank(ranks: &[u64], column: usize, row: Row, least: u64) -> u64
    ensures { result ≡ deepest (slice_index ranks.now) column least (in_row row) }
{
    let mut deepest = least;
    let mut register = row.first.0 as usize;
    let mut left = row.count;
    'registers: while left > 0 {
        let rank = rank_at(ranks, place_of(column, register));
        deepest = deepest.max(rank);
        register += 1;
        left -= 1;
    }
    deepest
}

/// The greatest of a rank and of those of the registers of three rows.
#[tactic(auto, using(crate::proofs::Tables::deepest_rows))]
fn rows_rank(ranks: &[u64], column: usize, rows: Rows, least: u64) -> u64
    ensures { result ≡ deepest (slice_index ranks.now) column least (in_rows rows) }
{
    let first = row_rank(ranks, column, rows.first, least);
    let second = row_rank(ranks, column, rows.second, first);
    row_rank(ranks, column, rows.third, second)
}

/// The greatest of a rank and of those of some registers.
fn words_rank(ranks: &[u64], column: usize, registers: &[Reg], least: u64) -> u64
    ensures { result ≡ deepest (slice_index ranks.now) column least registers.now }
{
    let mut deepest = least;
    for register in registers {
        let rank = rank_at(ranks, place_of(column, register.0 as usize));
        deepest = deepest.max(rank);
    }
    deepest
}

/// Leaves a rank at the registers of a row.
#[tactic(auto, using(crate::proofs::Tables::noted_next, crate::proofs::Tables::noted_none))]
fn raise_row(ranks: &mut Items<u64>, column: usize, row: Row, rank: u64) -> Result<(), AllocError>
    ensures { OnOk result (slice_index ranks.new ≡ noted column (in_row row) rank (slice_index ranks.old)) }
{
    let mut register = row.first.0 as usize;
    let mut left = row.count;
    'registers: while left > 0 {
        raise(ranks, place_of(column, register), rank)?;
        register += 1;
        left -= 1;
    }
    Ok(())
}

/// Leaves a rank at the registers of three rows.
#[tactic(auto, using(crate::proofs::Tables::noted_rows))]
fn raise_rows(
    ranks: &mut Items<u64>,
    column: usize,
    rows: Rows,
    rank: u64,
) -> Result<(), AllocError>
    ensures { OnOk result (slice_index ranks.new ≡ noted column (in_rows rows) rank (slice_index ranks.old)) }
{
    raise_row(ranks, column, rows.first, rank)?;
    raise_row(ranks, column, rows.second, rank)?;
    raise_row(ranks, column, rows.third, rank)
}

/// Leaves a rank at some registers.
fn raise_all(
    ranks: &mut Items<u64>,
    column: usize,
    registers: &[Reg],
    rank: u64,
) -> Result<(), AllocError>
    ensures { OnOk result (slice_index ranks.new ≡ noted column registers.now rank (slice_index ranks.old)) }
{
    for register in registers {
        raise(ranks, place_of(column, register.0 as usize), rank)?;
    }
    Ok(())
}

/// So many ranks behind the begin of a round.
fn from_begin(further: u64, rank: u64) -> u64
    ensures { result ≡ order.from_begin further rank }
{
    rank.saturating_sub(rank % ROUND).saturating_add(further)
}

/// The first rank of the next round.
fn next_round(rank: u64) -> u64
    ensures { result ≡ order.next_round rank }
{
    rank.max(from_begin(ROUND, rank))
}

/// Where a packet stands in its round: by sender and receiver.
fn packet_place(from: HostId, to: HostId) -> u64
    ensures { result ≡ order.packet_place from.0 to.0 }
{
    1 + u64::from(from.0) * 256 + u64::from(to.0)
}

/// The rank of a packet in the round of a rank, and no lower than that.
fn among_packets(rank: u64, from: HostId, to: HostId) -> u64
    ensures { result ≡ order.among_packets rank from.0 to.0 }
{
    rank.max(from_begin(packet_place(from, to), rank))
}

/// Whether an action takes an item of a list.
fn takes_item(action: &Action) -> bool
    ensures { result ≡ order.takes_item (needs action.now) }
{
    matches!(
        action,
        Action::Own(_)
            | Action::Triple(_, _, _, _)
            | Action::Bits(_, _, _, _)
            | Action::Pair(_, _, _)
            | Action::Input(_)
    )
}

/// The least rank of an act, whatever its registers are.
fn act_floor(ranks: &[u64], host: HostId, action: &Action) -> u64
    ensures { result ≡ order.act_floor (slice_index ranks.now) host.0 action.now }
{
    let floor = rank_at(ranks, FLOOR);
    let taken = held(ranks, takes_item(action), taking_place(host));
    let told = held(ranks, !is_simple(action), telling_place(host));
    floor.max(taken).max(told)
}

/// The rank of an act.
fn act_rank(ranks: &[u64], host: HostId, action: &Action) -> u64
    ensures { result ≡ order.act_rank (slice_index ranks.now) host.0 action.now }
{
    let floor = act_floor(ranks, host, action);
    let read = rows_rank(ranks, word_column(host), read_by(action), floor);
    rows_rank(ranks, room_column(host), written_by(action), read)
}

/// Leaves the rank of an act at what it needs.
fn leave_act(
    ranks: &mut Items<u64>,
    host: HostId,
    action: &Action,
    rank: u64,
) -> Result<(), AllocError>
    ensures { OnOk result (slice_index ranks.new ≡ order.act_left host.0 action.now rank (slice_index ranks.old)) }
{
    raise_rows(ranks, word_column(host), written_by(action), rank)?;
    raise_rows(ranks, room_column(host), written_by(action), rank)?;
    raise_rows(ranks, room_column(host), read_by(action), rank)?;
    raise_if(ranks, !is_simple(action), telling_place(host), rank)?;
    raise_if(ranks, takes_item(action), taking_place(host), rank)?;
    raise(ranks, TOP, rank)
}

/// The rank of a packet, which opens words or does not.
fn packet_rank(
    ranks: &[u64],
    opens: bool,
    from: HostId,
    said: &[Reg],
    to: HostId,
    heard: &[Reg],
) -> u64
    ensures { result ≡ order.packet_rank opens (slice_index ranks.now) from.0 said.now to.0 heard.now }
{
    let floor = rank_at(ranks, FLOOR).max(held(ranks, opens, telling_place(from)));
    let told = words_rank(ranks, word_column(from), said, floor);
    let least = words_rank(ranks, room_column(to), heard, told);
    among_packets(least, from, to)
}

/// Leaves the rank of a packet at what its sender tells.
fn leave_told(
    ranks: &mut Items<u64>,
    opens: bool,
    from: HostId,
    said: &[Reg],
    rank: u64,
) -> Result<(), AllocError>
    ensures { OnOk result (slice_index ranks.new ≡ order.told_left opens from.0 said.now rank (slice_index ranks.old)) }
{
    raise_all(ranks, room_column(from), said, rank)?;
    raise_if(ranks, opens, telling_place(from), rank)
}

/// Leaves a rank at what a receiver hears.
fn leave_heard(
    ranks: &mut Items<u64>,
    to: HostId,
    heard: &[Reg],
    rank: u64,
) -> Result<(), AllocError>
    ensures { OnOk result (slice_index ranks.new ≡ order.heard_left to.0 heard.now rank (slice_index ranks.old)) }
{
    raise_all(ranks, word_column(to), heard, rank)?;
    raise_all(ranks, room_column(to), heard, rank)?;
    raise(ranks, telling_place(to), rank)
}

/// Leaves the rank of a packet at what it needs, and the next round at what is heard.
fn leave_packet(
    ranks: &mut Items<u64>,
    opens: bool,
    from: HostId,
    said: &[Reg],
    to: HostId,
    heard: &[Reg],
    rank: u64,
) -> Result<(), AllocError>
    ensures { OnOk result (slice_index ranks.new ≡ order.packet_left opens from.0 said.now to.0 heard.now rank (slice_index ranks.old)) }
{
    leave_told(ranks, opens, from, said, rank)?;
    leave_heard(ranks, to, heard, next_round(rank))?;
    raise(ranks, TOP, rank)
}

/// The registers that a host's packets open.
pub(crate) fn opened_by(opened: &[Items<Reg>], host: HostId) -> &[Reg]
    ensures { result.now ≡ opened_at opened.now host.0 }
{
    match opened.get(usize::from(host.0)) {
        Some(known) => known.as_slice(),
        None => &[],
    }
}

/// Whether registers of a packet of a host are opened.
fn is_open(opened: &[Items<Reg>], host: HostId, registers: &[Reg]) -> bool
    ensures { result ≡ meet registers.now (opened_at opened.now host.0) }
{
    have_common(registers, opened_by(opened, host))
}

/// The rank of what hosts do, which is left at what it needs.
fn rank_act(ranks: &mut Items<u64>, opened: &[Items<Reg>], act: &Act) -> Result<u64, AllocError>
    ensures rank { IfOk result (λ rank. rank ≡ order.rank (opened_at opened.now) (slice_index ranks.old) (turn_of act.now)) }
    ensures behind { IfOk result (λ rank. slice_index ranks.new ≡ order.left (opened_at opened.now) (turn_of act.now) rank (slice_index ranks.old)) }
{
    match act {
        Act::Do(host, action) => {
            let rank = act_rank(ranks.as_slice(), *host, action);
            leave_act(ranks, *host, action, rank)?;
            Ok(rank)
        }
        Act::Msg(from, said, to, heard) => {
            let opens = is_open(opened, *from, said.as_slice());
            let rank = packet_rank(
                ranks.as_slice(),
                opens,
                *from,
                said.as_slice(),
                *to,
                heard.as_slice(),
            );
            leave_packet(
                ranks,
                opens,
                *from,
                said.as_slice(),
                *to,
                heard.as_slice(),
                rank,
            )?;
            Ok(rank)
        }
    }
}

/// The rank of a mark of a block, behind all before it. All that follows stands behind it.
fn rank_mark(ranks: &mut Items<u64>) -> Result<u64, AllocError>
    ensures rank { IfOk result (λ rank. rank ≡ order.next_round (slice_index ranks.old order.top_place)) }
    ensures behind { IfOk result (λ rank. slice_index ranks.new ≡ order.mark_left rank (slice_index ranks.old)) }
{
    let rank = next_round(rank_at(ranks.as_slice(), TOP));
    raise(ranks, TOP, rank)?;
    raise(ranks, FLOOR, rank)?;
    Ok(rank)
}

/// The rank of a line, which is left at what it needs.
fn rank_of(ranks: &mut Items<u64>, opened: &[Items<Reg>], line: &Line) -> Result<u64, AllocError>
    ensures rank { IfOk result (λ rank. rank ≡ line_rank (opened_at opened.now) (slice_index ranks.old) line.now) }
    ensures behind { IfOk result (λ rank. slice_index ranks.new ≡ order.line_left (opened_at opened.now) line.now rank (slice_index ranks.old)) }
{
    match line {
        Line::Act(act) => rank_act(ranks, opened, act),
        Line::If(_, _) | Line::Else(_) | Line::For(_, _, _) | Line::End(_) => rank_mark(ranks),
    }
}

/// The rank of the next line, and the table behind it.
fn rank_next(ranks: &mut Items<u64>, opened: &[Items<Reg>], line: &Line) -> Result<u64, AllocError>
    ensures rank { IfOk result (λ rank. rank ≡ line_rank (opened_at opened.now) (slice_index ranks.old) line.now) }
    ensures behind { OnOk result (slice_index ranks.new ≡ behind_line (opened_at opened.now) (slice_index ranks.old) line.now) }
{
    rank_of(ranks, opened, line)
}

/// The lines of joint code, each with its rank, where each host's packets open some registers (`opened`, by host).
#[tactic(auto, using(crate::proofs::Tables::behind_more, crate::proofs::Tables::ranked_more))]
pub(crate) fn rank_lines(
    alloc: Global,
    lines: Items<Line>,
    opened: &[Items<Reg>],
) -> Result<Items<Ranked>, AllocError>
    ensures { IfOk result (λ list. list ≡ order.ranked (opened_at opened.now) nothing_left lines) }
{
    let mut ranks = Items::new(alloc);
    let mut list = Items::new(alloc);
    for line in lines.into_vec() {
        let rank = rank_next(&mut ranks, opened, &line)?;
        list.push(Ranked { rank, line })?;
    }
    Ok(list)
}

/// The lines without their ranks.
pub(crate) fn lines_of(alloc: Global, list: Items<Ranked>) -> Result<Items<Line>, AllocError>
    ensures { IfOk result (λ lines. lines ≡ order.lines_of list) }
{
    let mut lines = Items::new(alloc);
    for item in list.into_vec() {
        let Ranked { line, .. } = item;
        lines.push(line)?;
    }
    Ok(lines)
}
