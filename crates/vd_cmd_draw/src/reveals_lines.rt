//! The lines that tell which words come to a host in clear.

ghost use Rattle.std.specs.Prelude.{◌≡◌, ◌++◌, [], IfOk, OnOk};
ghost use Rattle.std.specs.List.{flat_map};
ghost use Rattle.vd_draw_rows.specs.Wire as wire;
ghost use Rattle.vd_report.specs.Lines.{number_field};
ghost use Rattle.vd_cmd_draw.specs.Reveals as reveals;

use itoa::Buffer;
use std::alloc::{AllocError, Global};
use vd_base::{Bytes, HostId, Items, Proto, SlotId};
use vd_core::{NormalForm, Program, Slot};
use vd_diag::spot;
use vd_draw_rows::{Kind, Move, Row, is_seen_on_the_way, is_told, rows_of, slot_name};
use vd_report::{name_of, push_protocol};

/// A branch in which rows stand.
#[derive(Clone, Copy)]
struct Branch {
    /// In how many blocks its guard stands.
    depth: u32,
    /// Where it begins in the source.
    offset: u32,
}

/// A program with its source, and the host whose lines are made.
#[derive(Clone, Copy)]
struct Listing<'a> {
    source: &'a [u8],
    form: &'a NormalForm,
    host: HostId,
}

/// The lines of these hosts, one host after another: a line for each word that comes to the host in clear where the slots of the
/// program stand at these protocols, in program order.
pub(crate) fn reveals_text(
    alloc: Global,
    source: &[u8],
    program: &Program,
    list: &[Proto],
    hosts: &[HostId],
) -> Result<Bytes, AllocError>
    ensures { IfOk result (λ text. text ≡ reveals.reveals_text source.now program.now list.now hosts.now) }
{
    let rows = rows_of(alloc, source, program, list)?;
    hosts_text(alloc, source, program.form(), rows.as_slice(), hosts)
}

/// The lines of these hosts, one host after another.
fn hosts_text(
    alloc: Global,
    source: &[u8],
    form: &NormalForm,
    rows: &[Row],
    hosts: &[HostId],
) -> Result<Bytes, AllocError>
    ensures { IfOk result (λ text. text ≡ flat_map (λ h. reveals.rows_lines source.now form.now h [] rows.now) hosts.now) }
{
    let mut text = Bytes::new(alloc);
    for host in hosts {
        let listing = Listing {
            source,
            form,
            host: *host,
        };
        push_rows(alloc, &mut text, listing, rows)?;
    }
    Ok(text)
}

/// Puts the lines of rows at the end.
fn push_rows(
    alloc: Global,
    text: &mut Bytes,
    listing: Listing,
    rows: &[Row],
) -> Result<(), AllocError>
    ensures { OnOk result (text.new ≡ text.old ++ reveals.rows_lines listing.entry.source.now listing.entry.form.now listing.entry.host []
        rows.now) }
{
    let mut begun = Items::new(alloc);
    for place in 0..rows.len() {
        let row = &rows[place];
        let mut around = still_open(alloc, begun.as_slice(), row.depth)?;
        let seen = is_seen_on_the_way(row, &rows[place + 1..]);
        push_row(alloc, text, listing, around.as_slice(), row, seen)?;
        begin(&mut around, row)?;
        begun = around;
    }
    Ok(())
}

/// Those of branches, the outermost first, in which a row stands that is in so many blocks.
fn still_open(alloc: Global, branches: &[Branch], depth: u32) -> Result<Items<Branch>, AllocError>
    ensures { IfOk result (λ kept. kept ≡ reveals.still_open depth branches.now) }
{
    let mut kept = Items::new(alloc);
    for branch in branches {
        keep(&mut kept, *branch, depth)?;
    }
    Ok(kept)
}

/// Puts a branch at the end, if a row stands in it that is in so many blocks.
fn keep(kept: &mut Items<Branch>, branch: Branch, depth: u32) -> Result<(), AllocError>
    ensures { OnOk result (kept.new ≡ kept.old ++ reveals.kept_at depth branch) }
{
    if branch.depth < depth {
        kept.push(branch)?;
    }
    Ok(())
}

/// Puts the branch at the end that a row begins, if it begins one.
fn begin(branches: &mut Items<Branch>, row: &Row) -> Result<(), AllocError>
    ensures { OnOk result (branches.new ≡ branches.old ++ reveals.begun row.now) }
{
    match (row.kind, row.offset) {
        (Kind::Branch, Some(offset)) => {
            let depth = row.depth;
            branches.push(Branch { depth, offset })
        }
        _ => Ok(()),
    }
}

/// Puts the lines of a row at the end, which stands in these branches. If it begins a branch, this may be seen on the way.
fn push_row(
    alloc: Global,
    text: &mut Bytes,
    listing: Listing,
    around: &[Branch],
    row: &Row,
    seen: bool,
) -> Result<(), AllocError>
    ensures { OnOk result (text.new ≡ text.old ++ reveals.moves_lines listing.entry.source.now listing.entry.form.now listing.entry.host
        around.now row.now seen row.now.moves) }
{
    let inside = branches_text(alloc, listing.source, around)?;
    let moves = row.moves.as_slice();
    for place in 0..moves.len() {
        let rest = &moves[place + 1..];
        push_move(
            alloc,
            text,
            listing,
            inside.as_slice(),
            row,
            seen,
            &moves[place],
            rest,
        )?;
    }
    Ok(())
}

/// ` if LINE:COLUMN` for each of these branches.
fn branches_text(alloc: Global, source: &[u8], around: &[Branch]) -> Result<Bytes, AllocError>
    ensures { IfOk result (λ text. text ≡ reveals.branches_text source.now around.now) }
{
    let mut text = Bytes::new(alloc);
    for branch in around {
        push_branch(alloc, &mut text, source, *branch)?;
    }
    Ok(text)
}

/// Puts ` if LINE:COLUMN` at the end.
fn push_branch(
    alloc: Global,
    text: &mut Bytes,
    source: &[u8],
    branch: Branch,
) -> Result<(), AllocError>
    ensures { OnOk result (text.new ≡ text.old ++ reveals.branch_text source.now branch) }
{
    let place = spot(alloc, source, branch.offset as usize)?;
    text.extend_from_slice(b" if ")?;
    text.extend_from_slice(place.as_slice())
}

/// Puts the line of a move at the end, if it tells the host a word.
fn push_move(
    alloc: Global,
    text: &mut Bytes,
    listing: Listing,
    inside: &[u8],
    row: &Row,
    seen: bool,
    one: &Move,
    rest: &[Move],
) -> Result<(), AllocError>
    ensures { OnOk result (text.new ≡ text.old ++ reveals.move_line listing.entry.source.now listing.entry.form.now listing.entry.host
        inside.now row.now seen one.now rest.now) }
{
    if is_told(listing.host, one.from, one.to) {
        push_word(alloc, text, listing, one)?;
        push_reason(text, inside, row, seen, rest)?;
    }
    Ok(())
}

/// Puts `HOST LINE:COLUMN NAME FROM` at the end.
fn push_word(
    alloc: Global,
    text: &mut Bytes,
    listing: Listing,
    one: &Move,
) -> Result<(), AllocError>
    ensures { OnOk result (text.new ≡ text.old ++ reveals.word_text listing.entry.source.now listing.entry.form.now listing.entry.host one.now) }
{
    let slots = listing.form.slots.as_slice();
    let place = slot_spot(alloc, listing.source, slots, one.slot)?;
    let name = slot_name(alloc, slots, one.slot)?;
    text.extend_from_slice(name_of(&listing.form.hosts, usize::from(listing.host.0)))?;
    text.extend_from_slice(b" ")?;
    text.extend_from_slice(place.as_slice())?;
    text.extend_from_slice(b" ")?;
    text.extend_from_slice(name.as_slice())?;
    text.extend_from_slice(b" ")?;
    push_protocol(text, &listing.form.hosts, one.from)
}

/// `LINE:COLUMN` of the statement that makes a slot.
fn slot_spot(
    alloc: Global,
    source: &[u8],
    slots: &[Slot],
    slot: SlotId,
) -> Result<Bytes, AllocError>
    ensures { IfOk result (λ text. text ≡ reveals.slot_spot source.now slots.now slot) }
{
    match slots.get(usize::from(slot.0)) {
        Some(found) => spot(alloc, source, found.offset as usize),
        None => Ok(Bytes::new(alloc)),
    }
}

/// Puts how often, as what, in which branches and for what a word is told at the end.
fn push_reason(
    text: &mut Bytes,
    inside: &[u8],
    row: &Row,
    seen: bool,
    rest: &[Move],
) -> Result<(), AllocError>
    ensures { OnOk result (text.new ≡ text.old ++ reveals.reason_text inside.now row.now seen rest.now) }
{
    push_number(text, row.weight)?;
    text.extend_from_slice(role_text(row, seen, rest))?;
    text.extend_from_slice(inside)?;
    text.extend_from_slice(b": ")?;
    text.extend_from_slice(row.text.as_slice())?;
    text.extend_from_slice(b"\n")
}

/// Whether a row begins a branch.
fn begins_branch(row: &Row) -> bool
    ensures { result ≡ wire.is_branch row.now.kind }
{
    matches!(row.kind, Kind::Branch)
}

/// As what a guard is told, which who is on the way may see too.
fn guard_text(seen: bool) -> &'static [u8]
    ensures { result.now ≡ reveals.guard_text seen }
{
    if seen {
        b" guard seen on the way"
    } else {
        b" guard"
    }
}

/// As what a word is told that is moved for a row, where these words are moved after it: as a guard, as an index, or for itself.
fn role_text(row: &Row, seen: bool, rest: &[Move]) -> &'static [u8]
    ensures { result.now ≡ reveals.role_text row.now seen rest.now }
{
    if begins_branch(row) {
        guard_text(seen)
    } else if row.indexed && !rest.is_empty() {
        b" index"
    } else {
        b""
    }
}

/// Puts a number at the end, behind a space.
fn push_number(text: &mut Bytes, number: u32) -> Result<(), AllocError>
    ensures { OnOk result (text.new ≡ text.old ++ number_field number) }
{
    text.push(b' ')?;
    text.extend_from_slice(Buffer::new().format(number).as_bytes())
}
