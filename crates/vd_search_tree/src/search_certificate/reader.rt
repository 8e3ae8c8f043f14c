//! The reader of certificates.

ghost use Rattle.std.specs.Prelude.{◌≡◌, ◌≤◌, ◌<◌, length, drop};
ghost use Rattle.vd_base.specs.Limits.{most_certificate_bytes, most_certificate_shifts};
ghost use Rattle.vd_search_tree.specs.Scan.{choice, first_digit, mark_of, number, scan, scan_arcs, scan_counted, scan_empty, scan_first, scan_least, scan_listed, scan_marks, scan_second, scan_third, with_digit, word};
ghost use Rattle.vd_search_tree.specs.Steps.{AddMoves, Moves, Numbers, Said, ShiftMoves};

use crate::Shift;
use crate::search_certificate::certificate::{Certificate, Mark};
use std::alloc::Global;
use vd_base::limits::CERTIFICATE_SHIFTS;
use vd_base::{FileFault, Items, is_digit};

/// A certificate, byte by byte.
pub(crate) fn read_certificate(alloc: Global, bytes: &[u8]) -> Result<Certificate, FileFault>
    requires few { length bytes.now ≤ most_certificate_bytes }
    ensures { Said bytes.now (scan bytes.now) result }
{
    let at = read_word(bytes, 0, b"viaduct-cert ")?;
    match bytes.get(at) {
        Some(b'1') => read_first(alloc, bytes, at + 1),
        Some(b'2') => read_second(alloc, bytes, at + 1),
        Some(b'3') => read_third(alloc, bytes, at + 1),
        _ => Err(FileFault::Text(at as u32)),
    }
}

/// Behind the number of the first form.
fn read_first(alloc: Global, bytes: &[u8], start: usize) -> Result<Certificate, FileFault>
    requires few { length bytes.now ≤ most_certificate_bytes }
    requires start { start ≤ length bytes.now }
    ensures { Said bytes.now (scan_first (drop start bytes.now)) result }
{
    let at = read_word(bytes, start, b"\n")?;
    match bytes.get(at) {
        Some(b'c') => read_least(alloc, bytes, at + 1),
        Some(b'e') => read_empty(alloc, bytes, at + 1, false),
        _ => Err(FileFault::Text(at as u32)),
    }
}

/// Behind the first letter of a cost.
fn read_least(alloc: Global, bytes: &[u8], start: usize) -> Result<Certificate, FileFault>
    requires few { length bytes.now ≤ most_certificate_bytes }
    requires start { start ≤ length bytes.now }
    ensures { Said bytes.now (scan_least (drop start bytes.now)) result }
{
    let at = read_word(bytes, start, b"ost ")?;
    let (cost, at) = read_number(bytes, at, 0, u32::MAX, b'\n')?;
    read_marks(
        bytes,
        at,
        Some(cost),
        false,
        Items::new(alloc),
        Items::new(alloc),
    )
}

/// Behind the first letter of the claim that there is no list.
fn read_empty(
    alloc: Global,
    bytes: &[u8],
    start: usize,
    by_arcs: bool,
) -> Result<Certificate, FileFault>
    requires few { length bytes.now ≤ most_certificate_bytes }
    requires start { start ≤ length bytes.now }
    ensures { Said bytes.now (scan_empty by_arcs (drop start bytes.now)) result }
{
    let at = read_word(bytes, start, b"mpty\n")?;
    read_marks(
        bytes,
        at,
        None,
        by_arcs,
        Items::new(alloc),
        Items::new(alloc),
    )
}

/// Behind the number of the second form.
fn read_second(alloc: Global, bytes: &[u8], start: usize) -> Result<Certificate, FileFault>
    requires few { length bytes.now ≤ most_certificate_bytes }
    requires start { start ≤ length bytes.now }
    ensures { Said bytes.now (scan_second (drop start bytes.now)) result }
{
    let at = read_word(bytes, start, b"\ncost ")?;
    let (cost, at) = read_number(bytes, at, 0, u32::MAX, b'\n')?;
    read_listed(alloc, bytes, at, false, cost)
}

/// Behind the number of the third form.
fn read_third(alloc: Global, bytes: &[u8], start: usize) -> Result<Certificate, FileFault>
    requires few { length bytes.now ≤ most_certificate_bytes }
    requires start { start ≤ length bytes.now }
    ensures { Said bytes.now (scan_third (drop start bytes.now)) result }
{
    let at = read_word(bytes, start, b"\n")?;
    match bytes.get(at) {
        Some(b'c') => read_arcs(alloc, bytes, at + 1),
        Some(b'e') => read_empty(alloc, bytes, at + 1, true),
        _ => Err(FileFault::Text(at as u32)),
    }
}

/// Behind the first letter of a cost in the third form, whose shifts name arcs.
fn read_arcs(alloc: Global, bytes: &[u8], start: usize) -> Result<Certificate, FileFault>
    requires few { length bytes.now ≤ most_certificate_bytes }
    requires start { start ≤ length bytes.now }
    ensures { Said bytes.now (scan_arcs (drop start bytes.now)) result }
{
    let at = read_word(bytes, start, b"ost ")?;
    let (cost, at) = read_number(bytes, at, 0, u32::MAX, b'\n')?;
    read_listed(alloc, bytes, at, true, cost)
}

/// The shifts and marks behind a cost.
fn read_listed(
    alloc: Global,
    bytes: &[u8],
    start: usize,
    by_arcs: bool,
    cost: u32,
) -> Result<Certificate, FileFault>
    requires few { length bytes.now ≤ most_certificate_bytes }
    requires start { start ≤ length bytes.now }
    ensures { Said bytes.now (scan_listed by_arcs cost (drop start bytes.now)) result }
{
    let at = read_word(bytes, start, b"shifts ")?;
    let (count, at) = read_number(bytes, at, 1, CERTIFICATE_SHIFTS, b'\n')?;
    read_counted(alloc, bytes, at, by_arcs, cost, count)
}

/// So many shifts, and the marks behind them.
fn read_counted(
    alloc: Global,
    bytes: &[u8],
    start: usize,
    by_arcs: bool,
    cost: u32,
    count: u32,
) -> Result<Certificate, FileFault>
    requires few { length bytes.now ≤ most_certificate_bytes }
    requires start { start ≤ length bytes.now }
    ensures { Said bytes.now (scan_counted by_arcs cost count (drop start bytes.now)) result }
{
    let mut shifts = Items::new(alloc);
    let mut at = start;
    for taken in 0..count {
        match read_shift(bytes, at) {
            Ok((shift, end)) => {
                shifts.push(shift)?;
                at = end;
            }
            Err(fault) => return Err(fault),
        }
    }
    read_marks(bytes, at, Some(cost), by_arcs, shifts, Items::new(alloc))
}

/// The line of a shift.
fn read_shift(bytes: &[u8], start: usize) -> Result<(Shift, usize), FileFault>
    requires few { length bytes.now ≤ most_certificate_bytes }
    requires start { start ≤ length bytes.now }
    ensures { ShiftMoves bytes.now start result }
{
    let (at, end) = read_number(bytes, start, 0, u32::MAX, b' ')?;
    let (side, end) = read_number(bytes, end, 0, 1, b' ')?;
    let (proto, end) = read_number(bytes, end, 0, 255, b' ')?;
    let (add, end) = read_sign(bytes, end)?;
    let end = read_word(bytes, end, b" ")?;
    let (amount, end) = read_number(bytes, end, 1, u32::MAX, b'\n')?;
    let shift = Shift {
        at,
        side: side as u8,
        proto: proto as u8,
        add,
        amount,
    };
    Ok((shift, end))
}

/// Whether an amount is added.
fn read_sign(bytes: &[u8], at: usize) -> Result<(bool, usize), FileFault>
    requires few { length bytes.now ≤ most_certificate_bytes }
    requires at { at ≤ length bytes.now }
    ensures { AddMoves bytes.now at result }
{
    match bytes.get(at) {
        Some(b'+') => Ok((true, at + 1)),
        Some(b'-') => Ok((false, at + 1)),
        _ => Err(FileFault::Text(at as u32)),
    }
}

/// The marks, with which a certificate ends.
fn read_marks(
    bytes: &[u8],
    start: usize,
    cost: Option<u32>,
    by_arcs: bool,
    shifts: Items<Shift>,
    marks: Items<Mark>,
) -> Result<Certificate, FileFault>
    requires few { length bytes.now ≤ most_certificate_bytes }
    requires start { start ≤ length bytes.now }
    ensures { Said bytes.now (scan_marks cost by_arcs shifts marks (drop start bytes.now)) result }
{
    let mut marks = marks;
    for at in start..bytes.len() {
        let byte = bytes[at];
        if byte == b'\n' {
            if at + 1 < bytes.len() {
                return Err(FileFault::Text((at + 1) as u32));
            }
            return Ok(Certificate {
                cost,
                by_arcs,
                shifts,
                marks,
            });
        }
        let Some(mark) = mark_at(byte) else {
            return Err(FileFault::Text(at as u32));
        };
        marks.push(mark)?;
    }
    Err(FileFault::Text(bytes.len() as u32))
}

/// The mark that has this letter.
fn mark_at(letter: u8) -> Option<Mark>
    ensures { result ≡ mark_of letter }
{
    match letter {
        b'E' => Some(Mark::Expanded),
        b'V' => Some(Mark::Violated),
        b'B' => Some(Mark::Bounded),
        b'L' => Some(Mark::Best),
        _ => None,
    }
}

/// A word that must stand there: the offset behind it.
fn read_word(bytes: &[u8], start: usize, expected: &[u8]) -> Result<usize, FileFault>
    requires few { length bytes.now ≤ most_certificate_bytes }
    requires start { start ≤ length bytes.now }
    ensures { Moves bytes.now (word expected.now (drop start bytes.now)) result }
{
    let mut at = start;
    for byte in expected {
        if at == bytes.len() {
            return Err(FileFault::Text(at as u32));
        }
        if bytes[at] != *byte {
            return Err(FileFault::Text(at as u32));
        }
        at += 1;
    }
    Ok(at)
}

/// A number in a range and the byte that ends it: the number, and the offset behind that byte.
fn read_number(
    bytes: &[u8],
    start: usize,
    least: u32,
    most: u32,
    end: u8,
) -> Result<(u32, usize), FileFault>
    requires few { length bytes.now ≤ most_certificate_bytes }
    requires start { start ≤ length bytes.now }
    ensures { Numbers bytes.now least most (number least most end (drop start bytes.now)) result }
{
    if start == bytes.len() {
        return Err(FileFault::Text(start as u32));
    }
    let Some(first) = first_digit_of(bytes[start], least, most) else {
        return Err(FileFault::Text(start as u32));
    };
    let mut number = first;
    for at in start + 1..bytes.len() {
        let byte = bytes[at];
        if byte == end {
            return Ok((number, at + 1));
        }
        let Some(next) = with_further_digit(number, byte, most) else {
            return Err(FileFault::Text(at as u32));
        };
        number = next;
    }
    Err(FileFault::Text(bytes.len() as u32))
}

/// The number of one digit, where it is in the range.
fn first_digit_of(byte: u8, least: u32, most: u32) -> Option<u32>
    ensures { result ≡ first_digit least most byte }
{
    if !is_digit(byte) {
        return None;
    }
    let number = u32::from(byte - b'0');
    if least <= number && number <= most {
        Some(number)
    } else {
        None
    }
}

/// The number with a further digit, where it is no greater than `most`; a 0 has none.
fn with_further_digit(number: u32, byte: u8, most: u32) -> Option<u32>
    ensures { result ≡ with_digit most number byte }
{
    if !is_digit(byte) || number == 0 {
        return None;
    }
    let next = u64::from(number) * 10 + u64::from(byte - b'0');
    if next <= u64::from(most) {
        Some(next as u32)
    } else {
        None
    }
}
