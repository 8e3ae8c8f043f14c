//! The lines of hosts that did not run to their end.

ghost use Rattle.vd_outside.specs.Sink.{WritesAll};
ghost use Rattle.vd_cmd_plan.specs.Lines.{frame_line, host_line, short_deal_line, two_line};

use crate::HostStatus;
use crate::deliver::write_parts;
use crate::lines::{kind_name, write_name, write_offset};
use itoa::Buffer;
use vd_base::Failed;
use vd_outside::Sink;
use vd_tape::DealKind;

/// Writes the line of a host that did not run to its end.
pub(crate) fn write_host_status<E: Sink>(err: &mut E, status: &HostStatus) -> Result<(), Failed>
    ensures { WritesAll (host_line status.now) (E.view err.old) (E.view err.new) result }
{
    match status {
        HostStatus::ProgramText(offset) => write_offset(err, b"viaduct: host text at ", *offset),
        HostStatus::ProgramRange(number) => write_offset(err, b"viaduct: host range at ", *number),
        HostStatus::PeerFault(name) => write_name(err, b"viaduct: peer fault ", name.as_slice()),
        HostStatus::BadFrame(offset, byte) => write_bad_frame(err, *offset, *byte),
        HostStatus::Unequal(left, right) => {
            write_two(
                err,
                b"viaduct: unequal ",
                u64::from(*left),
                u64::from(*right),
            )
        }
        HostStatus::WrongProgram(_, _, _) => write_parts(err, &[b"viaduct: wrong program\n"]),
        HostStatus::WrongHost(wanted, named) => {
            write_two(
                err,
                b"viaduct: wrong host ",
                u64::from(*wanted),
                u64::from(*named),
            )
        }
        HostStatus::ShortInput(cursor, count) => {
            write_two(err, b"viaduct: short input ", *cursor as u64, *count as u64)
        }
        HostStatus::ShortDeal(kind, cursor, count) => {
            write_short_deal(err, *kind, *cursor as u64, *count as u64)
        }
        HostStatus::EndOfLink(name) => write_name(err, b"viaduct: link ended ", name.as_slice()),
    }
}

/// Writes the line of a byte that no awaited frame has at this offset.
fn write_bad_frame<E: Sink>(err: &mut E, offset: u64, byte: u8) -> Result<(), Failed>
    ensures { WritesAll (frame_line offset byte) (E.view err.old) (E.view err.new) result }
{
    let mut offset_buffer = Buffer::new();
    let offset = offset_buffer.format(offset).as_bytes();
    let mut byte_buffer = Buffer::new();
    let byte = byte_buffer.format(byte).as_bytes();
    write_parts(
        err,
        &[b"viaduct: bad frame at ", offset, b" byte ", byte, b"\n"],
    )
}

/// Writes the line of an item past the end of a list of a deal.
fn write_short_deal<E: Sink>(
    err: &mut E,
    kind: DealKind,
    cursor: u64,
    count: u64,
) -> Result<(), Failed>
    ensures { WritesAll (short_deal_line kind cursor count) (E.view err.old) (E.view err.new) result }
{
    let mut cursor_buffer = Buffer::new();
    let cursor = cursor_buffer.format(cursor).as_bytes();
    let mut count_buffer = Buffer::new();
    let count = count_buffer.format(count).as_bytes();
    write_parts(
        err,
        &[
            b"viaduct: short deal ",
            kind_name(kind),
            b" ",
            cursor,
            b" ",
            count,
            b"\n",
        ],
    )
}

/// Writes a text, two numbers behind it and the line's end.
fn write_two<E: Sink>(err: &mut E, text: &[u8], first: u64, second: u64) -> Result<(), Failed>
    ensures { WritesAll (two_line text.now first second) (E.view err.old) (E.view err.new) result }
{
    let mut first_buffer = Buffer::new();
    let first = first_buffer.format(first).as_bytes();
    let mut second_buffer = Buffer::new();
    let second = second_buffer.format(second).as_bytes();
    write_parts(err, &[text, first, b" ", second, b"\n"])
}
