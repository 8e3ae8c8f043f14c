//! The line that says how a run ended.

ghost use Rattle.std.specs.Prelude.{◌≡◌, IfSome};
ghost use Rattle.std.specs.List.{flat_map};
ghost use Rattle.vd_report.specs.ChoiceLines.{host_name};
ghost use Rattle.vd_outside.specs.Sink.{WritesAll};
ghost use Rattle.vd_cmd_plan.specs.Lines as told;
ghost use Rattle.vd_cmd_plan.specs.Lines.{Says, bad_deal_line, bound_line, certificate_line, child_line, children_line, cost_line, deal_line, flow_line, kind_name, limit_line, memory_line, name_line, schedule_line, sized_line, syntax_line, rule_line, input_line, offset_line, quantity_name, report_line, report_word, table_line, table_word};

use crate::deliver::write_parts;
use crate::host_lines::write_host_status;
use crate::shown::write_named;
use crate::{ReportFault, Status, TableFault};
use itoa::Buffer;
use std::alloc::Global;
use vd_base::{Failed, HostId, Names};
use vd_bound::CheckFault;
use vd_host_children::ChildrenFault;
use vd_outside::{Recorder, Sink, write_all};
use vd_parser::ParseFault;
use vd_report::{ReadFault, name_of};
use vd_resolve::{NameFault, Quantity};
use vd_tape::{BadItem, DealKind};

/// The most bytes of a line that is put together before it is written: as many as a pipe takes whole.
const LINE_BYTES: usize = 4_096;

/// Writes the line of a status, as far as the stream takes it. It goes out in one write, unless it is longer than a pipe takes whole
/// or there is no memory for it.
pub fn tell<E: Sink>(alloc: Global, err: &mut E, status: &Status)
    ensures { Says (told.status_line status.now) (E.view err.old) (E.view err.new) }
{
    let _ = match status_line(alloc, status) {
        Some(line) => write_all(err, line.bytes()),
        None => write_status(err, status),
    };
}

/// The line of a status, put together. There is none where it is longer than a pipe takes whole, or there is no memory for it.
fn status_line(alloc: Global, status: &Status) -> Option<Recorder>
    ensures { IfSome result (λ line. line.bytes ≡ told.status_line status.now) }
{
    let mut line = Recorder::new(alloc, LINE_BYTES).ok()?;
    write_status(&mut line, status).ok()?;
    if line.tells() { Some(line) } else { None }
}

/// Writes the line of a status.
fn write_status<E: Sink>(err: &mut E, status: &Status) -> Result<(), Failed>
    ensures { WritesAll (told.status_line status.now) (E.view err.old) (E.view err.new) result }
{
    match status {
        Status::Ended => Ok(()),
        Status::Memory => write_memory(err),
        Status::Usage => write_parts(err, &[b"viaduct: usage\n"]),
        Status::ReadFault(name) => {
            write_name(err, b"viaduct: read fault ", name.as_str().as_bytes())
        }
        Status::WriteFault => write_parts(err, &[b"viaduct: write fault\n"]),
        Status::TooLong(name, limit) => {
            write_sized(err, b"viaduct: too long ", name.as_str().as_bytes(), *limit)
        }
        Status::Syntax(fault) => write_syntax_fault(err, *fault),
        Status::Names(fault) => write_rule_fault(err, *fault),
        Status::Flow(fault) => write_flow(err, fault.number, fault.check.offset),
        Status::NoAssignment(_) => write_parts(err, &[b"viaduct: no assignment\n"]),
        Status::Spent(budget, _) => write_offset(err, b"viaduct: budget spent ", *budget),
        Status::InputText(fault) => write_text_fault(err, *fault),
        Status::DealText(name, _, offset) => write_deal_fault(err, name.as_slice(), *offset),
        Status::ScheduleText(fault) => write_schedule_fault(err, *fault),
        Status::CertificateText(offset) => write_offset(err, b"viaduct: cert text at ", *offset),
        Status::BadDeal(bad) => write_bad_deal(err, *bad),
        Status::CertificateRefused(fault) => write_certificate_fault(err, *fault),
        Status::Host(fault) => write_host_status(err, fault),
        Status::ChildFault(hosts, fault) => write_child_fault(err, hosts, *fault),
        Status::NoHost(name) => write_name(err, b"viaduct: no host ", name.as_str().as_bytes()),
        Status::NotTwo(count) => write_place(err, b"viaduct: hosts ", *count),
        Status::HasCommit(slot) => write_place(err, b"viaduct: commitment ", *slot),
        Status::DealShort(kind) => write_name(err, b"viaduct: deal short ", kind_name(*kind)),
        Status::ViewDiffers(place) => write_place(err, b"viaduct: view differs at ", *place),
        Status::DealUsed(name) => write_name(err, b"viaduct: deal used ", name.as_str().as_bytes()),
        Status::ShortKey(name, length) => {
            write_sized(
                err,
                b"viaduct: short key ",
                name.as_str().as_bytes(),
                *length,
            )
        }
        Status::Table(name, row, column, fault) => {
            write_table(err, name.as_str().as_bytes(), *row, *column, *fault)
        }
        Status::Report(name, fault) => write_report(err, name.as_str().as_bytes(), *fault),
    }
}

/// What is wrong with a cell, or with a table.
fn table_word(fault: TableFault) -> &'static [u8]
    ensures { result.now ≡ table_word fault }
{
    match fault {
        TableFault::NoHeader => b"no header",
        TableFault::NoColumn => b"no column",
        TableFault::Length => b"length",
        TableFault::EmptyLine => b"empty line",
        TableFault::Empty => b"empty",
        TableFault::Sign => b"sign",
        TableFault::NoNumber => b"no number",
        TableFault::Fraction => b"fraction",
        TableFault::Large => b"large",
        TableFault::Many => b"many words",
    }
}

/// Writes the line of a table that gives no words, of the place of its first fault.
fn write_table<E: Sink>(
    err: &mut E,
    name: &[u8],
    row: usize,
    column: usize,
    fault: TableFault,
) -> Result<(), Failed>
    ensures { WritesAll (table_line name.now row column fault) (E.view err.old) (E.view err.new) result }
{
    let mut row_buffer = Buffer::new();
    let row = row_buffer.format(row as u64).as_bytes();
    let mut column_buffer = Buffer::new();
    let column = column_buffer.format(column as u64).as_bytes();
    write_named(
        err,
        b"viaduct: table ",
        name,
        &[b":", row, b":", column, b" ", table_word(fault), b"\n"],
    )
}

/// Why a file does not tell what a host printed.
fn report_word(fault: ReportFault) -> &'static [u8]
    ensures { result.now ≡ report_word fault }
{
    match fault {
        ReportFault::Text => b"text",
        ReportFault::Cut => b"cut",
        ReportFault::Words => b"words",
    }
}

/// Writes the line of a file that does not tell what a host printed.
fn write_report<E: Sink>(err: &mut E, name: &[u8], fault: ReportFault) -> Result<(), Failed>
    ensures { WritesAll (report_line name.now fault) (E.view err.old) (E.view err.new) result }
{
    write_named(
        err,
        b"viaduct: report ",
        name,
        &[b" ", report_word(fault), b"\n"],
    )
}

/// Writes a text, a name behind it, and then a number of bytes.
fn write_sized<E: Sink>(err: &mut E, text: &[u8], name: &[u8], size: u32) -> Result<(), Failed>
    ensures { WritesAll (sized_line text.now name.now size) (E.view err.old) (E.view err.new) result }
{
    let mut buffer = Buffer::new();
    let number = buffer.format(size).as_bytes();
    write_named(err, text, name, &[b" ", number, b"\n"])
}

/// Writes the line of a run that is out of memory.
fn write_memory<E: Sink>(err: &mut E) -> Result<(), Failed>
    ensures { WritesAll memory_line (E.view err.old) (E.view err.new) result }
{
    write_parts(err, &[b"viaduct: memory\n"])
}

/// Writes the line of a fault of a source's text.
fn write_syntax_fault<E: Sink>(err: &mut E, fault: ParseFault) -> Result<(), Failed>
    ensures { WritesAll (syntax_line fault) (E.view err.old) (E.view err.new) result }
{
    match fault {
        ParseFault::BadByte(offset) => write_offset(err, b"viaduct: bad byte at ", offset),
        ParseFault::Unexpected(_, offset) => write_offset(
            err,
            b"viaduct: unexpected token at ",
            offset,
        ),
        ParseFault::TooDeep(offset) => write_offset(err, b"viaduct: nesting at ", offset),
        ParseFault::TooLong(_) => write_parts(err, &[b"viaduct: too long\n"]),
        ParseFault::Memory => write_memory(err),
    }
}

/// The word for a quantity.
fn quantity_name(quantity: Quantity) -> &'static [u8]
    ensures { result.now ≡ quantity_name quantity }
{
    match quantity {
        Quantity::Principals => b"principals",
        Quantity::Hosts => b"hosts",
        Quantity::Nesting => b"nesting",
        Quantity::Statements => b"statements",
        Quantity::Weights => b"weights",
        Quantity::Cells => b"cells",
    }
}

/// Writes the line of a broken rule on names, kinds or sizes.
fn write_rule_fault<E: Sink>(err: &mut E, fault: NameFault) -> Result<(), Failed>
    ensures { WritesAll (rule_line fault) (E.view err.old) (E.view err.new) result }
{
    match fault {
        NameFault::Unknown(at) => write_offset(err, b"viaduct: unknown name at ", at.start),
        NameFault::Twice(at, _) => write_offset(err, b"viaduct: name twice at ", at.start),
        NameFault::Recursive(at) => write_offset(err, b"viaduct: recursive call at ", at.start),
        NameFault::Arity(at) => write_offset(err, b"viaduct: arity at ", at.start),
        NameFault::Kind(at, _) => write_offset(err, b"viaduct: kind at ", at.start),
        NameFault::Limit(which, count) => write_limit(err, which, count),
        NameFault::Memory => write_memory(err),
    }
}

/// Writes the line of a quantity above its limit.
fn write_limit<E: Sink>(err: &mut E, which: Quantity, count: u32) -> Result<(), Failed>
    ensures { WritesAll (limit_line which count) (E.view err.old) (E.view err.new) result }
{
    let mut buffer = Buffer::new();
    let number = buffer.format(count).as_bytes();
    write_parts(
        err,
        &[
            b"viaduct: limit ",
            quantity_name(which),
            b" ",
            number,
            b"\n",
        ],
    )
}

/// Writes the line of a failed flow check, of the statement at this offset.
fn write_flow<E: Sink>(err: &mut E, check: u32, offset: u32) -> Result<(), Failed>
    ensures { WritesAll (flow_line check offset) (E.view err.old) (E.view err.new) result }
{
    let mut check_buffer = Buffer::new();
    let check = check_buffer.format(check).as_bytes();
    let mut offset_buffer = Buffer::new();
    let offset = offset_buffer.format(offset).as_bytes();
    write_parts(
        err,
        &[b"viaduct: flow check ", check, b" at ", offset, b"\n"],
    )
}

/// Writes the line of a fault of a hand-written file.
fn write_text_fault<E: Sink>(err: &mut E, fault: ReadFault) -> Result<(), Failed>
    ensures { WritesAll (input_line fault) (E.view err.old) (E.view err.new) result }
{
    match fault {
        ReadFault::Text(offset) => write_offset(err, b"viaduct: input text at ", offset),
        ReadFault::UnknownHost(offset) => write_offset(err, b"viaduct: input host at ", offset),
        ReadFault::Memory => write_memory(err),
    }
}

/// Writes the line of a fault of a deal's text.
fn write_deal_fault<E: Sink>(err: &mut E, name: &[u8], offset: u32) -> Result<(), Failed>
    ensures { WritesAll (deal_line name.now offset) (E.view err.old) (E.view err.new) result }
{
    let mut buffer = Buffer::new();
    let number = buffer.format(offset).as_bytes();
    write_named(err, b"viaduct: deal text ", name, &[b" at ", number, b"\n"])
}

/// Writes the line of a fault of a schedule.
fn write_schedule_fault<E: Sink>(err: &mut E, fault: ReadFault) -> Result<(), Failed>
    ensures { WritesAll (schedule_line fault) (E.view err.old) (E.view err.new) result }
{
    match fault {
        ReadFault::Text(offset) => write_offset(err, b"viaduct: schedule text at ", offset),
        ReadFault::UnknownHost(offset) => write_offset(err, b"viaduct: schedule host at ", offset),
        ReadFault::Memory => write_memory(err),
    }
}

/// Writes the line of the child that plays this host, which did not end well.
fn write_child<E: Sink>(
    err: &mut E,
    hosts: &Names,
    host: HostId,
    cause: &[&[u8]],
) -> Result<(), Failed>
    ensures { WritesAll (child_line (host_name hosts.now host) (flat_map (λ part. part.now) cause.now)) (E.view err.old) (E.view err.new)
        result }
{
    write_named(
        err,
        b"viaduct: child fault ",
        name_of(hosts, usize::from(host.0)),
        cause,
    )
}

/// Writes the line of children that did not come to an end, which play hosts with these names.
fn write_child_fault<E: Sink>(
    err: &mut E,
    hosts: &Names,
    fault: ChildrenFault,
) -> Result<(), Failed>
    ensures { WritesAll (children_line hosts.now fault) (E.view err.old) (E.view err.new) result }
{
    match fault {
        ChildrenFault::Memory => write_memory(err),
        ChildrenFault::Failed(host) => write_child(err, hosts, host, &[b"\n"]),
        ChildrenFault::Line(host) => write_child(err, hosts, host, &[b" line\n"]),
        ChildrenFault::Status(host, status) => {
            let mut buffer = Buffer::new();
            let number = buffer.format(status).as_bytes();
            write_child(err, hosts, host, &[b" ", number, b"\n"])
        }
    }
}

/// The word for a kind of items.
pub(crate) fn kind_name(kind: DealKind) -> &'static [u8]
    ensures { result.now ≡ kind_name kind }
{
    match kind {
        DealKind::Own => b"own",
        DealKind::Mul => b"mul",
        DealKind::And => b"and",
        DealKind::Pair => b"pair",
    }
}

/// Writes the line of an item that breaks its identity.
fn write_bad_deal<E: Sink>(err: &mut E, bad: BadItem) -> Result<(), Failed>
    ensures { WritesAll (bad_deal_line bad) (E.view err.old) (E.view err.new) result }
{
    let mut first_buffer = Buffer::new();
    let first = first_buffer.format(bad.first.0).as_bytes();
    let mut second_buffer = Buffer::new();
    let second = second_buffer.format(bad.second.0).as_bytes();
    let mut index_buffer = Buffer::new();
    let index = index_buffer.format(bad.index).as_bytes();
    let mut left_buffer = Buffer::new();
    let left = left_buffer.format(bad.left).as_bytes();
    let mut right_buffer = Buffer::new();
    let right = right_buffer.format(bad.right).as_bytes();
    write_parts(
        err,
        &[
            b"viaduct: bad deal ",
            kind_name(bad.kind),
            b" ",
            first,
            b" ",
            second,
            b" ",
            index,
            b" ",
            left,
            b" ",
            right,
            b"\n",
        ],
    )
}

/// Writes the line of a certificate that is not accepted.
fn write_certificate_fault<E: Sink>(err: &mut E, fault: CheckFault) -> Result<(), Failed>
    ensures { WritesAll (certificate_line fault) (E.view err.old) (E.view err.new) result }
{
    match fault {
        CheckFault::BadShift(shift) => write_offset(err, b"viaduct: cert refused shift ", shift),
        CheckFault::Shape(mark) => write_offset(err, b"viaduct: cert refused shape ", mark),
        CheckFault::BestInvalid => { write_parts(err, &[b"viaduct: cert refused best invalid\n"]) }
        CheckFault::CostWrong(stated, own) => write_cost_fault(err, stated, own),
        CheckFault::NotViolated(mark) => write_offset(
            err,
            b"viaduct: cert refused not violated ",
            mark,
        ),
        CheckFault::NotBounded(mark, bound, cost) => write_bound_fault(err, mark, bound, cost),
        CheckFault::Memory => write_memory(err),
    }
}

/// Writes the line of a best list that has not the stated cost.
fn write_cost_fault<E: Sink>(err: &mut E, stated: u32, own: i64) -> Result<(), Failed>
    ensures { WritesAll (cost_line stated own) (E.view err.old) (E.view err.new) result }
{
    let mut stated_buffer = Buffer::new();
    let stated = stated_buffer.format(stated).as_bytes();
    let mut own_buffer = Buffer::new();
    let own = own_buffer.format(own).as_bytes();
    write_parts(
        err,
        &[b"viaduct: cert refused cost ", stated, b" ", own, b"\n"],
    )
}

/// Writes the line of a mark at a bound below the stated cost.
fn write_bound_fault<E: Sink>(err: &mut E, mark: u32, bound: i64, cost: u32) -> Result<(), Failed>
    ensures { WritesAll (bound_line mark bound cost) (E.view err.old) (E.view err.new) result }
{
    let mut mark_buffer = Buffer::new();
    let mark = mark_buffer.format(mark).as_bytes();
    let mut bound_buffer = Buffer::new();
    let bound = bound_buffer.format(bound).as_bytes();
    let mut cost_buffer = Buffer::new();
    let cost = cost_buffer.format(cost).as_bytes();
    write_parts(
        err,
        &[
            b"viaduct: cert refused not bounded ",
            mark,
            b" ",
            bound,
            b" ",
            cost,
            b"\n",
        ],
    )
}

/// Writes a text, a number behind it and the line's end.
pub(crate) fn write_offset<E: Sink>(err: &mut E, text: &[u8], offset: u32) -> Result<(), Failed>
    ensures { WritesAll (offset_line text.now offset) (E.view err.old) (E.view err.new) result }
{
    let mut buffer = Buffer::new();
    let number = buffer.format(offset).as_bytes();
    write_parts(err, &[text, number, b"\n"])
}

/// Writes a text, a place or a count behind it and the line's end.
fn write_place<E: Sink>(err: &mut E, text: &[u8], place: usize) -> Result<(), Failed>
    ensures { WritesAll (offset_line text.now place) (E.view err.old) (E.view err.new) result }
{
    let mut buffer = Buffer::new();
    let number = buffer.format(place as u64).as_bytes();
    write_parts(err, &[text, number, b"\n"])
}

/// Writes a text, a name behind it and the line's end.
pub(crate) fn write_name<E: Sink>(err: &mut E, text: &[u8], name: &[u8]) -> Result<(), Failed>
    ensures { WritesAll (name_line text.now name.now) (E.view err.old) (E.view err.new) result }
{
    write_named(err, text, name, &[b"\n"])
}
