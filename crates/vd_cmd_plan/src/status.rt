//! How a run ended.

ghost use Rattle.std.specs.Prelude.{◌≡◌};
ghost use Rattle.vd_cmd_plan.specs.declared.status.Status.TheVariants.{Memory};
ghost use Rattle.vd_cmd_plan.specs.Lines.{code_of, host_code};

use crate::labelled::Labelled;
use std::alloc::AllocError;
use vd_base::{Name, Names, Text};
use vd_bound::CheckFault;
use vd_constraints::{Check, Origin};
use vd_formula::Formula;
use vd_host_children::ChildrenFault;
use vd_parser::ParseFault;
use vd_report::ReadFault;
use vd_resolve::NameFault;
use vd_tape::{BadItem, DealKind};

/// Why no labelling satisfies the flow rules of a program, and what a person is told of it.
#[derive(Debug, Drop)]
pub struct FlowFault {
    /// The number of the first check that fails at the least solution of the rules.
    pub number: u32,
    /// The check, whose constant does not act for its part.
    pub check: Check,
    /// What asks for the check.
    pub origin: Origin,
    /// The formula that its part has there.
    pub asked: Formula,
    /// The names that both formulas are over.
    pub principals: Names,
    /// The names of the hosts, of which the origin may have one.
    pub hosts: Names,
}

/// Why one host did not run to its end over a net, beside what may end any command. Offsets of bytes that came are counted
/// from the first byte of the link's greeting.
#[derive(Debug, Drop)]
pub enum HostStatus {
    /// No program's text goes on at this offset as the file does.
    ProgramText(u32),
    /// The instruction with this number breaks a range of host code.
    ProgramRange(u32),
    /// A call of the net for this peer failed, or the link to it.
    PeerFault(Name),
    /// The first byte at this offset that no greeting has, or no awaited packet.
    BadFrame(u64, u8),
    /// Two words that are to be the same.
    Unequal(u32, u32),
    /// A greeting came whole from this peer, by another plan: the digest of this host's plan, and that of the peer's.
    WrongProgram(Name, [u8; 32], [u8; 32]),
    /// The host that a byte of a greeting should name, and the one that it names.
    WrongHost(u8, u8),
    /// An input past the end: how many were taken, and how many there are.
    ShortInput(usize, usize),
    /// An item past the end of a list of the deal: how many were taken, and how many there are.
    ShortDeal(DealKind, usize, usize),
    /// The link to this peer told its end within an awaited frame or before it.
    EndOfLink(Name),
}

impl HostStatus {
    /// The number with which the process ends.
    pub fn code(&self) -> u8
        ensures { result ≡ host_code self.now }
    {
        match self {
            HostStatus::ProgramText(_) | HostStatus::ProgramRange(_) => 14,
            HostStatus::PeerFault(_) => 18,
            HostStatus::BadFrame(_, _) => 19,
            HostStatus::Unequal(_, _) => 20,
            HostStatus::WrongProgram(_, _, _) => 21,
            HostStatus::WrongHost(_, _) => 22,
            HostStatus::ShortInput(_, _) => 23,
            HostStatus::ShortDeal(_, _, _) => 24,
            HostStatus::EndOfLink(_) => 25,
        }
    }
}

/// Why a cell of a table, or the table itself, gives no words.
#[derive(Clone, Copy, Debug)]
pub enum TableFault {
    /// The table has no header.
    NoHeader,
    /// No cell of the header has this name; it is the name with this number, from 1 on, among those that are asked for.
    NoColumn,
    /// A row has another number of cells than the header.
    Length,
    /// A line is empty, and others stand behind it.
    EmptyLine,
    /// A cell is empty.
    Empty,
    /// A cell has a sign.
    Sign,
    /// A cell is no decimal number.
    NoNumber,
    /// A cell has decimals that its factor does not make whole.
    Fraction,
    /// A cell is too long, or comes to 2^32 or more.
    Large,
    /// With this row there are more words than a section may have.
    Many,
}

/// Why a file does not tell what a host printed.
#[derive(Clone, Copy, Debug)]
pub enum ReportFault {
    /// It has not the words of what a host prints, or of a line of a replay.
    Text,
    /// It ends before all has come, or the host had not ended.
    Cut,
    /// No run of the source tells the host so many words.
    Words,
}

/// How a run ended. A fault of a text is carried as the pass that found it gave it; where that wanted memory, or the text was too
/// long for it, the status is `Memory` or `TooLong`. A search that found no assignment gives back the program that it was made for,
/// with its least labels.
#[derive(Debug, Drop)]
pub enum Status {
    /// The command was carried out.
    Ended,
    /// There was no memory left.
    Memory,
    /// The words have no form.
    Usage,
    /// The fetch of this file failed.
    ReadFault(Text),
    /// A store, or a write of the output, failed.
    WriteFault,
    /// This file is longer than its limit in bytes.
    TooLong(Text, u32),
    /// The text of the source is not in the grammar.
    Syntax(ParseFault),
    /// The source breaks a rule on names, kinds or sizes.
    Names(NameFault),
    /// No labelling satisfies the flow rules.
    Flow(FlowFault),
    /// The command was carried out, and came to this: no assignment of protocols is valid for this program.
    NoAssignment(Labelled),
    /// The search had this budget, and needs more for this program.
    Spent(u32, Labelled),
    /// The text of the inputs is refused.
    InputText(ReadFault),
    /// The text of the deal of the host with this name and number is refused: no deal of its goes on at this offset as the file does.
    DealText(Name, u8, u32),
    /// The text of the schedule is refused.
    ScheduleText(ReadFault),
    /// No certificate's text goes on at this offset as the file does.
    CertificateText(u32),
    /// The first item of the deals that breaks its identity.
    BadDeal(BadItem),
    /// The certificate is not accepted.
    CertificateRefused(CheckFault),
    /// One host did not run to its end over a net.
    Host(HostStatus),
    /// The children that play the hosts with these names did not come to an end.
    ChildFault(Names, ChildrenFault),
    /// No host of the source has this name.
    NoHost(Text),
    /// The source has so many hosts, and not two.
    NotTwo(usize),
    /// The choice has a commitment: the first slot that stands at one.
    HasCommit(usize),
    /// The first kind of items of which a run takes more than a host was dealt.
    DealShort(DealKind),
    /// The first place at which what a host knows of two inputs differs.
    ViewDiffers(usize),
    /// The deal in this file was used before.
    DealUsed(Text),
    /// This file of a key has so many bytes, and not 32.
    ShortKey(Text, u32),
    /// The table in this file gives no words: in this row and this column, both counted from 1 on, of which the header is the first row.
    Table(Text, usize, usize, TableFault),
    /// This file does not tell what a host printed.
    Report(Text, ReportFault),
}

impl Status {
    /// The number with which the process ends.
    pub fn code(&self) -> u8
        ensures { result ≡ code_of self.now }
    {
        match self {
            Status::Ended => 0,
            Status::Memory => 1,
            Status::Usage => 2,
            Status::ReadFault(_) => 3,
            Status::WriteFault => 4,
            Status::TooLong(_, _) => 5,
            Status::Syntax(_) => 6,
            Status::Names(_) => 7,
            Status::Flow(_) => 8,
            Status::NoAssignment(_) => 9,
            Status::Spent(_, _) => 10,
            Status::InputText(_) => 11,
            Status::DealText(_, _, _) => 12,
            Status::ScheduleText(_) => 13,
            Status::CertificateText(_) => 15,
            Status::BadDeal(_) => 16,
            Status::CertificateRefused(_) => 17,
            Status::Host(fault) => fault.code(),
            Status::ChildFault(_, _) => 26,
            Status::NoHost(_) => 27,
            Status::NotTwo(_) => 28,
            Status::HasCommit(_) => 29,
            Status::DealShort(_) => 31,
            Status::ViewDiffers(_) => 32,
            Status::DealUsed(_) => 33,
            Status::ShortKey(_, _) => 34,
            Status::Table(_, _, _, _) => 35,
            Status::Report(_, _) => 36,
        }
    }
}

impl From<AllocError> for Status {
    ghost from_gives = { λ _ status. status ≡ Memory };

    fn from(_: AllocError) -> Self {
        Status::Memory
    }
}
