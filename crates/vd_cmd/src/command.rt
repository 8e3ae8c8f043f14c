//! The commands that a command line may be.

ghost use Rattle.std.specs.Prelude.{◌≡◌};
ghost use Rattle.vd_cmd.specs.declared.command.CommandFault.TheVariants.{Memory};

use std::alloc::AllocError;
use std::error::Error;
use std::fmt;
use vd_base::{Text, Texts};
use vd_tape::Counts;

/// The words of `replay SOURCE INPUTS PREFIX SCHEDULE [messages] [BUDGET]`.
#[derive(Drop)]
pub struct ReplayWords {
    pub source: Text,
    pub inputs: Text,
    pub prefix: Text,
    pub schedule: Text,
    /// Whether the words that were sent are told too.
    pub messages: bool,
    /// How many prefixes the search may open.
    pub budget: u32,
}

/// What is printed of what the programs of a source's hosts need.
#[derive(Clone, Copy)]
pub enum NeedsKind {
    /// The first words of `deal`.
    Sizes,
    /// How many inputs and items each host and each two hosts take.
    Each,
    /// What a run costs: how much each host tells each other one.
    Rounds,
}

/// The words of `needs FILE [each] [BUDGET]` and of `rounds FILE [BUDGET]`.
#[derive(Drop)]
pub struct NeedsWords {
    /// A source, or the program of a host.
    pub file: Text,
    /// What is printed.
    pub kind: NeedsKind,
    /// How many prefixes the search may open.
    pub budget: u32,
}

/// The words of `reveals SOURCE [HOST] [BUDGET]`.
#[derive(Drop)]
pub struct RevealsWords {
    pub source: Text,
    /// The name of the host whose lines are printed, where one is given; else those of all hosts are.
    pub host: Option<Text>,
    /// How many prefixes the search may open.
    pub budget: u32,
}

/// The words of `compile SOURCE PREFIX early [BUDGET]`.
#[derive(Drop)]
pub struct EarlyWords {
    pub source: Text,
    pub prefix: Text,
    /// How many prefixes the search may open.
    pub budget: u32,
}

/// The words of `host PROGRAM INPUTS DEAL ADDR*`: three files, and the addresses of the host's pairs in the order of its
/// peers. Those of `host-within SECONDS PROGRAM INPUTS DEAL ADDR*` have a limit besides.
#[derive(Drop)]
pub struct HostWords {
    pub program: Text,
    pub inputs: Text,
    pub deal: Text,
    pub addresses: Texts,
    /// No wait for another host is longer than so many seconds, where there is a limit.
    pub limit: Option<u32>,
}

/// The words of `check PROGRAM INPUTS DEAL`: the three files of a host.
#[derive(Drop)]
pub struct CheckWords {
    pub program: Text,
    pub inputs: Text,
    pub deal: Text,
}

/// The words of `run SOURCE INPUTS PREFIX SELF PORT`.
#[derive(Drop)]
pub struct RunWords {
    pub source: Text,
    pub inputs: Text,
    pub prefix: Text,
    /// The program that plays each host.
    pub program: Text,
    /// The hosts meet at ports from this one on.
    pub port: u32,
}

/// Where a key of 32 bytes comes from.
#[derive(Drop)]
pub enum KeySource {
    /// `draw`: it is drawn, and kept nowhere.
    Drawn,
    /// `@FILE`: it is what this file holds.
    InFile(Text),
}

/// The words of `deal HOSTS OWN MULS ANDS PAIRS draw PREFIX` and `deal HOSTS OWN MULS ANDS PAIRS @FILE PREFIX`.
#[derive(Drop)]
pub struct KeyDealWords {
    pub counts: Counts,
    pub key: KeySource,
    pub prefix: Text,
}

/// The words of `excuse SOURCE INPUTS INPUTS2 PREFIX HOST OUT [BUDGET]`.
#[derive(Drop)]
pub struct ExcuseWords {
    pub source: Text,
    /// The inputs of the run that was seen.
    pub inputs: Text,
    /// The inputs that are to explain it.
    pub second: Text,
    pub prefix: Text,
    /// The name of the host that has seen the run.
    pub host: Text,
    /// The prefix of the files that are stored.
    pub out: Text,
    pub budget: u32,
}

/// The words of `column HOST FILE NAME[*FACTOR] ..`.
#[derive(Drop)]
pub struct ColumnWords {
    /// The name of the host whose section is printed.
    pub host: Text,
    /// The table.
    pub file: Text,
    /// The columns in the order in which their words are printed: the name of each, and a factor if it has one.
    pub columns: Texts,
}

/// The words of `report SOURCE HOST FILE [json]`.
#[derive(Drop)]
pub struct ReportWords {
    pub source: Text,
    /// The name of the host that has printed.
    pub host: Text,
    /// What it has printed, or the report of a replay.
    pub file: Text,
    /// Whether one JSON object is printed, and else a line for each word.
    pub json: bool,
}

/// A command that uses files and the output alone: it reads files, and its answer is what it stores and prints.
#[derive(Drop)]
pub enum FilesCommand {
    /// `clear SOURCE INPUTS`.
    Clear(Text, Text),
    /// `labels SOURCE`.
    Labels(Text),
    /// `choose SOURCE [BUDGET]`.
    Choose(Text, u32),
    /// `draw SOURCE [BUDGET]`.
    Draw(Text, u32),
    /// `reveals SOURCE [HOST] [BUDGET]`.
    Reveals(RevealsWords),
    /// `certify SOURCE CERT`.
    Certify(Text, Text),
    /// `compile SOURCE PREFIX [BUDGET]`.
    Compile(Text, Text, u32),
    /// `needs FILE [each] [BUDGET]`, or `rounds FILE [BUDGET]`.
    Needs(NeedsWords),
    /// `deal HOSTS OWN MULS ANDS PAIRS KEY PREFIX`.
    Deal(Counts, u64, Text),
    /// `replay SOURCE INPUTS PREFIX SCHEDULE [messages] [BUDGET]`.
    Replay(ReplayWords),
    /// `excuse SOURCE INPUTS INPUTS2 PREFIX HOST OUT [BUDGET]`.
    Excuse(ExcuseWords),
    /// `depends SOURCE HOSTS`: the names of these hosts.
    Depends(Text, Texts),
    /// `influences SOURCE HOST`.
    Influences(Text, Text),
    /// `column HOST FILE NAME[*FACTOR] ..`.
    Column(ColumnWords),
    /// `report SOURCE HOST FILE [json]`.
    Report(ReportWords),
    /// `gen N`.
    Gen(u32),
    /// `trial N`.
    Trial(u32),
}

/// A command line that has a form.
#[derive(Drop)]
pub enum Command {
    OnFiles(FilesCommand),
    /// `deal HOSTS OWN MULS ANDS PAIRS draw PREFIX`, or with `@FILE` in place of `draw`.
    KeyDeal(KeyDealWords),
    /// `compile SOURCE PREFIX early [BUDGET]`.
    Early(EarlyWords),
    /// `host PROGRAM INPUTS DEAL ADDR*`, or `host-within SECONDS PROGRAM INPUTS DEAL ADDR*`.
    Host(HostWords),
    /// `check PROGRAM INPUTS DEAL`.
    Check(CheckWords),
    /// `run SOURCE INPUTS PREFIX SELF PORT`.
    Run(RunWords),
}

/// Why words give no command.
#[derive(Clone, Copy, Debug, PartialEq, Eq)]
pub enum CommandFault {
    /// They have no form.
    Usage,
    /// There was no memory left.
    Memory,
}

impl fmt::Display for CommandFault {
    fn fmt<W: fmt::Write>(&self, f: &mut fmt::Formatter<W>) -> fmt::Result {
        match self {
            CommandFault::Usage => write!(f, "the words have no form"),
            CommandFault::Memory => write!(f, "out of memory"),
        }
    }
}

impl Error for CommandFault {}

impl From<AllocError> for CommandFault {
    ghost from_gives = { λ _ fault. fault ≡ Memory };

    fn from(_: AllocError) -> Self {
        CommandFault::Memory
    }
}
