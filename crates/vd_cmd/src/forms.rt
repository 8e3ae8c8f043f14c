//! Commands made of their words, and of the numbers that were found in them.

ghost use Rattle.std.specs.Prelude.{◌≡◌, None, Some, IfOk, IfSome, IsTrue};
ghost use Rattle.vd_base.specs.Lexical.{is_name};
ghost use Rattle.vd_cmd.specs.Commands.{Reads, AreWithin, IsBudget, IsPort, IsSize, choose_of, compile_of, deal_of, depends_of, draw_of, early_of, excuse_of, gen_of, key_deal_of, needs_of, replay_of, reveals_of, run_of, trial_of};
ghost use Rattle.vd_cmd.specs.declared.command.Command.TheVariants.{Check, OnFiles};
ghost use Rattle.vd_cmd.specs.declared.command.FilesCommand.TheVariants.{Clear, Certify, Column, Influences, Report};
ghost use Rattle.vd_cmd.specs.Groups.{group_of};
ghost use Rattle.vd_cmd.specs.declared.command.KeySource.TheVariants.{Drawn, InFile};

use crate::command::{
    CheckWords, ColumnWords, Command, CommandFault, EarlyWords, ExcuseWords, FilesCommand,
    KeyDealWords, KeySource, NeedsKind, NeedsWords, ReplayWords, ReportWords, RevealsWords,
    RunWords,
};
use crate::groups::{are_new, between_commas};
use std::alloc::{AllocError, Global};
use vd_base::{Text, Texts};
use vd_tape::Counts;

/// The command `deal` with these counts and this key, if they are given.
pub(crate) fn deal_of(
    alloc: Global,
    counts: Option<Counts>,
    key: Option<u64>,
    prefix: &Text,
) -> Result<Command, CommandFault>
    requires { IfSome counts AreWithin }
    ensures { Reads (deal_of counts key prefix.now) result }
{
    let (Some(counts), Some(key)) = (counts, key) else {
        return Err(CommandFault::Usage);
    };
    let prefix = Text::copy_of(alloc, prefix.as_str())?;
    Ok(Command::OnFiles(FilesCommand::Deal(counts, key, prefix)))
}

/// The command `deal` with these counts and a key that is drawn, if they are given.
pub(crate) fn deal_drawn(
    alloc: Global,
    counts: Option<Counts>,
    prefix: &Text,
) -> Result<Command, CommandFault>
    requires { IfSome counts AreWithin }
    ensures { Reads (key_deal_of counts Drawn prefix.now) result }
{
    let Some(counts) = counts else {
        return Err(CommandFault::Usage);
    };
    Ok(Command::KeyDeal(KeyDealWords {
        counts,
        key: KeySource::Drawn,
        prefix: Text::copy_of(alloc, prefix.as_str())?,
    }))
}

/// The command `deal` with these counts and the key that a file has, if they are given.
pub(crate) fn deal_from_file(
    alloc: Global,
    counts: Option<Counts>,
    name: &str,
    prefix: &Text,
) -> Result<Command, CommandFault>
    requires { IfSome counts AreWithin }
    ensures { Reads (key_deal_of counts (InFile name.now) prefix.now) result }
{
    let Some(counts) = counts else {
        return Err(CommandFault::Usage);
    };
    Ok(Command::KeyDeal(KeyDealWords {
        counts,
        key: KeySource::InFile(Text::copy_of(alloc, name)?),
        prefix: Text::copy_of(alloc, prefix.as_str())?,
    }))
}

/// The command `choose` with this budget, if it is given.
pub(crate) fn choose_of(
    alloc: Global,
    source: &Text,
    budget: Option<u64>,
) -> Result<Command, CommandFault>
    requires { IfSome budget IsBudget }
    ensures { Reads (choose_of source.now budget) result }
{
    let Some(budget) = budget else {
        return Err(CommandFault::Usage);
    };
    let source = Text::copy_of(alloc, source.as_str())?;
    Ok(Command::OnFiles(FilesCommand::Choose(source, budget as u32)))
}

/// The command `draw` with this budget, if it is given.
pub(crate) fn draw_of(
    alloc: Global,
    source: &Text,
    budget: Option<u64>,
) -> Result<Command, CommandFault>
    requires { IfSome budget IsBudget }
    ensures { Reads (draw_of source.now budget) result }
{
    let Some(budget) = budget else {
        return Err(CommandFault::Usage);
    };
    let source = Text::copy_of(alloc, source.as_str())?;
    Ok(Command::OnFiles(FilesCommand::Draw(source, budget as u32)))
}

/// The command `reveals` of all hosts with this budget, if it is given.
pub(crate) fn reveals_all(
    alloc: Global,
    source: &Text,
    budget: Option<u64>,
) -> Result<Command, CommandFault>
    requires { IfSome budget IsBudget }
    ensures { Reads (reveals_of source.now None budget) result }
{
    let Some(budget) = budget else {
        return Err(CommandFault::Usage);
    };
    Ok(Command::OnFiles(FilesCommand::Reveals(RevealsWords {
        source: Text::copy_of(alloc, source.as_str())?,
        host: None,
        budget: budget as u32,
    })))
}

/// The command `reveals` of one host with this budget, if it is given.
pub(crate) fn reveals_one(
    alloc: Global,
    source: &Text,
    host: &Text,
    budget: Option<u64>,
) -> Result<Command, CommandFault>
    requires { IfSome budget IsBudget }
    ensures { Reads (reveals_of source.now (Some host.now) budget) result }
{
    let Some(budget) = budget else {
        return Err(CommandFault::Usage);
    };
    let (source, host) = both(alloc, source, host)?;
    Ok(Command::OnFiles(FilesCommand::Reveals(RevealsWords {
        source,
        host: Some(host),
        budget: budget as u32,
    })))
}

/// The command `compile` with this budget, if it is given.
pub(crate) fn compile_of(
    alloc: Global,
    source: &Text,
    prefix: &Text,
    budget: Option<u64>,
) -> Result<Command, CommandFault>
    requires { IfSome budget IsBudget }
    ensures { Reads (compile_of source.now prefix.now budget) result }
{
    let Some(budget) = budget else {
        return Err(CommandFault::Usage);
    };
    let source = Text::copy_of(alloc, source.as_str())?;
    let prefix = Text::copy_of(alloc, prefix.as_str())?;
    Ok(Command::OnFiles(FilesCommand::Compile(source, prefix, budget as u32)))
}

/// The command `compile` with the word `early` and this budget, if it is given.
pub(crate) fn early_of(
    alloc: Global,
    source: &Text,
    prefix: &Text,
    budget: Option<u64>,
) -> Result<Command, CommandFault>
    requires { IfSome budget IsBudget }
    ensures { Reads (early_of source.now prefix.now budget) result }
{
    let Some(budget) = budget else {
        return Err(CommandFault::Usage);
    };
    let source = Text::copy_of(alloc, source.as_str())?;
    let prefix = Text::copy_of(alloc, prefix.as_str())?;
    Ok(Command::Early(EarlyWords {
        source,
        prefix,
        budget: budget as u32,
    }))
}

/// The command `needs` that prints this, or `rounds`, with this budget, if it is given.
pub(crate) fn needs_of(
    alloc: Global,
    file: &Text,
    kind: NeedsKind,
    budget: Option<u64>,
) -> Result<Command, CommandFault>
    requires { IfSome budget IsBudget }
    ensures { Reads (needs_of file.now kind budget) result }
{
    let Some(budget) = budget else {
        return Err(CommandFault::Usage);
    };
    let file = Text::copy_of(alloc, file.as_str())?;
    Ok(Command::OnFiles(FilesCommand::Needs(NeedsWords {
        file,
        kind,
        budget: budget as u32,
    })))
}

/// The words of `replay` with this budget.
fn replay_words(
    alloc: Global,
    source: &Text,
    inputs: &Text,
    prefix: &Text,
    schedule: &Text,
    messages: bool,
    budget: u32,
) -> Result<ReplayWords, AllocError>
    ensures { IfOk result (λ words. words ≡ record {
      source = source.now;
      inputs = inputs.now;
      prefix = prefix.now;
      schedule = schedule.now;
      messages = messages;
      budget = budget;
    }) }
{
    Ok(ReplayWords {
        source: Text::copy_of(alloc, source.as_str())?,
        inputs: Text::copy_of(alloc, inputs.as_str())?,
        prefix: Text::copy_of(alloc, prefix.as_str())?,
        schedule: Text::copy_of(alloc, schedule.as_str())?,
        messages,
        budget,
    })
}

/// The command `replay` with this budget, if it is given.
pub(crate) fn replay_of(
    alloc: Global,
    source: &Text,
    inputs: &Text,
    prefix: &Text,
    schedule: &Text,
    messages: bool,
    budget: Option<u64>,
) -> Result<Command, CommandFault>
    requires { IfSome budget IsBudget }
    ensures { Reads (replay_of source.now inputs.now prefix.now schedule.now messages budget) result }
{
    let Some(budget) = budget else {
        return Err(CommandFault::Usage);
    };
    let words = replay_words(
        alloc,
        source,
        inputs,
        prefix,
        schedule,
        messages,
        budget as u32,
    )?;
    Ok(Command::OnFiles(FilesCommand::Replay(words)))
}

/// The words of `excuse` with this budget.
fn excuse_words(
    alloc: Global,
    source: &Text,
    inputs: &Text,
    second: &Text,
    prefix: &Text,
    host: &Text,
    out: &Text,
    budget: u32,
) -> Result<ExcuseWords, AllocError>
    ensures { IfOk result (λ words. words ≡ record {
      source = source.now;
      inputs = inputs.now;
      second = second.now;
      prefix = prefix.now;
      host = host.now;
      out = out.now;
      budget = budget;
    }) }
{
    Ok(ExcuseWords {
        source: Text::copy_of(alloc, source.as_str())?,
        inputs: Text::copy_of(alloc, inputs.as_str())?,
        second: Text::copy_of(alloc, second.as_str())?,
        prefix: Text::copy_of(alloc, prefix.as_str())?,
        host: Text::copy_of(alloc, host.as_str())?,
        out: Text::copy_of(alloc, out.as_str())?,
        budget,
    })
}

/// The command `excuse` with this budget, if it is given.
pub(crate) fn excuse_of(
    alloc: Global,
    source: &Text,
    inputs: &Text,
    second: &Text,
    prefix: &Text,
    host: &Text,
    out: &Text,
    budget: Option<u64>,
) -> Result<Command, CommandFault>
    requires { IfSome budget IsBudget }
    ensures { Reads (excuse_of source.now inputs.now second.now prefix.now host.now out.now budget) result }
{
    let Some(budget) = budget else {
        return Err(CommandFault::Usage);
    };
    let words = excuse_words(
        alloc,
        source,
        inputs,
        second,
        prefix,
        host,
        out,
        budget as u32,
    )?;
    Ok(Command::OnFiles(FilesCommand::Excuse(words)))
}

/// The words of `run` with this port.
fn run_words(
    alloc: Global,
    source: &Text,
    inputs: &Text,
    prefix: &Text,
    program: &Text,
    port: u32,
) -> Result<RunWords, AllocError>
    ensures { IfOk result (λ words. words ≡ record {
      source = source.now;
      inputs = inputs.now;
      prefix = prefix.now;
      program = program.now;
      port = port;
    }) }
{
    Ok(RunWords {
        source: Text::copy_of(alloc, source.as_str())?,
        inputs: Text::copy_of(alloc, inputs.as_str())?,
        prefix: Text::copy_of(alloc, prefix.as_str())?,
        program: Text::copy_of(alloc, program.as_str())?,
        port,
    })
}

/// The command `run` with this port, if it is given.
pub(crate) fn run_of(
    alloc: Global,
    source: &Text,
    inputs: &Text,
    prefix: &Text,
    program: &Text,
    port: Option<u64>,
) -> Result<Command, CommandFault>
    requires { IfSome port IsPort }
    ensures { Reads (run_of source.now inputs.now prefix.now program.now port) result }
{
    let Some(port) = port else {
        return Err(CommandFault::Usage);
    };
    let words = run_words(alloc, source, inputs, prefix, program, port as u32)?;
    Ok(Command::Run(words))
}

/// The command `gen` of this size, if it is given.
pub(crate) fn gen_of(coordinates: Option<u64>) -> Result<Command, CommandFault>
    requires { IfSome coordinates IsSize }
    ensures { Reads (gen_of coordinates) result }
{
    match coordinates {
        Some(coordinates) => Ok(Command::OnFiles(FilesCommand::Gen(coordinates as u32))),
        None => Err(CommandFault::Usage),
    }
}

/// The command `trial` of this size, if it is given.
pub(crate) fn trial_of(coordinates: Option<u64>) -> Result<Command, CommandFault>
    requires { IfSome coordinates IsSize }
    ensures { Reads (trial_of coordinates) result }
{
    let Some(coordinates) = coordinates else {
        return Err(CommandFault::Usage);
    };
    Ok(Command::OnFiles(FilesCommand::Trial(coordinates as u32)))
}

/// Copies of two texts.
fn both(alloc: Global, first: &Text, second: &Text) -> Result<(Text, Text), AllocError>
    ensures { IfOk result (λ texts. texts ≡ (first.now, second.now)) }
{
    let first = Text::copy_of(alloc, first.as_str())?;
    let second = Text::copy_of(alloc, second.as_str())?;
    Ok((first, second))
}

/// The command `clear`.
pub(crate) fn clear_of(alloc: Global, source: &Text, inputs: &Text) -> Result<Command, CommandFault>
    ensures { Reads (Some (OnFiles (Clear source.now inputs.now))) result }
{
    let (source, inputs) = both(alloc, source, inputs)?;
    Ok(Command::OnFiles(FilesCommand::Clear(source, inputs)))
}

/// The command `certify`.
pub(crate) fn certify_of(
    alloc: Global,
    source: &Text,
    certificate: &Text,
) -> Result<Command, CommandFault>
    ensures { Reads (Some (OnFiles (Certify source.now certificate.now))) result }
{
    let (source, certificate) = both(alloc, source, certificate)?;
    Ok(Command::OnFiles(FilesCommand::Certify(source, certificate)))
}

/// The command `depends` of the hosts that a word names, if none of its names is empty or stands twice.
pub(crate) fn depends_of(alloc: Global, source: &Text, word: &Text) -> Result<Command, CommandFault>
    ensures { Reads (depends_of source.now (group_of word.now)) result }
{
    if !are_new(word.as_str()) {
        return Err(CommandFault::Usage);
    }
    let source = Text::copy_of(alloc, source.as_str())?;
    let names = between_commas(alloc, word.as_str())?;
    Ok(Command::OnFiles(FilesCommand::Depends(source, names)))
}

/// The command `influences`.
pub(crate) fn influences_of(
    alloc: Global,
    source: &Text,
    host: &Text,
) -> Result<Command, CommandFault>
    ensures { Reads (Some (OnFiles (Influences source.now host.now))) result }
{
    let (source, host) = both(alloc, source, host)?;
    Ok(Command::OnFiles(FilesCommand::Influences(source, host)))
}

/// The command `check` of these files.
pub(crate) fn check_of(
    alloc: Global,
    program: &Text,
    inputs: &Text,
    deal: &Text,
) -> Result<Command, CommandFault>
    ensures { Reads (Some (Check (record { program = program.now; inputs = inputs.now; deal = deal.now }))) result }
{
    let (program, inputs) = both(alloc, program, inputs)?;
    let deal = Text::copy_of(alloc, deal.as_str())?;
    Ok(Command::Check(CheckWords {
        program,
        inputs,
        deal,
    }))
}

/// Copies of texts.
pub(crate) fn copies(alloc: Global, texts: &[Text]) -> Result<Texts, AllocError>
    ensures { IfOk result (λ list. list ≡ texts.now) }
{
    let mut list = Texts::new(alloc);
    for text in texts {
        list.push(text.as_str())?;
    }
    Ok(list)
}

/// The command `column` with these names of columns.
pub(crate) fn column_of(
    alloc: Global,
    host: &Text,
    file: &Text,
    columns: &[Text],
) -> Result<Command, CommandFault>
    requires { IsTrue (is_name host.now) }
    ensures { Reads (Some (OnFiles (Column (record { host = host.now; file = file.now; columns = columns.now })))) result }
{
    let (host, file) = both(alloc, host, file)?;
    let columns = copies(alloc, columns)?;
    Ok(Command::OnFiles(FilesCommand::Column(ColumnWords {
        host,
        file,
        columns,
    })))
}

/// The command `report`.
pub(crate) fn report_of(
    alloc: Global,
    source: &Text,
    host: &Text,
    file: &Text,
    json: bool,
) -> Result<Command, CommandFault>
    ensures { Reads (Some (OnFiles (Report (record { source = source.now; host = host.now; file = file.now; json = json })))) result }
{
    let (source, host) = both(alloc, source, host)?;
    let file = Text::copy_of(alloc, file.as_str())?;
    Ok(Command::OnFiles(FilesCommand::Report(ReportWords {
        source,
        host,
        file,
        json,
    })))
}
