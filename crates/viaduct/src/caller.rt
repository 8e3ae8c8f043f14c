//! Who started the program, and what that person is told besides the line of the status.

ghost use Rattle.std.specs.Prelude.{◌≡◌, ℕ, List, Option, IfOk, OnOk, drop, is_some, map, option_map, string_bytes};
ghost use Rattle.vd_shell.specs.declared.telling.Reasons.{Reasons};
ghost use Rattle.viaduct.specs.Telling.{IsTold, ReasonsAreAsked, TellsPackets, TellsReasons, fault_telling, success_telling, telling_of, words_in};

use crate::program::{Ending, words_of};
use std::alloc::{AllocError, Global};
use vd_base::{Bytes, Texts};
use vd_cmd_plan::Status;
use vd_diag_terminal::Destination;
use vd_outside::Sink;
use vd_shell::{Reasons, tell_fault, tell_no_text, tell_success};

/// What is asked of the program, and by whom.
#[derive(Drop)]
pub(crate) struct Caller {
    /// The words of the command line, none where one of them is no text.
    pub words: Texts,
    pub readable: bool,
    pub destination: Destination,
    /// Whether the reasons of faults are told.
    pub told: bool,
}

/// The words of a command line, of which there are none where one of its arguments is no text.
fn words_in(alloc: Global, arguments: &Option<Vec<String>>) -> Result<Texts, AllocError>
    ensures { IfOk result (λ words. words ≡ words_in (option_map (λ list. map string_bytes (drop 1 list.items)) arguments.now)) }
{
    match arguments {
        Some(arguments) => words_of(alloc, arguments.as_slice()),
        None => Ok(Texts::new(alloc)),
    }
}

impl Caller {
    /// Who started the program with these arguments, of which one is no text where there are none.
    pub fn new(
        alloc: Global,
        arguments: &Option<Vec<String>>,
        destination: Destination,
        told: bool,
    ) -> Result<Caller, AllocError>
        ensures words { IfOk result (λ caller.
            caller.words ≡ words_in (option_map (λ list. map string_bytes (drop 1 list.items)) arguments.now)) }
        ensures readable { IfOk result (λ caller. caller.readable ≡ is_some arguments.now) }
        ensures destination { IfOk result (λ caller. caller.destination ≡ destination) }
        ensures told { IfOk result (λ caller. caller.told ≡ told) }
    {
        Ok(Caller {
            words: words_in(alloc, arguments)?,
            readable: arguments.is_some(),
            destination,
            told,
        })
    }
}

/// What a person is told of a run besides its line.
#[derive(Clone, Copy, PartialEq, Eq)]
pub(crate) enum Telling {
    Nothing,
    /// How many packets passed.
    Packets,
    /// Why it did not end well.
    Fault,
    /// That a word of the command line is no text.
    NoText,
}

/// What is told of a run that ended well, by where the error stream goes.
fn success_telling(destination: Destination) -> Telling
    ensures { result ≡ success_telling destination }
{
    match destination {
        Destination::Terminal { .. } => Telling::Packets,
        Destination::Asked | Destination::File => Telling::Nothing,
    }
}

/// What is told of another run, by whether reasons are told, and whether all words are text.
fn fault_telling(told: bool, readable: bool) -> Telling
    ensures { result ≡ fault_telling told readable }
{
    if !told {
        Telling::Nothing
    } else if readable {
        Telling::Fault
    } else {
        Telling::NoText
    }
}

/// What a person is told after this status.
fn telling_of(caller: &Caller, status: &Status) -> Telling
    ensures { result ≡ telling_of caller.now status.now }
{
    match status {
        Status::Ended => success_telling(caller.destination),
        _ => fault_telling(caller.told, caller.readable),
    }
}

/// Whom a person is told reasons, and who is told none.
pub(crate) fn reasons_are_told_to_who_asks()
    ensures { ReasonsAreAsked }
{}

/// What the objects of a run know afterwards.
pub(crate) trait Known {
    /// By this name the host of the command line speaks.
    ghost is_host: { Option (List ℕ) → Type 0 };

    /// So many packets a host sent over its links, and so many came to it.
    ghost is_passed: { ℕ × ℕ → Type 0 };

    /// For these reasons calls failed.
    ghost is_reasons: { Reasons → Type 0 };

    /// The name by which the host of the command line speaks.
    fn host(&mut self, alloc: Global, words: &Texts) -> Option<Bytes>
        ensures { is_host result };

    /// How many packets a host sent and how many came to it.
    fn passed(&self) -> (u64, u64)
        ensures { is_passed result };

    /// Why calls failed.
    fn reasons(&mut self, alloc: Global) -> Result<Reasons, AllocError>
        ensures { IfOk result (λ reasons. is_reasons reasons) };
}

/// Says how many packets passed, as the objects know it.
fn tell_packets<K: Known, E: Sink>(
    alloc: Global,
    caller: &Caller,
    ending: &Ending,
    known: &mut K,
    err: &mut E,
) -> Result<(), AllocError>
    ensures { OnOk result (TellsPackets ending.now.packets K.is_host K.is_passed (E.view err.old) (E.view err.new)) }
{
    let host = known.host(alloc, &caller.words);
    tell_success(alloc, &host, known.passed(), ending.packets, err)
}

/// Tells why a run did not end well, as the objects know it.
fn tell_reasons<K: Known, E: Sink>(
    alloc: Global,
    caller: &Caller,
    ending: &Ending,
    known: &mut K,
    err: &mut E,
) -> Result<(), AllocError>
    ensures { OnOk result (TellsReasons ending.now.status K.is_host K.is_reasons (E.view err.old) (E.view err.new)) }
{
    let host = known.host(alloc, &caller.words);
    let reasons = known.reasons(alloc)?;
    tell_fault(alloc, &host, &ending.status, &reasons, err)
}

/// Tells what is known of how a run ended besides its line. Where there is no memory for it, no more is told.
pub(crate) fn tell_ending<K: Known, E: Sink>(
    alloc: Global,
    caller: &Caller,
    ending: &Ending,
    known: &mut K,
    err: &mut E,
) -> Result<(), AllocError>
    ensures { OnOk result (IsTold (telling_of caller.now ending.now.status) ending.now.status ending.now.packets
        K.is_host K.is_passed K.is_reasons (E.view err.old) (E.view err.new)) }
{
    match telling_of(caller, &ending.status) {
        Telling::Nothing => Ok(()),
        Telling::Packets => tell_packets(alloc, caller, ending, known, err),
        Telling::Fault => tell_reasons(alloc, caller, ending, known, err),
        Telling::NoText => tell_no_text(alloc, err),
    }
}
