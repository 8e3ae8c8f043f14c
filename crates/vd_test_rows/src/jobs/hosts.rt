//! Loops at two hosts.

ghost use Rattle.std.specs.Prelude.{◌≡◌, ◌<◌, ◌∷◌, [], IfOk};
ghost use Rattle.vd_test_rows.specs.Codes.{counting, speaker, listener, CanLoad};
ghost use Rattle.vd_tape.specs.Validity.{IsDeal};
ghost use Rattle.vd_execution.specs.Text.{register};

use std::alloc::{AllocError, Global};
use vd_base::{HostId, Items};
use vd_execution::{Action, Binary, Instr, Reg};
use vd_machine::Machine;
use vd_tape::Deal;
use vd_world::World;

/// What a run made.
#[derive(Clone, Copy)]
pub(crate) struct Run {
    /// How many steps the hosts took together.
    pub steps: u64,
    /// The word that was printed.
    pub printed: u32,
}

/// Steps of one turn: in `world` the loop's own and four of its body; in `talk` two of the speaker and three of the listener.
const TURN_STEPS: u64 = 5;

/// Steps outside of the turns: in `world` a constant, the end of the loop and what is printed; in `talk` the ends of both loops
/// and what is printed.
const OTHER_STEPS: u64 = 3;

/// Turns of a linear generator, each with its number and a shift mixed in; then its word is printed.
fn counting_code(alloc: Global, turns: u32) -> Result<Items<Instr>, AllocError>
    ensures { IfOk result (λ code. code ≡ counting turns) }
{
    let code = vec![in alloc;
        Instr::Do(Action::Const(Reg(2), 1664525)),
        Instr::For(Reg(0), turns),
        Instr::Do(Action::Apply(Binary::Mul, Reg(1), Reg(1), Reg(2))),
        Instr::Do(Action::Apply(Binary::Add, Reg(1), Reg(1), Reg(0))),
        Instr::Do(Action::Shr(Reg(3), Reg(1), 13)),
        Instr::Do(Action::Apply(Binary::Xor, Reg(1), Reg(1), Reg(3))),
        Instr::End,
        Instr::Do(Action::Print(Reg(1))),
    ]?;
    Ok(Items::from_vec(code))
}

fn one_register(alloc: Global) -> Result<Items<Reg>, AllocError>
    ensures { IfOk result (λ list. list ≡ register 0 ∷ []) }
{
    let list = vec![in alloc; Reg(0)]?;
    Ok(Items::from_vec(list))
}

/// Turns in which their number is sent to host 1.
fn speaker_code(alloc: Global, turns: u32) -> Result<Items<Instr>, AllocError>
    ensures { IfOk result (λ code. code ≡ speaker turns) }
{
    let number = one_register(alloc)?;
    let code = vec![in alloc;
        Instr::For(Reg(0), turns),
        Instr::Send(HostId(1), number),
        Instr::End,
    ]?;
    Ok(Items::from_vec(code))
}

/// Turns in which a word comes from host 0 and is added; then the sum is printed.
fn listener_code(alloc: Global, turns: u32) -> Result<Items<Instr>, AllocError>
    ensures { IfOk result (λ code. code ≡ listener turns) }
{
    let heard = one_register(alloc)?;
    let code = vec![in alloc;
        Instr::For(Reg(1), turns),
        Instr::Recv(HostId(0), heard),
        Instr::Do(Action::Apply(Binary::Add, Reg(2), Reg(2), Reg(0))),
        Instr::End,
        Instr::Do(Action::Print(Reg(2))),
    ]?;
    Ok(Items::from_vec(code))
}

/// A deal of nothing, to one of two hosts.
fn no_deal(alloc: Global, me: u8) -> Result<Deal, AllocError>
    requires { me < 2 }
    ensures deal { IfOk result (λ deal. IsDeal deal) }
    ensures hosts { IfOk result (λ deal. deal.hosts ≡ 2) }
{
    let mut triples = Items::new(alloc);
    triples.push(Items::new(alloc))?;
    let mut bits = Items::new(alloc);
    bits.push(Items::new(alloc))?;
    let mut pairs = Items::new(alloc);
    pairs.push(Items::new(alloc))?;
    Ok(Deal {
        hosts: 2,
        me: HostId(me),
        own: Items::new(alloc),
        triples,
        bits,
        pairs,
    })
}

fn machine(alloc: Global, code: Items<Instr>, me: u8) -> Result<Machine, AllocError>
    requires code { CanLoad code }
    requires me { me < 2 }
    ensures { IfOk result (λ m. m.lists.deal.hosts ≡ 2) }
{
    Machine::load(alloc, code, Items::new(alloc), no_deal(alloc, me)?)
}

/// Two hosts before their first step.
fn two(alloc: Global, first: Items<Instr>, second: Items<Instr>) -> Result<World, AllocError>
    requires first { CanLoad first }
    requires second { CanLoad second }
{
    let first = machine(alloc, first, 0)?;
    let second = machine(alloc, second, 1)?;
    let mut machines = Vec::new(alloc);
    machines.push(first)?;
    machines.push(second)?;
    World::start(alloc, machines)
}

/// Runs so many turns to the end, and takes what a host printed.
fn run_to_end(mut hosts: World, turns: u32, printer: HostId) -> Result<Run, AllocError> {
    hosts.run_all()?;
    let printed = hosts.printed(printer).first().copied().unwrap_or(0);
    Ok(Run {
        steps: u64::from(turns) * TURN_STEPS + OTHER_STEPS,
        printed,
    })
}

/// Runs so many turns at the first of two hosts, of which the second has nothing to do.
pub(crate) fn world(alloc: Global, turns: u32) -> Result<Run, AllocError> {
    let hosts = two(alloc, counting_code(alloc, turns)?, Items::new(alloc))?;
    run_to_end(hosts, turns, HostId(0))
}

/// Runs so many turns of two hosts, in each of which a word goes from the first to the second.
pub(crate) fn talk(alloc: Global, turns: u32) -> Result<Run, AllocError> {
    let hosts = two(
        alloc,
        speaker_code(alloc, turns)?,
        listener_code(alloc, turns)?,
    )?;
    run_to_end(hosts, turns, HostId(1))
}
