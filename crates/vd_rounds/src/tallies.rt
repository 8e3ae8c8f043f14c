//! How many packets and words a host's code tells its peers, by its text.

ghost use Rattle.std.specs.Prelude.{◌≡◌, ◌<◌, ℕ, ◌+◌, ◌*◌, List, [], ◌∷◌, ◌++◌, IfOk};
ghost use Rattle.vd_execution.specs.Code.{Code};
ghost use Rattle.vd_execution.specs.Text.{IsCodeOf};
ghost use Rattle.vd_rounds.specs.Tallies.{CountsOn, IsTold, capped, told};
ghost use Rattle.vd_rounds.specs.Tallies as spec;

use std::alloc::{AllocError, Global};
use vd_base::{HostId, Items};
use vd_execution::{Instr, Reg};

/// One more than any number of words that a code within the ranges can tell. No count goes further.
const TOO_MANY: u64 = 1_099_511_627_776;

/// Which of the two blocks of a branch is counted.
#[derive(Clone, Copy)]
pub enum Bound {
    /// The one that tells less.
    Least,
    /// The one that tells more.
    Most,
}

/// What is counted of packets.
#[derive(Clone, Copy)]
pub enum Measure {
    /// The packets themselves.
    Packets,
    /// Their words.
    Words,
}

/// What is counted of a code.
#[derive(Clone, Copy)]
pub struct Tally {
    pub bound: Bound,
    pub measure: Measure,
    /// The host that is told.
    pub peer: HostId,
}

/// A block whose end was read, with what is told behind what is read of it.
#[derive(Clone, Copy)]
pub(crate) enum ToldBehind {
    /// Behind the block.
    End(u64),
    /// Of a branch whose `else` was read: in its other part, and behind the branch.
    Else(u64, u64),
}

/// A sum that goes no further than `TOO_MANY`.
fn plus(a: u64, b: u64) -> u64
    ensures { result ≡ capped (a + b) }
{
    a.saturating_add(b).min(TOO_MANY)
}

/// A product that goes no further than `TOO_MANY`.
fn times(a: u64, b: u64) -> u64
    ensures { result ≡ capped (a * b) }
{
    a.saturating_mul(b).min(TOO_MANY)
}

/// What is counted of two blocks.
fn chosen(bound: Bound, first: u64, other: u64) -> u64
    ensures { result ≡ spec.chosen bound first other }
{
    match bound {
        Bound::Least => first.min(other),
        Bound::Most => first.max(other),
    }
}

/// What a packet of these registers adds.
fn size(tally: Tally, peer: HostId, registers: &[Reg]) -> u64
    ensures { result ≡ spec.size_to tally peer.0 registers.now }
{
    if tally.peer.0 != peer.0 {
        return 0;
    }
    match tally.measure {
        Measure::Packets => 1,
        Measure::Words => registers.len() as u64,
    }
}

/// Leaves a block whose end was read. Says what is told behind it.
fn pop_end(blocks: &mut Items<ToldBehind>) -> u64
    ensures { (outer : List ToldBehind) (rest : ℕ) → blocks.old ≡ outer ++ ToldBehind.End rest ∷ []
        → (result ≡ rest) × (blocks.new ≡ outer) }
{
    match blocks.pop() {
        Some(ToldBehind::End(rest)) => rest,
        _ => 0,
    }
}

/// Leaves a branch whose `else` was read. Says what is told by the branch and behind it, where its first part tells so much.
fn pop_branch(bound: Bound, blocks: &mut Items<ToldBehind>, first: u64) -> u64
    ensures { (outer : List ToldBehind) (other rest : ℕ) → blocks.old ≡ outer ++ ToldBehind.Else other rest ∷ []
        → (result ≡ capped (spec.chosen bound first other + rest)) × (blocks.new ≡ outer) }
{
    match blocks.pop() {
        Some(ToldBehind::Else(other, rest)) => plus(chosen(bound, first, other), rest),
        _ => 0,
    }
}

/// What is told from an instruction on, where so much is told behind it in its block.
fn count_before(
    instruction: &Instr,
    tally: Tally,
    told: u64,
    blocks: &mut Items<ToldBehind>,
) -> Result<u64, AllocError>
    ensures { CountsOn tally instruction.now told blocks.old blocks.new result }
{
    match instruction {
        Instr::Do(_) => Ok(told),
        Instr::Send(peer, registers) => Ok(plus(size(tally, *peer, registers.as_slice()), told)),
        Instr::Recv(_, _) => Ok(told),
        Instr::End => {
            blocks.push(ToldBehind::End(told))?;
            Ok(0)
        }
        Instr::Else => {
            let rest = pop_end(blocks);
            blocks.push(ToldBehind::Else(told, rest))?;
            Ok(0)
        }
        Instr::If(_) => Ok(pop_branch(tally.bound, blocks, told)),
        Instr::For(_, count) => {
            let rest = pop_end(blocks);
            Ok(plus(times(u64::from(*count), told), rest))
        }
    }
}

/// How much a code tells a host: of a branch what one of its parts tells, the one that tells less or more; of a loop what its body tells
/// in each turn. The text is read from its end to its front, so that what a block tells is known where it opens.
pub fn count_told(alloc: Global, code: &[Instr], tally: Tally) -> Result<u64, AllocError>
    requires { IsTold code.now }
    ensures counts { IfOk result (λ count. (c : Code) → IsCodeOf code.now c → count ≡ told tally c) }
    ensures light { IfOk result (λ count. count < 1099511627776) }
{
    let mut told = 0;
    let mut blocks = Items::new(alloc);
    let mut left = code.len();
    'instructions: while left > 0 {
        left -= 1;
        told = count_before(&code[left], tally, told, &mut blocks)?;
    }
    Ok(told)
}
