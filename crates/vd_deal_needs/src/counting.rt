//! How many items a host's code takes from a list at most, by its text.

ghost use Rattle.std.specs.Prelude.{◌≡◌, ℕ, ◌+◌, ◌*◌, max, List, [], ◌∷◌, ◌++◌, IfOk};
ghost use Rattle.vd_deal_needs.specs.DealNeedsLawsNeeds.{counts};
ghost use Rattle.vd_deal_needs.specs.Counted.{CountsOn, IsCountable, capped, code_in};
ghost use Rattle.vd_deal_needs.specs.Lists.{source_in};

use crate::blocks::TakenBehind;
use crate::lists::{ItemList, taken_by};
use std::alloc::{AllocError, Global};
use vd_base::Items;
use vd_execution::Instr;

/// One more than any number of items that a code within the ranges can take. No count goes further.
const TOO_MANY: u64 = 4_294_967_296;

/// A sum that goes no further than `TOO_MANY`.
fn plus(a: u64, b: u64) -> u64
    ensures { result ≡ capped (a + b) }
{
    a.saturating_add(b).min(TOO_MANY)
}

/// A product that goes no further than `TOO_MANY`.
fn times(a: u64, b: u64) -> u64
    ensures { result ≡ capped (a * b) }
{
    a.saturating_mul(b).min(TOO_MANY)
}

/// Leaves a block whose end was read. Tells what is taken behind it.
fn pop_end(blocks: &mut Items<TakenBehind>) -> u64
    ensures { (outer : List TakenBehind) (rest : ℕ) → blocks.old ≡ outer ++ TakenBehind.End rest ∷ [] → (result ≡ rest) × (blocks.new ≡ outer) }
{
    match blocks.pop() {
        Some(TakenBehind::End(rest)) => rest,
        _ => 0,
    }
}

/// Leaves a branch whose `else` was read. Tells what is taken by the branch and behind it, where its first part takes so much: in
/// the dearer of its parts, and behind.
fn pop_branch(blocks: &mut Items<TakenBehind>, first: u64) -> u64
    ensures { (outer : List TakenBehind) (other rest : ℕ) → blocks.old ≡ outer ++ TakenBehind.Else other rest ∷ []
        → (result ≡ capped (max first other + rest)) × (blocks.new ≡ outer) }
{
    match blocks.pop() {
        Some(TakenBehind::Else(other, rest)) => plus(first.max(other), rest),
        _ => 0,
    }
}

/// What is taken from an instruction on, where so much is taken behind it in its block.
fn count_before(
    instruction: &Instr,
    list: ItemList,
    taken: u64,
    blocks: &mut Items<TakenBehind>,
) -> Result<u64, AllocError>
    ensures { CountsOn (source_in list) instruction.now taken blocks.old blocks.new result }
{
    match instruction {
        Instr::Do(action) => Ok(plus(taken_by(action, list), taken)),
        Instr::Send(_, _) => Ok(taken),
        Instr::Recv(_, _) => Ok(taken),
        Instr::End => {
            blocks.push(TakenBehind::End(taken))?;
            Ok(0)
        }
        Instr::Else => {
            let rest = pop_end(blocks);
            blocks.push(TakenBehind::Else(taken, rest))?;
            Ok(0)
        }
        Instr::If(_) => Ok(pop_branch(blocks, taken)),
        Instr::For(_, count) => {
            let rest = pop_end(blocks);
            Ok(plus(times(u64::from(*count), taken), rest))
        }
    }
}

/// How many items a code takes from a list at most: of a branch what the dearer of its parts takes, of a loop what its body takes
/// in each turn. The text is read from its end to its front, so that what a block takes is known where it opens.
pub fn count(alloc: Global, code: &[Instr], list: ItemList) -> Result<u32, AllocError>
    requires { IsCountable code.now }
    ensures { IfOk result (λ taken. taken ≡ counts (code_in code.now) (source_in list)) }
{
    let mut taken = 0;
    let mut blocks = Items::new(alloc);
    let mut left = code.len();
    'instructions: while left > 0 {
        left -= 1;
        taken = count_before(&code[left], list, taken, &mut blocks)?;
    }
    Ok(taken as u32)
}
