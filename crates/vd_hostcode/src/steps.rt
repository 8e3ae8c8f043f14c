//! How many steps a host's program has at most, by its text.

ghost use Rattle.std.specs.Prelude.{◌≡◌, ℕ, ◌+◌, ◌*◌, List, [], ◌∷◌, ◌++◌, IfOk};
ghost use Rattle.vd_execution.specs.Code.{Code};
ghost use Rattle.vd_execution.specs.Text.{IsCodeOf};
ghost use Rattle.vd_hostcode.specs.Ranges.{static_steps};
ghost use Rattle.vd_hostcode.specs.Counts.{capped, CountsOn};

use crate::blocks::Behind;
use std::alloc::{AllocError, Global};
use vd_base::Items;
use vd_execution::Instr;

/// One more than the most static steps of a program. No count goes further.
const TOO_MANY: u64 = 4_294_967_296;

/// A sum that goes no further than `TOO_MANY`.
fn plus(a: u64, b: u64) -> u64
    ensures { result ≡ capped (a + b) }
{
    a.saturating_add(b).min(TOO_MANY)
}

/// A product that goes no further than `TOO_MANY`.
fn times(a: u64, b: u64) -> u64
    ensures { result ≡ capped (a * b) }
{
    a.saturating_mul(b).min(TOO_MANY)
}

/// Leaves a block whose end was read. Tells the steps of what stands behind it.
fn pop_end(blocks: &mut Items<Behind>) -> u64
    ensures { (outer : List Behind) (rest : ℕ) → blocks.old ≡ outer ++ Behind.End rest ∷ [] → (result ≡ rest) × (blocks.new ≡ outer) }
{
    match blocks.pop() {
        Some(Behind::End(rest)) => rest,
        _ => 0,
    }
}

/// Leaves a branch whose `else` was read. Tells the steps of its other part and of what stands behind it, together.
fn pop_else(blocks: &mut Items<Behind>) -> u64
    ensures { (outer : List Behind) (rest : ℕ) → blocks.old ≡ outer ++ Behind.Else rest ∷ [] → (result ≡ rest) × (blocks.new ≡ outer) }
{
    match blocks.pop() {
        Some(Behind::Else(rest)) => rest,
        _ => 0,
    }
}

/// The steps from an instruction on, where so many are behind it in its block.
fn count_before(
    instruction: &Instr,
    steps: u64,
    blocks: &mut Items<Behind>,
) -> Result<u64, AllocError>
    ensures { CountsOn instruction.now steps blocks.old blocks.new result }
{
    match instruction {
        Instr::Do(_) => Ok(plus(1, steps)),
        Instr::Send(_, _) => Ok(plus(1, steps)),
        Instr::Recv(_, _) => Ok(plus(1, steps)),
        Instr::End => {
            blocks.push(Behind::End(steps))?;
            Ok(0)
        }
        Instr::Else => {
            let rest = pop_end(blocks);
            blocks.push(Behind::Else(plus(steps, rest)))?;
            Ok(0)
        }
        Instr::If(_) => {
            let rest = pop_else(blocks);
            Ok(plus(1, plus(steps, rest)))
        }
        Instr::For(_, count) => {
            let rest = pop_end(blocks);
            let turns = times(u64::from(*count), plus(1, steps));
            Ok(plus(turns, plus(1, rest)))
        }
    }
}

/// The static steps of a well-nested code, or `TOO_MANY` where they would be more. The text is read from its end to its front,
/// so that the steps of a block are known where it opens.
pub(crate) fn count_steps(alloc: Global, code: &[Instr]) -> Result<u64, AllocError>
    requires { (nested : Code) × IsCodeOf code.now nested }
    ensures { (nested : Code) → IsCodeOf code.now nested → IfOk result (λ steps. steps ≡ capped (static_steps nested)) }
{
    let mut steps = 0;
    let mut blocks = Items::new(alloc);
    let mut left = code.len();
    'instructions: while left > 0 {
        left -= 1;
        steps = count_before(&code[left], steps, &mut blocks)?;
    }
    Ok(steps)
}
