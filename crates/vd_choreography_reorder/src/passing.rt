//! The pass over the lines of joint code: a stable sort by rank. Then the code of each host is hastened.

ghost use Rattle.std.specs.Prelude.{◌≡◌, [], IfOk, OnOk};
ghost use Rattle.vd_execution.specs.Joint.{Joint, IsTidy};
ghost use Rattle.vd_execution.specs.Text.{flat};
ghost use Rattle.vd_reorder.specs.Passing.{hastened_by};
ghost use Rattle.vd_choreography_reorder.specs.Order.{IsBroughtForward};
ghost use Rattle.vd_choreography_reorder.specs.Sorting.{early_order, in_order};
ghost use Rattle.vd_choreography_reorder.specs.Testing.{opened_at};

use crate::ranks::{Ranked, lines_of, opened_by, rank_lines};
use std::alloc::{AllocError, Global};
use vd_base::{HostId, Items};
use vd_execution::{Instr, Line, Reg};
use vd_reorder::hasten_code;

/// Sorts lines by rank. What ranks alike stays in its order.
fn sort_by_rank(alloc: Global, list: &mut [Ranked]) -> Result<(), AllocError>
    ensures { OnOk result (list.new ≡ in_order list.old) }
{
    list.sort_by_key(alloc, |line| line.rank)
}

/// The lines in an order that waits less.
fn arrange(
    alloc: Global,
    lines: Items<Line>,
    opened: &[Items<Reg>],
) -> Result<Items<Line>, AllocError>
    ensures { IfOk result (λ new. new ≡ early_order (opened_at opened.now) lines) }
{
    let ranked = rank_lines(alloc, lines, opened)?;
    let mut list = ranked.into_vec();
    sort_by_rank(alloc, list.as_mut_slice())?;
    lines_of(alloc, Items::from_vec(list))
}

/// Joint code in an order that waits less, where each host's packets open some registers (`opened`, by host): sorted by depth, the longest
/// chain of rounds that a line waits for. No line goes before one that it may not pass. What a host compares, prints and opens stays behind
/// all that it compared, printed, opened and awaited before.
pub fn bring_forward(
    alloc: Global,
    lines: Items<Line>,
    opened: &[Items<Reg>],
) -> Result<Items<Line>, AllocError>
    ensures order { IfOk result (λ new. new ≡ early_order (opened_at opened.now) lines) }
    ensures code { IfOk result (λ new. (j : Joint) → IsTidy j → lines ≡ flat j [] → IsBroughtForward (opened_at opened.now) j new) }
{
    arrange(alloc, lines, opened)
}

/// The code of a host of such lines, hastened: each packet that opens nothing goes as far ahead as what it needs allows, and before what the
/// host awaits in its round.
pub fn early_code(code: Items<Instr>, opened: &[Items<Reg>], host: HostId) -> Items<Instr>
    ensures { result ≡ hastened_by (opened_at opened.now host.0) code }
{
    hasten_code(code, opened_by(opened, host))
}
