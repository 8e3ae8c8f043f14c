//! Deals, made, written and read.

ghost use Rattle.std.specs.Prelude.{◌<◌};

use anyhow::{bail, ensure};
use std::alloc::Global;
use vd_base::HostId;
use vd_base::limits::DEAL_ITEMS;
use vd_tape::{Counts, Deal, make, read_deal, write_deal};

/// Makes the deals of two hosts with so many own words and items of each kind, writes and reads them, and compares. Answers
/// the bytes of both texts.
pub(crate) fn deal(alloc: Global, count: u32) -> anyhow::Result<u64> {
    ensure!(count <= DEAL_ITEMS, "too many items");
    let counts = Counts {
        hosts: 2,
        own: count,
        muls: count,
        ands: count,
        pairs: count,
    };
    let deals = make(alloc, counts, 1)?;
    let [first, second] = deals.as_slice() else {
        bail!("not the deals of two hosts");
    };
    let first = there_and_back(alloc, first, 0)?;
    let second = there_and_back(alloc, second, 1)?;
    Ok(first.saturating_add(second))
}

/// Writes the deal of one of two hosts, reads it and compares. Answers the bytes of its text.
fn there_and_back(alloc: Global, deal: &Deal, me: u8) -> anyhow::Result<u64>
    requires { me < 2 }
{
    let text = write_deal(alloc, deal)?;
    let read = read_deal(alloc, text.as_slice(), 2, HostId(me))?;
    let again = write_deal(alloc, &read)?;
    ensure!(
        again.as_slice() == text.as_slice(),
        "the deal that was read is another"
    );
    Ok(text.as_slice().len() as u64)
}
