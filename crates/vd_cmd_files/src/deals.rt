//! The deals of a command.

ghost use Rattle.std.specs.Prelude.{◌≡◌, ◌<◌, ◌≤◌, length, IfOk};
ghost use Rattle.vd_base.specs.Limits.{most_hosts};
ghost use Rattle.vd_cmd_plan.specs.Held.{Finds};
ghost use Rattle.vd_cmd_plan.specs.Plans.{Checks};
ghost use Rattle.vd_tape.specs.Text.{AreDealsOf, IsDealOf};
ghost use Rattle.vd_deal_versions.specs.Plain.{IsDealIn};
ghost use Rattle.vd_cmd_files.specs.Deals.{HoldDeals, HoldsDeal, LoadsDeal, LoadsDeals, deal_of};
ghost use Rattle.vd_cmd_files.specs.Outcomes.{ReplayOutcomes};

use std::alloc::Global;
use vd_base::limits::DEAL_BYTES;
use vd_base::{FileFault, HostId, Items, Name};
use vd_cmd_plan::{Status, file_name, load};
use vd_deal_versions::read_plain_deal;
use vd_outside::Files;
use vd_tape::{Deal, Deals};

/// The deal of a host among so many, or why there is none.
fn deal_in(alloc: Global, bytes: &[u8], hosts: u8, number: u8, name: &Name) -> Result<Deal, Status>
    requires few { hosts ≤ most_hosts }
    requires declared { number < hosts }
    ensures reads { (outcomes : ReplayOutcomes) → Checks (deal_of outcomes hosts number name.now bytes.now) result }
    ensures deal { IfOk result (IsDealOf hosts number) }
    ensures given { IfOk result (IsDealIn hosts number bytes.now) }
{
    match read_plain_deal(alloc, bytes, hosts, HostId(number)) {
        Ok(deal) => Ok(deal),
        Err(FileFault::Text(offset)) => {
            let name = Name::from_slice(alloc, name.as_slice())?;
            Err(Status::DealText(name, number, offset))
        }
        Err(FileFault::Memory) => Err(Status::Memory),
    }
}

/// Fetches the deal of a host among so many, and reads it.
fn load_deal<F: Files>(
    alloc: Global,
    files: &mut F,
    prefix: &str,
    hosts: u8,
    number: u8,
    name: &Name,
) -> Result<Deal, Status>
    requires few { hosts ≤ most_hosts }
    requires declared { number < hosts }
    ensures loads { LoadsDeal prefix.now hosts number name.now (F.view files.old) (F.view files.new) result }
    ensures deal { IfOk result (IsDealOf hosts number) }
    ensures given { Finds (F.view files.old) result (HoldsDeal prefix.now hosts number) }
{
    let file = file_name(alloc, prefix, usize::from(number), ".deal")?;
    let bytes = load(alloc, files, file.as_str(), DEAL_BYTES)?;
    deal_in(alloc, bytes.as_slice(), hosts, number, name)
}

/// Fetches the deals of all hosts, in order, and reads them.
pub fn load_deals<F: Files>(
    alloc: Global,
    files: &mut F,
    prefix: &str,
    names: &[Name],
) -> Result<Deals, Status>
    requires { length names.now ≤ most_hosts }
    ensures loads { LoadsDeals prefix.now names.now (F.view files.old) (F.view files.new) result }
    ensures deals { IfOk result (AreDealsOf (length names.now)) }
    ensures all { IfOk result (λ deals. length deals ≡ length names.now) }
    ensures given { Finds (F.view files.old) result (HoldDeals prefix.now (length names.now)) }
{
    let hosts = names.len() as u8;
    let mut deals = Items::new(alloc);
    for (number, name) in names.iter().enumerate() {
        let deal = load_deal(alloc, files, prefix, hosts, number as u8, name)?;
        deals.push(deal)?;
    }
    Ok(deals)
}
