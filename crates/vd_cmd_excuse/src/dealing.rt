//! The deals of all hosts, with what each host knows of its dealing besides.

ghost use Rattle.std.specs.Prelude.{◌≡◌, ◌<◌, ◌≤◌, ◌++◌, ◌∷◌, [], length, IfOk, OnOk};
ghost use Rattle.vd_base.specs.Limits.{most_hosts};
ghost use Rattle.vd_cmd_plan.specs.Held.{Finds};
ghost use Rattle.vd_cmd_plan.specs.Plans.{Checks, ExecutesStep};
ghost use Rattle.vd_tape.specs.Text.{AreDealsOf, IsDealOf};
ghost use Rattle.vd_deal_versions.specs.Text.{IsDealtFile};
ghost use Rattle.vd_cmd_excuse.specs.Dealing.{HoldDealing, HoldsDealt, dealing_then, dealt_of, dealt_then};

use std::alloc::{AllocError, Global};
use vd_base::limits::DEAL_BYTES;
use vd_base::{FileFault, HostId, Items, Name};
use vd_channel_crypto::Secrets;
use vd_cmd_plan::{Status, file_name, load};
use vd_deal_versions::{Dealt, read_dealt};
use vd_outside::Files;
use vd_tape::Deals;

/// The deals of hosts in order, and for each host what its file says of the dealing besides: in version 1 that is nothing.
#[derive(Drop)]
pub(crate) struct Dealing {
    pub deals: Deals,
    pub secrets: Items<Option<Secrets>>,
}

/// What the file of a host among so many says, or why it says nothing.
fn dealt_in(
    alloc: Global,
    bytes: &[u8],
    hosts: u8,
    number: u8,
    name: &Name,
) -> Result<Dealt, Status>
    requires few { hosts ≤ most_hosts }
    requires declared { number < hosts }
    ensures reads { Checks (dealt_of hosts number name.now bytes.now) result }
    ensures deal { IfOk result (λ dealt. IsDealOf hosts number dealt.deal) }
    ensures given { IfOk result (IsDealtFile hosts number bytes.now) }
{
    match read_dealt(alloc, bytes, hosts, HostId(number)) {
        Ok(dealt) => Ok(dealt),
        Err(FileFault::Text(offset)) => {
            let name = Name::from_slice(alloc, name.as_slice())?;
            Err(Status::DealText(name, number, offset))
        }
        Err(FileFault::Memory) => Err(Status::Memory),
    }
}

/// Fetches the file of a host among so many, and reads it.
fn load_dealt<F: Files>(
    alloc: Global,
    files: &mut F,
    prefix: &str,
    hosts: u8,
    number: u8,
    name: &Name,
) -> Result<Dealt, Status>
    requires few { hosts ≤ most_hosts }
    requires declared { number < hosts }
    ensures loads { ExecutesStep (dealt_then prefix.now hosts number name.now) (F.view files.old) (F.view files.new) result }
    ensures deal { IfOk result (λ dealt. IsDealOf hosts number dealt.deal) }
    ensures given { Finds (F.view files.old) result (HoldsDealt prefix.now hosts number) }
{
    let file = file_name(alloc, prefix, usize::from(number), ".deal")?;
    let bytes = load(alloc, files, file.as_str(), DEAL_BYTES)?;
    dealt_in(alloc, bytes.as_slice(), hosts, number, name)
}

/// Puts what the file of one more host says behind the others.
fn push_dealt(dealing: &mut Dealing, dealt: Dealt) -> Result<(), AllocError>
    ensures deals { OnOk result (dealing.new.deals ≡ dealing.old.deals ++ dealt.deal ∷ []) }
    ensures secrets { OnOk result (dealing.new.secrets ≡ dealing.old.secrets ++ dealt.secrets ∷ []) }
{
    let Dealt { deal, secrets } = dealt;
    dealing.deals.push(deal)?;
    dealing.secrets.push(secrets)
}

/// Fetches the files of all hosts, in order, and reads them.
pub(crate) fn load_dealing<F: Files>(
    alloc: Global,
    files: &mut F,
    prefix: &str,
    names: &[Name],
) -> Result<Dealing, Status>
    requires { length names.now ≤ most_hosts }
    ensures loads { ExecutesStep (dealing_then prefix.now names.now) (F.view files.old) (F.view files.new) result }
    ensures deals { IfOk result (λ dealing. AreDealsOf (length names.now) dealing.deals) }
    ensures all { IfOk result (λ dealing. length dealing.deals ≡ length names.now) }
    ensures known { IfOk result (λ dealing. length dealing.secrets ≡ length names.now) }
    ensures given { Finds (F.view files.old) result (HoldDealing prefix.now (length names.now)) }
{
    let hosts = names.len() as u8;
    let mut dealing = Dealing {
        deals: Items::new(alloc),
        secrets: Items::new(alloc),
    };
    for (number, name) in names.iter().enumerate() {
        let dealt = load_dealt(alloc, files, prefix, hosts, number as u8, name)?;
        push_dealt(&mut dealing, dealt)?;
    }
    Ok(dealing)
}
