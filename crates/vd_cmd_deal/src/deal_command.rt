//! The command `deal`.

ghost use Rattle.std.specs.Prelude.{◌≡◌, IfOk};
ghost use Rattle.vd_cmd_plan.specs.Plans.{Computes};
ghost use Rattle.vd_tape.specs.Made.{AreCounts};
ghost use Rattle.vd_cmd_deal.specs.Dealing.{deal_files, deal_answer};

use std::alloc::{AllocError, Global};
use vd_base::{Bytes, Items};
use vd_cmd_plan::{Answer, Status, file_name};
use vd_outside::Stored;
use vd_tape::{Counts, Deal, make, write_deal};

/// The files of deals: `PREFIX.i.deal` for each host i.
fn files_of(alloc: Global, prefix: &str, deals: &[Deal]) -> Result<Items<Stored>, AllocError>
    ensures { IfOk result (λ files. files ≡ deal_files prefix.now deals.now) }
{
    let mut files = Items::new(alloc);
    for (number, deal) in deals.iter().enumerate() {
        let name = file_name(alloc, prefix, number, ".deal")?;
        let content = write_deal(alloc, deal)?;
        files.push(Stored { name, content })?;
    }
    Ok(files)
}

/// The command `deal`: makes a deal, and stores the part of each host.
pub fn deal(alloc: Global, counts: Counts, key: u64, prefix: &str) -> Result<Answer, Status>
    requires { AreCounts counts }
    ensures { Computes (deal_answer counts key prefix.now) result }
{
    let deals = make(alloc, counts, key)?;
    let stores = files_of(alloc, prefix, deals.as_slice())?;
    Ok(Answer {
        status: Status::Ended,
        stores,
        printed: Bytes::new(alloc),
    })
}
