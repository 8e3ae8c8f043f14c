//! The command `deal` for a key that is drawn or read.

ghost use Rattle.std.specs.Prelude.{◌≡◌, ◌<◌, IfOk, map};
ghost use Rattle.vd_cmd_plan.specs.Plans.{Computes};
ghost use Rattle.vd_cmd.specs.Commands.{AreWithin};
ghost use Rattle.vd_cmd_deal.specs.KeyDealing.{key_answer, keyed_deal_text, secret_files};

use std::alloc::{AllocError, Global};
use vd_base::{Bytes, Items};
use vd_channel_crypto::{items_key, secrets_of};
use vd_cmd_plan::{Answer, Status, file_name};
use vd_deal_versions::write_secret;
use vd_outside::Stored;
use vd_tape::{Counts, Deal, make_by_key};

/// The text of a host's file: its deal, the name of the dealing, and the keys of its links.
fn keyed_deal_text(
    alloc: Global,
    counts: Counts,
    key: &[u8; 32],
    deal: &Deal,
) -> Result<Bytes, AllocError>
    requires { 0 < counts.hosts }
    ensures { IfOk result (λ text. text ≡ keyed_deal_text counts key.now deal.now) }
{
    let secrets = secrets_of(alloc, counts, key, deal.me)?;
    write_secret(alloc, deal, &secrets)
}

/// The files of deals: `PREFIX.i.deal` for each host i.
fn files_of(
    alloc: Global,
    counts: Counts,
    key: &[u8; 32],
    prefix: &str,
    deals: &[Deal],
) -> Result<Items<Stored>, AllocError>
    requires { 0 < counts.hosts }
    ensures { IfOk result (λ files. files ≡ secret_files counts key.now prefix.now deals.now) }
{
    let mut files = Items::new(alloc);
    for (number, deal) in deals.iter().enumerate() {
        let name = file_name(alloc, prefix, number, ".deal")?;
        let content = keyed_deal_text(alloc, counts, key, deal)?;
        files.push(Stored { name, content })?;
    }
    Ok(files)
}

/// The command `deal` for a key of 32 bytes: makes a deal of version 2, and stores the part of each host.
pub(crate) fn deal_by_key(
    alloc: Global,
    counts: Counts,
    key: &[u8; 32],
    prefix: &str,
) -> Result<Answer, Status>
    requires { AreWithin counts }
    ensures { Computes (key_answer counts key.now prefix.now) result }
{
    let deals = make_by_key(alloc, counts, &items_key(counts, key))?;
    let stores = files_of(alloc, counts, key, prefix, deals.as_slice())?;
    Ok(Answer {
        status: Status::Ended,
        stores,
        printed: Bytes::new(alloc),
    })
}
