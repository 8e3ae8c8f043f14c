//! What the command stores and prints.

ghost use Rattle.std.specs.Prelude.{◌≡◌, ◌<◌, ◌-◌, IfOk};
ghost use Rattle.vd_projection.specs.Programs.{CanRunAt};
ghost use Rattle.vd_cmd_plan.specs.Plans.{ended};
ghost use Rattle.vd_excuse.specs.Talk.{IsPlayable, talk};
ghost use Rattle.vd_cmd_excuse.specs.Excusing.{excused_files, excused_text, talk_line};

use std::alloc::{AllocError, Global};
use vd_base::{Bytes, HostId, Inputs, Items, Names, Proto};
use vd_channel_crypto::Secrets;
use vd_cmd_plan::{Answer, Status, file_name};
use vd_core::Program;
use vd_deal_versions::write_secret;
use vd_excuse::talk;
use vd_outside::Stored;
use vd_report::{name_of, push_words_line};
use vd_tape::{Deal, Deals, write_deal};

/// The line of the link to one of two hosts, with the words that came on it.
fn line_text(alloc: Global, names: &Names, host: HostId, words: &[u32]) -> Result<Bytes, AllocError>
    requires { host.0 < 2 }
    ensures { IfOk result (λ text. text ≡ talk_line names.now host words.now) }
{
    let mut head = Bytes::from_slice(alloc, name_of(names, usize::from(1 - host.0)))?;
    head.push(b'>')?;
    head.extend_from_slice(name_of(names, usize::from(host.0)))?;
    let mut text = Bytes::new(alloc);
    push_words_line(&mut text, head.as_slice(), words)?;
    Ok(text)
}

/// What the other host sends to one of two hosts in the joint run on these inputs and deals, as a line.
fn said_text(
    alloc: Global,
    program: &Program,
    protocols: &[Proto],
    host: HostId,
    inputs: &Inputs,
    deals: Deals,
) -> Result<Bytes, AllocError>
    requires host { host.0 < 2 }
    requires runnable { CanRunAt program.now protocols.now }
    requires playable { IsPlayable program.now protocols.now inputs.now deals }
    ensures { IfOk result (λ text. text ≡
        talk_line program.now.hosts host (talk program.now protocols.now inputs.now deals (1 - host.0) host.0)) }
{
    let words = talk(
        alloc,
        program,
        protocols,
        inputs,
        deals,
        HostId(1 - host.0),
        host,
    )?;
    line_text(alloc, &program.form().hosts, host, words.as_slice())
}

/// The text of a host's file, of the version of the one that was read for it.
fn excused_text(
    alloc: Global,
    secrets: &Items<Option<Secrets>>,
    deal: &Deal,
) -> Result<Bytes, AllocError>
    ensures { IfOk result (λ text. text ≡ excused_text secrets.now deal.now) }
{
    match secrets.as_slice().get(usize::from(deal.me.0)) {
        Some(known) => match known {
            Some(secrets) => write_secret(alloc, deal, secrets),
            None => write_deal(alloc, deal),
        },
        None => write_deal(alloc, deal),
    }
}

/// The files of deals, `OUT.i.deal` for each host i, each of the version of the one that was read for that host.
fn files_of(
    alloc: Global,
    out: &str,
    secrets: &Items<Option<Secrets>>,
    deals: &[Deal],
) -> Result<Items<Stored>, AllocError>
    ensures { IfOk result (λ files. files ≡ excused_files out.now secrets.now deals.now) }
{
    let mut files = Items::new(alloc);
    for (number, deal) in deals.iter().enumerate() {
        let name = file_name(alloc, out, number, ".deal")?;
        let content = excused_text(alloc, secrets, deal)?;
        files.push(Stored { name, content })?;
    }
    Ok(files)
}

/// The answer that stores these deals, with what their hosts know besides, and prints what the other host sends to this one.
pub(crate) fn answer(
    alloc: Global,
    program: &Program,
    protocols: &[Proto],
    host: HostId,
    inputs: &Inputs,
    deals: Deals,
    secrets: &Items<Option<Secrets>>,
    stored: &[Deal],
    out: &str,
) -> Result<Answer, AllocError>
    requires host { host.0 < 2 }
    requires runnable { CanRunAt program.now protocols.now }
    requires playable { IsPlayable program.now protocols.now inputs.now deals }
    ensures { IfOk result (λ answer. answer ≡ ended (excused_files out.now secrets.now stored.now)
        (talk_line program.now.hosts host (talk program.now protocols.now inputs.now deals (1 - host.0) host.0))) }
{
    let printed = said_text(alloc, program, protocols, host, inputs, deals)?;
    let stores = files_of(alloc, out, secrets, stored)?;
    Ok(Answer {
        status: Status::Ended,
        stores,
        printed,
    })
}
