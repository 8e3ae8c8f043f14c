//! The report of a world.

ghost use Rattle.std.specs.Prelude.{◌≡◌, ◌≤◌, length, IfOk};
ghost use Rattle.vd_base.specs.Limits.{most_hosts};
ghost use Rattle.vd_world.specs.Hosts.{supply_of, world_of};
ghost use Rattle.vd_world.specs.Reports.{lines_of, links_of, report_of, said_by, talk_of};

use crate::World;
use std::alloc::{AllocError, Global};
use vd_base::{Bytes, HostId, Items, Names, Words};
use vd_report::{HostLine, HostLines, Talk, hosts_text, talk_text};

/// How each of the first hosts stands, and what it printed.
fn lines(alloc: Global, world: &World, hosts: u8) -> Result<HostLines, AllocError>
    ensures { IfOk result (λ lines. lines ≡ lines_of (supply_of world.now) (world_of world.now) hosts) }
{
    let mut lines = Items::new(alloc);
    for number in 0..hosts {
        let host = HostId(number);
        let printed = Words::from_slice(alloc, world.printed(host))?;
        lines.push(HostLine {
            state: world.state(host),
            printed,
        })?;
    }
    Ok(lines)
}

/// All words that a host sent to each of the first hosts.
fn said(alloc: Global, world: &World, hosts: u8, from: u8) -> Result<Items<Words>, AllocError>
    ensures { IfOk result (λ said. said ≡ said_by (world_of world.now) hosts from) }
{
    let mut said = Items::new(alloc);
    for to in 0..hosts {
        said.push(Words::from_slice(alloc, world.talk(HostId(from), HostId(to)))?)?;
    }
    Ok(said)
}

/// All words that each of the first hosts sent to each of them.
fn talk(alloc: Global, world: &World, hosts: u8) -> Result<Talk, AllocError>
    ensures { IfOk result (λ talk. talk ≡ talk_of (world_of world.now) hosts) }
{
    let mut talk = Items::new(alloc);
    for from in 0..hosts {
        talk.push(said(alloc, world, hosts, from)?)?;
    }
    Ok(talk)
}

/// A line for each link, where they are asked for.
fn links(alloc: Global, names: &Names, world: &World, messages: bool) -> Result<Bytes, AllocError>
    requires { length names.now ≤ most_hosts }
    ensures { IfOk result (λ text. text ≡ links_of names.now (world_of world.now) messages) }
{
    if !messages {
        return Ok(Bytes::new(alloc));
    }
    let talk = talk(alloc, world, names.as_slice().len() as u8)?;
    talk_text(alloc, names, &talk)
}

/// The report of a world: a line for each host, and with `messages` a line for each link.
pub fn report(
    alloc: Global,
    names: &Names,
    world: &World,
    messages: bool,
) -> Result<Bytes, AllocError>
    requires { length names.now ≤ most_hosts }
    ensures { IfOk result (λ text. text ≡ report_of names.now (supply_of world.now) (world_of world.now) messages) }
{
    let lines = lines(alloc, world, names.as_slice().len() as u8)?;
    let mut text = hosts_text(alloc, names, &lines)?;
    let links = links(alloc, names, world, messages)?;
    text.extend_from_slice(links.as_slice())?;
    Ok(text)
}
