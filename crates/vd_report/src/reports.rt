//! The report on all hosts: a line for each host, and a line for each link.

ghost use Rattle.std.specs.Prelude.{◌≡◌, ◌++◌, [], slice_index_or, OnOk, IfOk};
ghost use Rattle.vd_report.specs.ReportLines.{host_lines, host_line, state_text, link_line, links_of, link_lines};

use crate::hosts::name_of;
use crate::lines::push_words_line;
use std::alloc::{AllocError, Global};
use vd_base::{Bytes, HostState, Items, Names, Words};

/// How a host stands, and the words that it printed.
#[derive(Drop)]
pub struct HostLine {
    pub state: HostState,
    pub printed: Words,
}

/// For each host in order, its line of the report.
pub type HostLines = Items<HostLine>;

/// For each host in order, and for each host in order to which it may send, all words that it sent.
pub type Talk = Items<Items<Words>>;

/// One line for each host: its name, how it stands, how many words it printed, and the words.
pub fn hosts_text(alloc: Global, hosts: &Names, lines: &HostLines) -> Result<Bytes, AllocError>
    ensures { IfOk result (λ text. text ≡ host_lines hosts.now hosts.now lines.now) }
{
    let mut text = Bytes::new(alloc);
    for (host, line) in hosts.iter().zip(lines.iter()) {
        push_host_line(alloc, &mut text, hosts, host.as_slice(), line)?;
    }
    Ok(text)
}

fn push_host_line(
    alloc: Global,
    text: &mut Bytes,
    hosts: &Names,
    host: &[u8],
    line: &HostLine,
) -> Result<(), AllocError>
    ensures { OnOk result (text.new ≡ text.old ++ host_line hosts.now host.now line.now) }
{
    let mut head = Bytes::from_slice(alloc, host)?;
    head.push(b' ')?;
    push_state(&mut head, hosts, line.state)?;
    push_words_line(text, head.as_slice(), line.printed.as_slice())
}

fn push_state(text: &mut Bytes, hosts: &Names, state: HostState) -> Result<(), AllocError>
    ensures { OnOk result (text.new ≡ text.old ++ state_text hosts.now state) }
{
    match state {
        HostState::Ended => text.extend_from_slice(b"ended"),
        HostState::Ready => text.extend_from_slice(b"ready"),
        HostState::ShortInput => text.extend_from_slice(b"short input"),
        HostState::ShortDeal => text.extend_from_slice(b"short deal"),
        HostState::Waiting(peer) => {
            text.extend_from_slice(b"waiting ")?;
            text.extend_from_slice(name_of(hosts, peer.0 as usize))
        }
    }
}

/// One line for each ordered pair of different hosts, by sender and then by receiver: their names, how many words the first
/// sent to the second, and the words.
pub fn talk_text(alloc: Global, hosts: &Names, talk: &Talk) -> Result<Bytes, AllocError>
    ensures { IfOk result (λ text. text ≡ link_lines hosts.now talk.now) }
{
    let mut text = Bytes::new(alloc);
    let count = hosts.as_slice().len();
    let mut from = 0;
    while from < count {
        push_links_of(alloc, &mut text, hosts, talk, from)?;
        from += 1;
    }
    Ok(text)
}

/// The lines of one sender.
fn push_links_of(
    alloc: Global,
    text: &mut Bytes,
    hosts: &Names,
    talk: &Talk,
    from: usize,
) -> Result<(), AllocError>
    ensures { OnOk result (text.new ≡ text.old ++ links_of hosts.now talk.now from) }
{
    let count = hosts.as_slice().len();
    let mut to = 0;
    while to < count {
        push_link(alloc, text, hosts, talk, from, to)?;
        to += 1;
    }
    Ok(())
}

fn push_link(
    alloc: Global,
    text: &mut Bytes,
    hosts: &Names,
    talk: &Talk,
    from: usize,
    to: usize,
) -> Result<(), AllocError>
    ensures { OnOk result (text.new ≡ text.old ++ link_line hosts.now talk.now from to) }
{
    if from == to {
        return Ok(());
    }
    let mut head = Bytes::from_slice(alloc, name_of(hosts, from))?;
    head.push(b'>')?;
    head.extend_from_slice(name_of(hosts, to))?;
    push_words_line(text, head.as_slice(), said(talk, from, to))
}

/// What one host sent to another.
fn said(talk: &Talk, from: usize, to: usize) -> &[u32]
    ensures { result.now ≡ slice_index_or (slice_index_or talk.now from []) to [] }
{
    match talk.as_slice().get(from) {
        Some(row) => match row.as_slice().get(to) {
            Some(words) => words.as_slice(),
            None => &[],
        },
        None => &[],
    }
}
