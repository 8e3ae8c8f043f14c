//! The lines that tell what a run costs: what goes from each host to each other one.

ghost use Rattle.std.specs.Prelude.{◌≡◌, ◌<◌, ◌≤◌, ◌++◌, All, IfOk, OnOk, length};
ghost use Rattle.vd_base.specs.Limits.{most_hosts};
ghost use Rattle.vd_deal_needs.specs.Counted.{code_in};
ghost use Rattle.vd_rounds.specs.Loads.{IsLight, traffic_of};
ghost use Rattle.vd_rounds.specs.Tallies.{IsTold};
ghost use Rattle.vd_cmd_needs.specs.RoundsLines as lines;

use itoa::Buffer;
use std::alloc::{AllocError, Global};
use vd_base::{Bytes, HostId, Items, Names};
use vd_execution::Instr;
use vd_report::name_of;
use vd_rounds::{Traffic, plain_bytes, sealed_bytes, traffic_to};

/// Puts the least of two counts at the end, if they differ.
fn push_least(text: &mut Bytes, least: u64, most: u64) -> Result<(), AllocError>
    ensures { OnOk result (text.new ≡ text.old ++ lines.least_part least most) }
{
    if least != most {
        text.extend_from_slice(Buffer::new().format(least).as_bytes())?;
        text.extend_from_slice(b"..")?;
    }
    Ok(())
}

/// Puts a word and a count at the end: one number, or where a run may have less or more, the least and the greatest.
fn push_range(text: &mut Bytes, word: &[u8], least: u64, most: u64) -> Result<(), AllocError>
    ensures { OnOk result (text.new ≡ text.old ++ lines.range_field word.now least most) }
{
    text.extend_from_slice(word)?;
    text.push(b' ')?;
    push_least(text, least, most)?;
    text.extend_from_slice(Buffer::new().format(most).as_bytes())
}

/// Puts the counts of a link at the end.
fn push_traffic(text: &mut Bytes, traffic: Traffic) -> Result<(), AllocError>
    requires least { IsLight traffic.least }
    requires most { IsLight traffic.most }
    ensures { OnOk result (text.new ≡ text.old ++ lines.traffic_fields traffic) }
{
    let least = traffic.least;
    let most = traffic.most;
    push_range(text, b" packets", least.packets, most.packets)?;
    push_range(text, b" words", least.words, most.words)?;
    push_range(text, b" bytes", plain_bytes(least), plain_bytes(most))?;
    push_range(text, b" sealed", sealed_bytes(least), sealed_bytes(most))
}

/// Puts the line of a link at the end.
fn push_line(text: &mut Bytes, from: &[u8], to: &[u8], traffic: Traffic) -> Result<(), AllocError>
    requires least { IsLight traffic.least }
    requires most { IsLight traffic.most }
    ensures { OnOk result (text.new ≡ text.old ++ lines.link_line from.now to.now traffic) }
{
    text.extend_from_slice(from)?;
    text.push(b'>')?;
    text.extend_from_slice(to)?;
    push_traffic(text, traffic)?;
    text.push(b'\n')
}

/// What a code tells a host, at least and at most.
fn traffic_at(alloc: Global, code: &[Instr], peer: HostId) -> Result<Traffic, AllocError>
    requires { IsTold code.now }
    ensures counts { IfOk result (λ traffic. traffic ≡ traffic_of peer (code_in code.now)) }
    ensures light_least { IfOk result (λ traffic. IsLight traffic.least) }
    ensures light_most { IfOk result (λ traffic. IsLight traffic.most) }
{
    let traffic = traffic_to(alloc, code, peer)?;
    Ok(traffic)
}

/// Puts the line of what a host with this code tells another at the end. A host tells itself nothing.
fn push_link(
    alloc: Global,
    text: &mut Bytes,
    names: &Names,
    from: usize,
    to: usize,
    code: &[Instr],
) -> Result<(), AllocError>
    requires told { IsTold code.now }
    requires declared { to < most_hosts }
    ensures { OnOk result (text.new ≡ text.old ++ lines.told_line names.now from (code_in code.now) to) }
{
    if from != to {
        let traffic = traffic_at(alloc, code, HostId(to as u8))?;
        push_line(text, name_of(names, from), name_of(names, to), traffic)?;
    }
    Ok(())
}

/// Puts the lines of what a host with this code tells each other one at the end.
fn push_links(
    alloc: Global,
    text: &mut Bytes,
    names: &Names,
    from: usize,
    code: &[Instr],
) -> Result<(), AllocError>
    requires told { IsTold code.now }
    requires few { length names.now ≤ most_hosts }
    ensures { OnOk result (text.new ≡ text.old ++ lines.told_lines names.now from (code_in code.now)) }
{
    for to in 0..names.as_slice().len() {
        push_link(alloc, text, names, from, to, code)?;
    }
    Ok(())
}

/// What a host with this code tells each other one.
pub(crate) fn told_text(
    alloc: Global,
    names: &Names,
    me: usize,
    code: &[Instr],
) -> Result<Bytes, AllocError>
    requires told { IsTold code.now }
    requires few { length names.now ≤ most_hosts }
    ensures { IfOk result (λ text. text ≡ lines.told_lines names.now me (code_in code.now)) }
{
    let mut text = Bytes::new(alloc);
    push_links(alloc, &mut text, names, me, code)?;
    Ok(text)
}

/// What each host tells each other one, where these are the codes of the hosts.
pub(crate) fn rounds_text(
    alloc: Global,
    names: &Names,
    codes: &[Items<Instr>],
) -> Result<Bytes, AllocError>
    requires told { All IsTold codes.now }
    requires few { length names.now ≤ most_hosts }
    ensures { IfOk result (λ text. text ≡ lines.rounds_lines names.now codes.now) }
{
    let mut text = Bytes::new(alloc);
    let mut from = 0;
    'hosts: while from < codes.len() {
        push_links(alloc, &mut text, names, from, codes[from].as_slice())?;
        from += 1;
    }
    Ok(text)
}
