//! The lines that tell what hosts take.

ghost use Rattle.std.specs.Prelude.{◌≡◌, ◌++◌, IfOk, OnOk};
ghost use Rattle.vd_report.specs.Lines.{number_field};
ghost use Rattle.vd_cmd_needs.specs.Lines as lines;

use itoa::Buffer;
use std::alloc::{AllocError, Global};
use vd_base::{Bytes, Names};
use vd_deal_needs::{HostNeeds, Shared, greater};
use vd_report::name_of;
use vd_tape::Counts;

/// What is shared where there is no such host.
const NOTHING: Shared = Shared {
    muls: 0,
    ands: 0,
    pairs: 0,
};

/// How much to deal, in one line: the first words of `deal`.
pub(crate) fn sizes_text(alloc: Global, sizes: Counts) -> Result<Bytes, AllocError>
    ensures { IfOk result (λ text. text ≡ lines.sizes_line sizes) }
{
    let mut text = Bytes::new(alloc);
    text.extend_from_slice(Buffer::new().format(u32::from(sizes.hosts)).as_bytes())?;
    push_number(&mut text, sizes.own)?;
    push_number(&mut text, sizes.muls)?;
    push_number(&mut text, sizes.ands)?;
    push_number(&mut text, sizes.pairs)?;
    text.push(b'\n')?;
    Ok(text)
}

/// A line for each host, and then one for each two hosts.
pub(crate) fn each_text(
    alloc: Global,
    names: &Names,
    needs: &[HostNeeds],
) -> Result<Bytes, AllocError>
    ensures { IfOk result (λ text. text ≡ lines.each_lines names.now needs.now) }
{
    let mut text = host_lines(alloc, names, needs)?;
    for first in 0..needs.len() {
        push_pairs(&mut text, names, needs, first)?;
    }
    Ok(text)
}

/// The lines of one host: its own, and those of it with each other host.
pub(crate) fn host_text(
    alloc: Global,
    names: &Names,
    me: usize,
    needs: &HostNeeds,
) -> Result<Bytes, AllocError>
    ensures { IfOk result (λ text. text ≡ lines.own_lines names.now me needs.now) }
{
    let mut text = Bytes::new(alloc);
    push_host(&mut text, name_of(names, me), needs)?;
    for peer in 0..names.as_slice().len() {
        push_peer(&mut text, names, me, peer, shared_at(needs, peer))?;
    }
    Ok(text)
}

/// The lines of the hosts.
fn host_lines(alloc: Global, names: &Names, needs: &[HostNeeds]) -> Result<Bytes, AllocError>
    ensures { IfOk result (λ text. text ≡ lines.host_lines names.now needs.now) }
{
    let mut text = Bytes::new(alloc);
    for (name, host) in names.iter().zip(needs.iter()) {
        push_host(&mut text, name.as_slice(), host)?;
    }
    Ok(text)
}

/// Puts the lines of a host with each later one at the end.
fn push_pairs(
    text: &mut Bytes,
    names: &Names,
    needs: &[HostNeeds],
    first: usize,
) -> Result<(), AllocError>
    ensures { OnOk result (text.new ≡ text.old ++ lines.pairs_from names.now needs.now first) }
{
    for second in 0..needs.len() {
        push_later(text, names, needs, first, second)?;
    }
    Ok(())
}

/// Puts the line of two hosts at the end, if the second is the later one.
fn push_later(
    text: &mut Bytes,
    names: &Names,
    needs: &[HostNeeds],
    first: usize,
    second: usize,
) -> Result<(), AllocError>
    ensures { OnOk result (text.new ≡ text.old ++ lines.later_line names.now needs.now first second) }
{
    if first < second {
        let shared = shared_by(needs, first, second);
        push_pair(text, name_of(names, first), name_of(names, second), shared)?;
    }
    Ok(())
}

/// Puts the line of a host and a peer at the end, the earlier one first. A host has none with itself.
fn push_peer(
    text: &mut Bytes,
    names: &Names,
    me: usize,
    peer: usize,
    shared: Shared,
) -> Result<(), AllocError>
    ensures { OnOk result (text.new ≡ text.old ++ lines.peer_line names.now me peer shared) }
{
    if me < peer {
        push_pair(text, name_of(names, me), name_of(names, peer), shared)?;
    } else if peer < me {
        push_pair(text, name_of(names, peer), name_of(names, me), shared)?;
    }
    Ok(())
}

/// What a host shares with a peer.
fn shared_at(host: &HostNeeds, peer: usize) -> Shared
    ensures { result ≡ lines.shared_at host.now peer }
{
    match host.shared.as_slice().get(peer) {
        Some(shared) => *shared,
        None => NOTHING,
    }
}

/// What the host with this number shares with a peer.
fn shared_of(needs: &[HostNeeds], host: usize, peer: usize) -> Shared
    ensures { result ≡ lines.shared_of needs.now host peer }
{
    match needs.get(host) {
        Some(host) => shared_at(host, peer),
        None => NOTHING,
    }
}

/// What two hosts share: as much as the one that takes more.
fn shared_by(needs: &[HostNeeds], first: usize, second: usize) -> Shared
    ensures { result ≡ lines.shared_by needs.now first second }
{
    greater(
        shared_of(needs, first, second),
        shared_of(needs, second, first),
    )
}

/// Puts the line of a host at the end.
fn push_host(text: &mut Bytes, name: &[u8], needs: &HostNeeds) -> Result<(), AllocError>
    ensures { OnOk result (text.new ≡ text.old ++ lines.host_line name.now needs.now) }
{
    text.extend_from_slice(name)?;
    text.extend_from_slice(b" inputs")?;
    push_number(text, needs.inputs)?;
    text.extend_from_slice(b" own")?;
    push_number(text, needs.own)?;
    text.push(b'\n')
}

/// Puts the line of two hosts at the end.
fn push_pair(
    text: &mut Bytes,
    first: &[u8],
    second: &[u8],
    shared: Shared,
) -> Result<(), AllocError>
    ensures { OnOk result (text.new ≡ text.old ++ lines.pair_line first.now second.now shared) }
{
    text.extend_from_slice(first)?;
    text.push(b' ')?;
    text.extend_from_slice(second)?;
    push_shared(text, shared)?;
    text.push(b'\n')
}

/// Puts the numbers of what two hosts share at the end.
fn push_shared(text: &mut Bytes, shared: Shared) -> Result<(), AllocError>
    ensures { OnOk result (text.new ≡ text.old ++ lines.shared_fields shared) }
{
    text.extend_from_slice(b" mul")?;
    push_number(text, shared.muls)?;
    text.extend_from_slice(b" and")?;
    push_number(text, shared.ands)?;
    text.extend_from_slice(b" pair")?;
    push_number(text, shared.pairs)
}

/// Puts a number at the end, behind a space.
fn push_number(text: &mut Bytes, number: u32) -> Result<(), AllocError>
    ensures { OnOk result (text.new ≡ text.old ++ number_field number) }
{
    text.push(b' ')?;
    text.extend_from_slice(Buffer::new().format(number).as_bytes())
}
