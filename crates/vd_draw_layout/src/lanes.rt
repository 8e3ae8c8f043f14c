//! The lanes of a drawing: one for each host, and before the later host of two one for each protocol that they share and
//! that is used.

ghost use Rattle.std.specs.Prelude.{◌≡◌, ◌++◌, ◌≤◌, [], ◌∷◌, if◌then◌else◌, filter, IfOk, OnOk};
ghost use Rattle.std.specs.List.{list_any};
ghost use Rattle.vd_base.specs.HostSets.{has_host};
ghost use Rattle.vd_base.specs.Limits.{most_hosts};
ghost use Rattle.vd_draw_layout.specs.Lanes as lanes_spec;

use std::alloc::{AllocError, Global};
use vd_base::{HostId, HostSet, Items, Proto, is_same};
use vd_draw_rows::{Move, Row};
use vd_protocol::protocols;

/// A lane: whose words are drawn there, and where it is.
#[derive(Clone, Copy, PartialEq, Eq)]
pub struct Lane {
    pub at: Proto,
    pub x: u64,
}

/// Whether a word is moved from or to a protocol.
fn move_uses(protocol: Proto, one: &Move) -> bool
    ensures { result ≡ lanes_spec.move_uses protocol one.now }
{
    is_same(protocol, one.from) || is_same(protocol, one.to)
}

/// Whether one of some words is moved from or to a protocol.
fn moves_use(protocol: Proto, moves: &[Move]) -> bool
    ensures { result ≡ list_any (lanes_spec.move_uses protocol) moves.now }
{
    for one in moves {
        if move_uses(protocol, one) {
            return true;
        }
    }
    false
}

/// Whether a row is at a protocol, or moves a word from or to it.
fn row_uses(protocol: Proto, row: &Row) -> bool
    ensures { result ≡ lanes_spec.row_uses protocol row.now }
{
    let is_there = match row.at {
        Some(at) => is_same(protocol, at),
        None => false,
    };
    is_there || moves_use(protocol, row.moves.as_slice())
}

/// Whether one of some rows uses a protocol.
fn is_used(protocol: Proto, rows: &[Row]) -> bool
    ensures { result ≡ list_any (lanes_spec.row_uses protocol) rows.now }
{
    for row in rows {
        if row_uses(protocol, row) {
            return true;
        }
    }
    false
}

/// Whether two hosts share a protocol, and the later of them is this one.
fn ends_at(host: HostId, protocol: Proto) -> bool
    ensures { result ≡ lanes_spec.ends_at host protocol }
{
    match protocol {
        Proto::Local(_) | Proto::Rep(_) => false,
        Proto::Commit(prover, verifier) => prover.0.max(verifier.0) == host.0,
        Proto::Add(_, later) | Proto::Xor(_, later) => later == host,
    }
}

/// Adds a protocol that has a lane before this host.
fn push_shared(
    lanes: &mut Items<Proto>,
    rows: &[Row],
    host: HostId,
    protocol: Proto,
) -> Result<(), AllocError>
    ensures { OnOk result (lanes.new ≡ lanes.old ++ (if lanes_spec.has_lane rows.now host protocol then protocol ∷ [] else [])) }
{
    if ends_at(host, protocol) && is_used(protocol, rows) {
        lanes.push(protocol)?;
    }
    Ok(())
}

/// Adds the protocols that have a lane before this host.
fn push_all_shared(
    lanes: &mut Items<Proto>,
    rows: &[Row],
    host: HostId,
    all: &[Proto],
) -> Result<(), AllocError>
    ensures { OnOk result (lanes.new ≡ lanes.old ++ filter (lanes_spec.has_lane rows.now host) all.now) }
{
    for protocol in all {
        push_shared(lanes, rows, host, *protocol)?;
    }
    Ok(())
}

/// Adds the protocols that have a lane before this host, and its own.
fn push_lanes_to(
    lanes: &mut Items<Proto>,
    rows: &[Row],
    host: HostId,
    all: &[Proto],
) -> Result<(), AllocError>
    ensures { OnOk result (lanes.new ≡ lanes.old ++ lanes_spec.lanes_to rows.now all.now host) }
{
    push_all_shared(lanes, rows, host, all)?;
    lanes.push(Proto::Local(host))
}

/// The protocols that have a lane, of all these.
fn lanes_below(
    alloc: Global,
    rows: &[Row],
    hosts: u8,
    all: &[Proto],
) -> Result<Items<Proto>, AllocError>
    ensures { IfOk result (λ lanes. lanes ≡ lanes_spec.lanes_below rows.now all.now hosts) }
{
    let mut lanes = Items::new(alloc);
    for host in 0..hosts {
        push_lanes_to(&mut lanes, rows, HostId(host), all)?;
    }
    Ok(lanes)
}

/// The protocols that have a lane, from left to right.
pub(crate) fn lane_protocols(
    alloc: Global,
    rows: &[Row],
    hosts: u8,
) -> Result<Items<Proto>, AllocError>
    requires { hosts ≤ most_hosts }
    ensures { IfOk result (λ lanes. lanes ≡ lanes_spec.lane_protocols rows.now hosts) }
{
    let all = protocols(alloc, hosts)?;
    lanes_below(alloc, rows, hosts, all.as_slice())
}

/// Lanes one after another, so far apart.
pub(crate) fn lanes_from(
    alloc: Global,
    first: u64,
    gap: u64,
    protocols: &[Proto],
) -> Result<Items<Lane>, AllocError>
    ensures { IfOk result (λ lanes. lanes ≡ lanes_spec.lanes_from first gap protocols.now) }
{
    let mut lanes = Items::new(alloc);
    let mut x = first;
    for protocol in protocols {
        lanes.push(Lane { at: *protocol, x })?;
        x = x.saturating_add(gap);
    }
    Ok(lanes)
}

/// Where the lane of a protocol is.
pub fn lane_x(lanes: &[Lane], protocol: Proto) -> u64
    ensures { result ≡ lanes_spec.lane_x lanes.now protocol }
{
    for lane in lanes {
        if is_same(lane.at, protocol) {
            return lane.x;
        }
    }
    0
}

/// Adds where the lane of a host is, where the test holds.
pub fn push_x(
    xs: &mut Items<u64>,
    lanes: &[Lane],
    host: HostId,
    test: bool,
) -> Result<(), AllocError>
    ensures { OnOk result (xs.new ≡ xs.old ++ lanes_spec.x_if test (lanes_spec.lane_x lanes.now (lanes_spec.local host))) }
{
    if test {
        xs.push(lane_x(lanes, Proto::Local(host)))?;
    }
    Ok(())
}

/// Where the lanes of some hosts are.
pub fn set_x(
    alloc: Global,
    lanes: &[Lane],
    hosts: u8,
    set: HostSet,
) -> Result<Items<u64>, AllocError>
    ensures { IfOk result (λ xs. xs ≡ lanes_spec.hosts_x lanes.now (has_host set) hosts) }
{
    let mut xs = Items::new(alloc);
    for host in 0..hosts {
        push_x(&mut xs, lanes, HostId(host), set.has(HostId(host)))?;
    }
    Ok(xs)
}
