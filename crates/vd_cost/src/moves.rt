ghost use Rattle.std.specs.Prelude.{◌≡◌, if◌then◌else◌, unwrap_or};
ghost use Rattle.vd_base.specs.Moves.{from_added, from_committed, from_copies, from_local, from_xored, move_at, opened};

use vd_base::{HostId, HostSet, Proto};

/// What it costs to bring a value from one protocol to another, and 0 where the two do not join.
pub fn move_cost(from: Proto, to: Proto) -> u32
    ensures { result ≡ unwrap_or (move_at from to) 0 }
{
    match from {
        Proto::Local(host) => local_to(host, to),
        Proto::Rep(hosts) => copies_to(hosts, to),
        Proto::Commit(prover, verifier) => committed_to(prover, verifier, to),
        Proto::Add(first, second) => added_to(first, second, to),
        Proto::Xor(first, second) => xored_to(first, second, to),
    }
}

fn local_to(host: HostId, to: Proto) -> u32
    ensures { result ≡ unwrap_or (from_local host to) 0 }
{
    match to {
        Proto::Local(other) => cost_if(other != host, 5),
        Proto::Rep(hosts) => 5 * hosts.size().saturating_sub(u32::from(hosts.has(host))),
        Proto::Commit(prover, _) => cost_if(host == prover, 10),
        Proto::Add(first, second) | Proto::Xor(first, second) => cost_if(
            host == first || host == second,
            6,
        ),
    }
}

fn copies_to(hosts: HostSet, to: Proto) -> u32
    ensures { result ≡ unwrap_or (from_copies hosts to) 0 }
{
    match to {
        Proto::Local(host) => cost_if(!hosts.has(host), 5 * hosts.size()),
        Proto::Rep(others) => 5 * hosts.size() * others.outside(hosts).size(),
        Proto::Commit(_, _) | Proto::Add(_, _) | Proto::Xor(_, _) => 0,
    }
}

fn committed_to(prover: HostId, verifier: HostId, to: Proto) -> u32
    ensures { result ≡ unwrap_or (from_committed prover verifier to) 0 }
{
    match to {
        Proto::Local(host) => cost_if(host != prover && host == verifier, 12),
        Proto::Rep(hosts) => cost_if(hosts.is_pair(prover, verifier), 12),
        Proto::Commit(_, _) | Proto::Add(_, _) | Proto::Xor(_, _) => 0,
    }
}

fn added_to(first: HostId, second: HostId, to: Proto) -> u32
    ensures { result ≡ unwrap_or (from_added first second to) 0 }
{
    match to {
        Proto::Xor(third, fourth) => cost_if(first == third && second == fourth, 212),
        _ => opened_to(first, second, to),
    }
}

fn xored_to(first: HostId, second: HostId, to: Proto) -> u32
    ensures { result ≡ unwrap_or (from_xored first second to) 0 }
{
    match to {
        Proto::Add(third, fourth) => cost_if(first == third && second == fourth, 210),
        _ => opened_to(first, second, to),
    }
}

/// From shares of two hosts to where the value is in clear.
fn opened_to(first: HostId, second: HostId, to: Proto) -> u32
    ensures { result ≡ unwrap_or (opened first second to) 0 }
{
    match to {
        Proto::Local(host) => cost_if(host == first || host == second, 5),
        Proto::Rep(hosts) => cost_if(hosts.is_pair(first, second), 10),
        Proto::Commit(_, _) | Proto::Add(_, _) | Proto::Xor(_, _) => 0,
    }
}

fn cost_if(test: bool, cost: u32) -> u32
    ensures { result ≡ (if test then cost else 0) }
{
    if test { cost } else { 0 }
}
