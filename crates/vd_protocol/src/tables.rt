ghost use Rattle.std.specs.Prelude.{◌≡◌};
ghost use Rattle.std.specs.Option.{is_some};
ghost use Rattle.vd_base.specs.Costs.{cost_at, op_cost_at};
ghost use Rattle.vd_base.specs.Moves.{from_added, from_committed, from_copies, from_local, from_xored, move_at};

use vd_base::{HostId, HostSet, Op, Proto, Row};

/// Whether a binding or a variable of this kind can stand at the protocol.
pub fn holds(row: Row, at: Proto) -> bool
    ensures { result ≡ is_some (cost_at row at) }
{
    match row {
        Row::Constant | Row::Variable => !matches!(at, Proto::Commit(_, _)),
        Row::Carry => true,
        Row::Input(host) => match at {
            Proto::Local(other) => host == other,
            _ => false,
        },
        Row::Apply(op) => can(op, at),
    }
}

/// Whether the operation can stand at the protocol.
pub fn can(op: Op, at: Proto) -> bool
    ensures { result ≡ is_some (op_cost_at op at) }
{
    match at {
        Proto::Local(_) | Proto::Rep(_) => true,
        Proto::Commit(_, _) => false,
        Proto::Add(_, _) => matches!(op, Op::Add | Op::Sub | Op::Scale(_) | Op::Mul),
        Proto::Xor(_, _) => !matches!(op, Op::Scale(_) | Op::Mul | Op::Div | Op::Rem),
    }
}

/// Whether a value can be brought from one protocol to the other.
pub fn joins(from: Proto, to: Proto) -> bool
    ensures { result ≡ is_some (move_at from to) }
{
    match from {
        Proto::Local(host) => local_joins(host, to),
        Proto::Rep(hosts) => copies_join(hosts, to),
        Proto::Commit(prover, verifier) => committed_joins(prover, verifier, to),
        Proto::Add(first, second) | Proto::Xor(first, second) => shares_join(first, second, to),
    }
}

fn local_joins(host: HostId, to: Proto) -> bool
    ensures { result ≡ is_some (from_local host to) }
{
    match to {
        Proto::Local(_) | Proto::Rep(_) => true,
        Proto::Commit(prover, _) => host == prover,
        Proto::Add(first, second) | Proto::Xor(first, second) => host == first || host == second,
    }
}

fn copies_join(hosts: HostSet, to: Proto) -> bool
    ensures { result ≡ is_some (from_copies hosts to) }
{
    match to {
        Proto::Local(_) | Proto::Rep(_) => true,
        Proto::Commit(_, _) => false,
        Proto::Add(first, second) | Proto::Xor(first, second) => {
            hosts.has(first) && hosts.has(second)
        }
    }
}

fn committed_joins(prover: HostId, verifier: HostId, to: Proto) -> bool
    ensures { result ≡ is_some (from_committed prover verifier to) }
{
    match to {
        Proto::Local(host) => host == prover || host == verifier,
        Proto::Rep(hosts) => hosts.is_pair(prover, verifier),
        Proto::Commit(other_prover, other_verifier) => {
            prover == other_prover && verifier == other_verifier
        },
        Proto::Add(_, _) | Proto::Xor(_, _) => false,
    }
}

/// Shares of two hosts join where either host is, copies at both, and shares of both kinds between the same two.
fn shares_join(first: HostId, second: HostId, to: Proto) -> bool
    ensures added { result ≡ is_some (from_added first second to) }
    ensures xored { result ≡ is_some (from_xored first second to) }
{
    match to {
        Proto::Local(host) => host == first || host == second,
        Proto::Rep(hosts) => hosts.is_pair(first, second),
        Proto::Commit(_, _) => false,
        Proto::Add(third, fourth) | Proto::Xor(third, fourth) => first == third && second == fourth,
    }
}
