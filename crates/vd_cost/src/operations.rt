ghost use Rattle.std.specs.Prelude.{◌≡◌, unwrap_or};
ghost use Rattle.vd_base.specs.Costs.{added_cost, op_cost_at, xored_cost};

use vd_base::{Op, Proto};

/// What the operation costs at the protocol, and 0 where it cannot stand there.
pub fn op_cost(op: Op, at: Proto) -> u32
    ensures { result ≡ unwrap_or (op_cost_at op at) 0 }
{
    match at {
        Proto::Local(_) => 1,
        Proto::Rep(hosts) => hosts.size(),
        Proto::Commit(_, _) => 0,
        Proto::Add(_, _) => added(op),
        Proto::Xor(_, _) => xored(op),
    }
}

fn added(op: Op) -> u32
    ensures { result ≡ unwrap_or (added_cost op) 0 }
{
    match op {
        Op::Add | Op::Sub | Op::Scale(_) => 2,
        Op::Mul => 20,
        _ => 0,
    }
}

fn xored(op: Op) -> u32
    ensures { result ≡ unwrap_or (xored_cost op) 0 }
{
    match op {
        Op::Xor | Op::Not | Op::Flip | Op::Shl(_) | Op::Shr(_) => 2,
        Op::And | Op::Or | Op::Mux => 20,
        Op::Eq | Op::Ne => 100,
        Op::Add | Op::Sub | Op::Lt | Op::Le => 200,
        Op::Min | Op::Max => 220,
        Op::Scale(_) | Op::Mul | Op::Div | Op::Rem => 0,
    }
}
