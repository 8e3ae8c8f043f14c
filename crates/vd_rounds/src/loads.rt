//! What goes from one host to another: packets, words and bytes.

ghost use Rattle.std.specs.Prelude.{◌≡◌, IfOk};
ghost use Rattle.vd_execution.specs.Code.{Code};
ghost use Rattle.vd_execution.specs.Text.{IsCodeOf};
ghost use Rattle.vd_rounds.specs.Tallies.{IsTold};
ghost use Rattle.vd_rounds.specs.Loads.{IsLight, load_of, traffic_of};
ghost use Rattle.vd_rounds.specs.Loads as spec;

use crate::tallies::{Bound, Measure, Tally, count_told};
use std::alloc::{AllocError, Global};
use vd_base::HostId;
use vd_execution::Instr;

/// So much goes from a host to another.
#[derive(Clone, Copy)]
pub struct Load {
    pub packets: u64,
    pub words: u64,
}

/// How much goes from a host to another at least, where it ends, and at most.
#[derive(Clone, Copy)]
pub struct Traffic {
    pub least: Load,
    pub most: Load,
}

/// What a code tells a host where of each branch this block is counted.
fn load_to(alloc: Global, code: &[Instr], bound: Bound, peer: HostId) -> Result<Load, AllocError>
    requires { IsTold code.now }
    ensures counts { IfOk result (λ load. (c : Code) → IsCodeOf code.now c → load ≡ load_of bound peer c) }
    ensures light { IfOk result IsLight }
{
    let measure = Measure::Packets;
    let packets = count_told(
        alloc,
        code,
        Tally {
            bound,
            measure,
            peer,
        },
    )?;
    let measure = Measure::Words;
    let words = count_told(
        alloc,
        code,
        Tally {
            bound,
            measure,
            peer,
        },
    )?;
    Ok(Load { packets, words })
}

/// What a code tells a host, at least and at most.
pub fn traffic_to(alloc: Global, code: &[Instr], peer: HostId) -> Result<Traffic, AllocError>
    requires { IsTold code.now }
    ensures counts { IfOk result (λ traffic. (c : Code) → IsCodeOf code.now c → traffic ≡ traffic_of peer c) }
    ensures light_least { IfOk result (λ traffic. IsLight traffic.least) }
    ensures light_most { IfOk result (λ traffic. IsLight traffic.most) }
{
    let least = load_to(alloc, code, Bound::Least, peer)?;
    let most = load_to(alloc, code, Bound::Most, peer)?;
    Ok(Traffic { least, most })
}

/// The bytes of one direction of a link over which so much goes: a greeting of 36 bytes, and for each packet two bytes and four for each
/// word.
pub fn plain_bytes(load: Load) -> u64
    requires { IsLight load }
    ensures { result ≡ spec.plain_bytes load }
{
    36 + 2 * load.packets + 4 * load.words
}

/// The bytes of one direction of a sealed link over which so much goes: a hello of 68 bytes, a record without bytes, and a record each for
/// the greeting and for each packet, which has 34 bytes more.
pub fn sealed_bytes(load: Load) -> u64
    requires { IsLight load }
    ensures { result ≡ spec.sealed_bytes load }
{
    172 + 36 * load.packets + 4 * load.words
}
