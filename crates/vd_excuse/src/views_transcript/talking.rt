//! What one host sends another.

ghost use Rattle.std.specs.Prelude.{◌≡◌, IfOk};
ghost use Rattle.vd_projection.specs.Programs.{CanRunAt};
ghost use Rattle.vd_excuse.specs.Talk.{IsPlayable, talk};

use crate::views_transcript::filling::filled;
use std::alloc::{AllocError, Global};
use vd_base::{HostId, Inputs, Items, Proto, Words};
use vd_core::Program;
use vd_deal_needs::needs_of_program;
use vd_projection::split;
use vd_report::Schedule;
use vd_tape::Deals;
use vd_world::play;

/// The words of all packets that one host of a program sends another in the joint run on these inputs, those of each host followed by
/// zeros, and on a deal that reaches for that run, at a valid assignment of protocols to the slots.
pub fn talk(
    alloc: Global,
    program: &Program,
    protocols: &[Proto],
    inputs: &Inputs,
    deals: Deals,
    from: HostId,
    to: HostId,
) -> Result<Words, AllocError>
    requires runnable { CanRunAt program.now protocols.now }
    requires playable { IsPlayable program.now protocols.now inputs.now deals }
    ensures { IfOk result (λ words. words ≡ talk program.now protocols.now inputs.now deals from.0 to.0) }
{
    let needs = needs_of_program(alloc, program, protocols)?;
    let inputs = filled(alloc, inputs, needs.as_slice())?;
    let codes = split(alloc, program, protocols)?;
    let schedule = Schedule {
        entries: Items::new(alloc),
        all: true,
    };
    let world = play(alloc, codes, inputs, deals, &schedule)?;
    Words::from_slice(alloc, world.talk(from, to))
}
