//! A world from its start over a schedule.

ghost use Rattle.std.specs.Prelude.{◌≡◌, length, IfOk, OnOk};
ghost use Rattle.vd_execution.specs.Joint.{Joint, started};
ghost use Rattle.vd_execution.specs.World.{run};
ghost use Rattle.vd_world.specs.Hosts.{supply_of, world_of};
ghost use Rattle.vd_world.specs.Loading.{AreCodesOf, AreForAll};
ghost use Rattle.vd_world.specs.Played.{followed, played};
ghost use Rattle.vd_world.specs.Schedules.{numbers};
ghost use Rattle.vd_world.specs.Supplies.{supply_of_files};

use crate::World;
use crate::world_report::loading::load_all;
use std::alloc::{AllocError, Global};
use vd_base::{HostId, Inputs, Items};
use vd_execution::Instr;
use vd_report::Schedule;
use vd_tape::Deals;

/// All hosts before their codes.
fn start(
    alloc: Global,
    codes: Items<Items<Instr>>,
    inputs: Inputs,
    deals: Deals,
) -> Result<World, AllocError>
    requires { AreForAll codes inputs deals }
    ensures world { (j : Joint) → AreCodesOf codes j → IfOk result (λ w. world_of w ≡ started j) }
    ensures supply { IfOk result (λ w. supply_of w ≡ supply_of_files inputs deals) }
    ensures hosts { IfOk result (λ w. length w ≡ length codes) }
{
    let machines = load_all(alloc, codes, inputs, deals)?;
    World::start(alloc, machines)
}

/// The entries of a schedule in turn, each one step where it can. After memory ran out the world is to be given up.
fn turns(world: &mut World, entries: &[HostId]) -> Result<(), AllocError>
    ensures world { OnOk result (world_of world.new ≡ run (supply_of world.old) (numbers entries.now) (world_of world.old)) }
    ensures supply { OnOk result (supply_of world.new ≡ supply_of world.old) }
    ensures hosts { OnOk result (length world.new ≡ length world.old) }
{
    for host in entries {
        world.step(*host)?;
    }
    Ok(())
}

/// The entries of a schedule, and rounds where it ends with `all`. After memory ran out the world is to be given up.
fn follow(world: &mut World, schedule: &Schedule) -> Result<(), AllocError>
    ensures world { OnOk result (world_of world.new ≡ followed world.old schedule.now) }
    ensures supply { OnOk result (supply_of world.new ≡ supply_of world.old) }
    ensures hosts { OnOk result (length world.new ≡ length world.old) }
{
    turns(world, schedule.entries.as_slice())?;
    if schedule.all {
        world.run_all()
    } else {
        Ok(())
    }
}

/// All hosts after a schedule. The codes, inputs and deals are those of each host, in order; the codes are those of one joint
/// code, and each of them can be loaded.
pub fn play(
    alloc: Global,
    codes: Items<Items<Instr>>,
    inputs: Inputs,
    deals: Deals,
    schedule: &Schedule,
) -> Result<World, AllocError>
    requires { AreForAll codes inputs deals }
    ensures world { (j : Joint) → AreCodesOf codes j → IfOk result (λ w. world_of w ≡ played inputs deals (length codes) schedule.now j) }
    ensures supply { IfOk result (λ w. supply_of w ≡ supply_of_files inputs deals) }
    ensures hosts { IfOk result (λ w. length w ≡ length codes) }
{
    let mut world = start(alloc, codes, inputs, deals)?;
    follow(&mut world, schedule)?;
    Ok(world)
}
