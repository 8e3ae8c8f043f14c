ghost use Rattle.std.specs.Prelude.{◌≡◌, ◌<◌, ◌≤◌, ◌^◌};
ghost use Rattle.vd_engine.specs.Drives.{AreSound, sessions_of};
ghost use Rattle.vd_engine.specs.Hosts.{PacketsAreWith, stands_in};
ghost use Rattle.vd_execution.specs.Code.{weight};
ghost use Rattle.vd_host_session.specs.Histories.{engine_status};
ghost use Rattle.vd_host_session.specs.Meetings.{IsPeerOf};
ghost use Rattle.vd_host_session.specs.Plays.{DrivesAndTells, Plays};
ghost use Rattle.vd_machine.specs.Kept.{state_of};
ghost use Rattle.vd_host_session.specs.Stages.{IsOfFewHosts};

use crate::HostFault;
use crate::listening::listen_all;
use crate::meeting::{Unmet, meet_all};
use crate::returning::{hand_back, hang_up};
use crate::task::Task;
use std::alloc::Global;
use vd_engine::{Ended, EngineFault, Links, drive};
use vd_machine::Machine;
use vd_outside::{Link, Net, Sink, write_all};

/// The fault of the engine as that of a host.
fn fault_of_engine(fault: EngineFault) -> HostFault
    ensures { result ≡ engine_status fault }
{
    match fault {
        EngineFault::Peer(peer) => HostFault::Peer(peer),
        EngineFault::Write => HostFault::Write,
        EngineFault::BadFrame(_, offset, byte) => HostFault::BadFrame(offset, byte),
        EngineFault::Unequal(left, right) => HostFault::Unequal(left, right),
        EngineFault::ShortInput(cursor, count) => HostFault::ShortInput(cursor, count),
        EngineFault::ShortDeal(kind, cursor, count) => HostFault::ShortDeal(kind, cursor, count),
        EngineFault::EndOfLink(peer) => HostFault::EndOfLink(peer),
    }
}

/// Drives a machine over its links, and tells its end.
fn drive_and_tell<L: Link + Drop, O: Sink>(
    machine: Machine,
    links: &mut Links<L>,
    out: &mut O,
) -> Result<Ended, HostFault>
    requires packets { PacketsAreWith (stands_in links.old) (state_of machine).pending }
    requires sound { AreSound L.view links.old }
    requires short { weight (state_of machine).pending < 2 ^ 32 }
    ensures { DrivesAndTells machine (sessions_of L.view links.old) (sessions_of L.view links.new) (O.view out.old) (O.view out.new)
        result }
{
    match drive(machine, links, out) {
        Ok(done) => match write_all(out, b"ended\n") {
            Ok(()) => Ok(done),
            Err(_) => Err(HostFault::Write),
        },
        Err(fault) => Err(fault_of_engine(fault)),
    }
}

/// Runs a host: it listens for all later peers and writes `listening`, meets its peers in their order, drives its machine
/// and writes `ended`. Whatever comes of it, each link that was given is handed back.
pub fn play<N: Net, O: Sink>(
    alloc: Global,
    net: &mut N,
    out: &mut O,
    task: &Task,
    machine: Machine,
) -> Result<Ended, HostFault>
    requires hosts { IsOfFewHosts task.now }
    requires room { (N.view net.old).given ≤ 4294967000 }
    requires packets { PacketsAreWith (IsPeerOf task.now) (state_of machine).pending }
    requires short { weight (state_of machine).pending < 2 ^ 32 }
    ensures { Plays machine task.now (N.view net.old) (N.view net.new) (O.view out.old) (O.view out.new) result }
{
    let first = listen_all(net, task)?;
    match write_all(out, b"listening\n") {
        Ok(()) => {}
        Err(_) => return Err(HostFault::Write),
    }
    let mut links = Links::new();
    match meet_all(alloc, net, task, first, &mut links) {
        Ok(()) => {
            let played = drive_and_tell(machine, &mut links, out);
            hand_back(net, links);
            played
        }
        Err(unmet) => {
            let Unmet { fault, link } = unmet;
            hand_back(net, links);
            hang_up(net, link);
            Err(fault)
        }
    }
}
