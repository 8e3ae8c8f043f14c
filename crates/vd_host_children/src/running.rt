ghost use Rattle.std.specs.Prelude.{◌≡◌, ◌<◌, ◌≤◌, length, All, IfOk, IsTrue};
ghost use Rattle.vd_base.specs.Limits.{most_hosts};
ghost use Rattle.vd_host_children.specs.Asked.{Asks};
ghost use Rattle.vd_host_children.specs.Causes.{Causes};
ghost use Rattle.vd_host_children.specs.Runs.{ReadsAll, RunsChildren, StartsAll};
ghost use Rattle.vd_host_children.specs.Told.{EachEnded, TellsEach};

use crate::ChildrenFault;
use crate::reading::read;
use crate::starting::start;
use std::alloc::Global;
use vd_base::{HostId, Items, Texts, Words};
use vd_outside::Spawner;

/// Starts a child for each host, in their order: the numbers of the children.
fn start_all<S: Spawner>(
    alloc: Global,
    spawner: &mut S,
    program: &str,
    hosts: &[Texts],
) -> Result<Items<u32>, ChildrenFault>
    requires few { length hosts.now ≤ most_hosts }
    requires room { (S.view spawner.old).given ≤ 4294967000 }
    ensures starts { StartsAll program.now hosts.now (S.view spawner.old) (S.view spawner.new) result }
    ensures known { IfOk result (λ children. All (λ child. child < (S.view spawner.new).given) children) }
    ensures count { IfOk result (λ children. length children ≡ length hosts.now) }
{
    let mut children = Items::new(alloc);
    for (number, words) in hosts.iter().enumerate() {
        children.push(start(spawner, HostId(number as u8), program, words)?)?;
    }
    Ok(children)
}

/// Reads each of the children to its end, in their order: the words that each printed.
fn read_all<S: Spawner>(
    alloc: Global,
    spawner: &mut S,
    children: &[u32],
) -> Result<Items<Words>, ChildrenFault>
    requires few { length children.now ≤ most_hosts }
    requires known { All (λ child. child < (S.view spawner.old).given) children.now }
    ensures { ReadsAll children.now (S.view spawner.old) (S.view spawner.new) result }
{
    let mut printed = Items::new(alloc);
    for (number, child) in children.iter().enumerate() {
        printed.push(read(alloc, spawner, *child, HostId(number as u8))?)?;
    }
    Ok(printed)
}

/// Runs the hosts of a program as children, each with its words on the command line: the words that each printed.
///
/// A child is started for each host in order, and its line `listening` is read before the next is started. Then the lines
/// of each are read to their end in order, and it is finished. The first fault ends the run.
pub fn run_children<S: Spawner>(
    alloc: Global,
    spawner: &mut S,
    program: &str,
    hosts: &[Texts],
) -> Result<Items<Words>, ChildrenFault>
    requires few { length hosts.now ≤ most_hosts }
    requires room { (S.view spawner.old).given ≤ 4294967000 }
    ensures runs { RunsChildren program.now hosts.now (S.view spawner.old) (S.view spawner.new) result }
    ensures causes { Causes (S.view spawner.old) (S.view spawner.new) result }
    ensures told { TellsEach (S.view spawner.old) → IfOk result (λ printed. EachEnded hosts.now (S.view spawner.old) printed) }
    ensures asks { IsTrue (S.view spawner.old).told → Asks program.now hosts.now (S.view spawner.old) (S.view spawner.new) result }
{
    let children = start_all(alloc, spawner, program, hosts)?;
    read_all(alloc, spawner, children.as_slice())
}
