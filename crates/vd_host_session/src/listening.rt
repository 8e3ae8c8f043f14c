ghost use Rattle.std.specs.Prelude.{◌≡◌, ◌≢◌, ◌≤◌, ℕ, List, length};
ghost use Rattle.vd_host_session.specs.Histories.{call_status};
ghost use Rattle.vd_host_session.specs.Stages.{ListensAll};

use crate::HostFault;
use crate::task::{Task, address_at, peer_at};
use vd_base::{CallFault, HostId};
use vd_outside::Net;

/// Listens for all later peers, and says the number of the first listener.
pub(crate) fn listen_all<N: Net>(net: &mut N, task: &Task) -> Result<u32, HostFault>
    requires few { length task.now.addresses ≤ 3 }
    requires own { task.now.me.0 ≤ length task.now.addresses }
    requires room { (N.view net.old).given ≤ 4294967000 }
    ensures { ListensAll task.now (N.view net.old) (N.view net.new) result }
{
    let mut first = 0;
    let me = task.me.0 as usize;
    for place in me..task.addresses.as_slice().len() {
        match net.listen(address_at(task, place)) {
            Ok(number) => first = first_listener(first, number, place, me),
            Err(fault) => return Err(fault_of(peer_at(task.me, place), fault)),
        }
    }
    Ok(first)
}

/// The number of the first listener: that of the one for this place, if it is the first of all.
fn first_listener(first: u32, number: u32, place: usize, first_place: usize) -> u32
    ensures same { place ≡ first_place → result ≡ number }
    ensures other { place ≢ first_place → result ≡ first }
{
    if place == first_place { number } else { first }
}

/// The fault of a call for a peer.
pub(crate) fn fault_of(peer: HostId, fault: CallFault) -> HostFault
    ensures { (address : List ℕ) → result ≡ call_status (record { number = peer.0; address = address }) fault }
{
    match fault {
        CallFault::Failed => HostFault::Peer(peer),
        CallFault::Memory => HostFault::Memory,
    }
}
