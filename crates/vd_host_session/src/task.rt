ghost use Rattle.std.specs.Prelude.{◌≡◌, ◌<◌, length};
ghost use Rattle.vd_host_session.specs.Peers.{number_at, address_of};

use vd_base::{HostId, Items, Text};
use vd_link::Digest;

/// A host that is to be run: its number, the digest of its plan, and the addresses of its pairs in the order of its peers.
#[derive(Drop)]
pub struct Task {
    pub me: HostId,
    pub plan: Digest,
    pub addresses: Items<Text>,
}

/// The host whose address is at this place: all hosts in order, without this one.
pub(crate) fn peer_at(me: HostId, place: usize) -> HostId
    requires { place < 3 }
    ensures { result.0 ≡ number_at me.0 place }
{
    let number = place as u8;
    if number < me.0 {
        HostId(number)
    } else {
        HostId(number + 1)
    }
}

/// The address at this place.
pub(crate) fn address_at(task: &Task, place: usize) -> &str
    requires { place < length task.now.addresses }
    ensures { result.now ≡ address_of task.now place }
{
    task.addresses.as_slice()[place].as_str()
}
