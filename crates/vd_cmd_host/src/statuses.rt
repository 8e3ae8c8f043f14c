//! The status of a host that did not run to its end.

ghost use Rattle.std.specs.Prelude.{◌≡◌, ◌<◌, length};
ghost use Rattle.vd_report.specs.ChoiceLines.{host_name};
ghost use Rattle.vd_cmd_host.specs.Statuses.{PeersAreNamed, status_of};

use vd_base::{HostId, Name, Names};
use vd_cmd_plan::{HostStatus, Status};
use vd_host_session::HostFault;

/// The name of a host, out of those of all.
fn host_name(names: Names, host: HostId) -> Name
    requires { host.0 < length names }
    ensures { result ≡ host_name names host }
{
    let mut names = names;
    names.remove(usize::from(host.0))
}

/// The status where a host answered this fault, and these are the names of all hosts.
pub(crate) fn status_of(names: Names, fault: HostFault) -> Status
    requires { PeersAreNamed names fault }
    ensures { result ≡ status_of names fault }
{
    match fault {
        HostFault::Memory => Status::Memory,
        HostFault::Write => Status::WriteFault,
        HostFault::Peer(peer) => Status::Host(HostStatus::PeerFault(host_name(names, peer))),
        HostFault::BadFrame(offset, byte) => Status::Host(HostStatus::BadFrame(offset, byte)),
        HostFault::Unequal(left, right) => Status::Host(HostStatus::Unequal(left, right)),
        HostFault::WrongProgram(peer, ours, theirs) => {
            let name = host_name(names, peer);
            Status::Host(HostStatus::WrongProgram(name, ours, theirs))
        }
        HostFault::WrongHost(wanted, named) => Status::Host(HostStatus::WrongHost(wanted, named)),
        HostFault::ShortInput(cursor, count) => Status::Host(HostStatus::ShortInput(cursor, count)),
        HostFault::ShortDeal(kind, cursor, count) => {
            Status::Host(HostStatus::ShortDeal(kind, cursor, count))
        }
        HostFault::EndOfLink(peer) => Status::Host(HostStatus::EndOfLink(host_name(names, peer))),
    }
}
