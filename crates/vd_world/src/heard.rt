//! What a host hears at its next step.

ghost use Rattle.std.specs.Prelude.{◌≡◌, Some, IfSome, slice_get, ◌+◌, ◌^◌, ◌<◌};
ghost use Rattle.vd_world.specs.Hears.{Hears, CanTake};
ghost use Rattle.vd_world.specs.Links.{IsPlace};
ghost use Rattle.vd_world.specs.Hosts.{world_of};

use crate::host::Host;
use vd_base::HostId;
use vd_machine::Want;

/// How a host goes on at its next step.
#[derive(Clone, Copy)]
pub(crate) enum Turn<'a> {
    /// By itself.
    Alone,
    /// With a packet of these words, from a peer.
    Take(HostId, &'a [u32]),
    /// It cannot step.
    Stuck,
}

/// A packet that one host sent to another, by its place among those.
fn sent<'a>(hosts: &'a [Host], from: usize, to: usize, place: usize) -> Option<&'a [u32]>
    ensures packet { IsPlace result (slice_get ((world_of hosts.now from).sent to) place) }
    ensures room { IfSome result (λ _. place + 1 < 2 ^ 64) }
{
    if hosts.len() <= from {
        return None;
    }
    hosts[from].packet_to(to, place)
}

/// How host h, which this is, goes on at its next step, by what it hears.
pub(crate) fn heard<'a>(hosts: &'a [Host], h: usize, host: &Host) -> Turn<'a>
    requires { slice_get hosts.now h ≡ Some host.now }
    ensures hears { Hears hosts.now h host.now result }
    ensures takes { CanTake host.now result }
{
    match host.want() {
        Want::Nothing => Turn::Alone,
        Want::Words(peer, count) => {
            let from = peer.0 as usize;
            match sent(hosts, from, h, host.taken_from(from)) {
                None => Turn::Stuck,
                Some(words) => {
                    if words.len() == count as usize {
                        Turn::Take(peer, words)
                    } else {
                        Turn::Stuck
                    }
                }
            }
        }
        Want::Ended => Turn::Stuck,
        Want::ShortInput(_, _) => Turn::Stuck,
        Want::ShortDeal(_, _, _) => Turn::Stuck,
        Want::Unequal(_, _) => Turn::Stuck,
    }
}
