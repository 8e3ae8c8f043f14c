ghost use Rattle.std.specs.Prelude.{option_map};
ghost use Rattle.vd_engine.specs.Drives.{sessions_of};
ghost use Rattle.vd_host_session.specs.Histories.{HandedBack, HungUp};

use vd_base::HostId;
use vd_engine::Links;
use vd_outside::Net;

/// Hands the links of all sessions back, in the order of the hosts.
pub(crate) fn hand_back<N: Net>(net: &mut N, links: Links<N::Link>)
    ensures { HandedBack (sessions_of N.Link.view links) (N.view net.old) 4 (N.view net.new) }
{
    let mut links = links;
    for number in 0..4 {
        match links.take(HostId(number)) {
            Some(session) => net.hang_up(session.close().link()),
            None => {}
        }
    }
}

/// Hands a link back, if there is one.
pub(crate) fn hang_up<N: Net>(net: &mut N, link: Option<N::Link>)
    ensures { HungUp (option_map N.Link.view link) (N.view net.old) (N.view net.new) }
{
    if let Some(link) = link {
        net.hang_up(link);
    }
}
