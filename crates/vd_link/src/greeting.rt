ghost use Rattle.std.specs.Prelude.{◌≡◌, length};
ghost use Rattle.vd_link.specs.Frames.{greeting};
ghost use Rattle.vd_link.specs.Receiving.{IsFront};
ghost use Rattle.vd_link.specs.Sessions.{Greets, Judges, ReceivesGreeting};
ghost use Rattle.vd_link.specs.States.{ends};

use crate::frame::{Frame, GREETING_BYTES, GREETING_TAG, GREETING_VERSION};
use crate::receiving::fill;
use crate::{Digest, GreetFault};
use vd_base::HostId;
use vd_outside::{Link, send_all};

/// The plan of a greeting, the host that sent it and the host that it is for.
fn parts_of(bytes: &[u8; GREETING_BYTES]) -> (Digest, u8, u8)
    requires { IsFront 0x47 1 bytes.now }
    ensures parts { bytes.now ≡ greeting result.0 result.1 result.2 }
    ensures digest { length result.0 ≡ 32 }
{
    let mut plan = [0u8; 32];
    plan.copy_from_slice(&bytes[2..34]);
    (plan, bytes[34], bytes[35])
}

/// Whether a greeting is the one that this host waits for.
fn judge(
    theirs: &Digest,
    from: u8,
    to: u8,
    me: HostId,
    peer: HostId,
    plan: &Digest,
) -> Result<(), GreetFault>
    ensures { Judges (ends me peer plan.now) theirs.now from to result }
{
    if theirs != plan {
        return Err(GreetFault::WrongProgram(*plan, *theirs));
    }
    if from != peer.0 {
        return Err(GreetFault::WrongHost(peer.0, from));
    }
    if to != me.0 {
        return Err(GreetFault::WrongHost(me.0, to));
    }
    Ok(())
}

/// Receives the greeting of the peer.
fn receive_greeting<L: Link>(
    link: &mut L,
    me: HostId,
    peer: HostId,
    plan: &Digest,
) -> Result<(), GreetFault>
    ensures { ReceivesGreeting (ends me peer plan.now) (L.view link.old) (L.view link.new) result }
{
    let mut bytes = [0u8; GREETING_BYTES];
    fill(link, GREETING_TAG, GREETING_VERSION, &mut bytes)?;
    let (theirs, from, to) = parts_of(&bytes);
    judge(&theirs, from, to, me, peer, plan)
}

/// Sends the own greeting, and receives that of the peer.
pub(crate) fn exchange_greetings<L: Link>(
    link: &mut L,
    frame: &mut Frame,
    me: HostId,
    peer: HostId,
    plan: &Digest,
) -> Result<(), GreetFault>
    ensures { Greets (ends me peer plan.now) (L.view link.old) (L.view link.new) result }
{
    frame.set_greeting(plan, me, peer);
    match send_all(link, frame.as_slice()) {
        Ok(()) => receive_greeting(link, me, peer, plan),
        Err(_) => Err(GreetFault::Peer),
    }
}
