ghost use Rattle.std.specs.Prelude.{◌≡◌, ◌<◌, ◌≤◌, ◌^◌, IsSome, length};
ghost use Rattle.vd_base.specs.Limits.{most_packet_words};
ghost use Rattle.vd_base.specs.Packets.{packet_words};
ghost use Rattle.vd_engine.specs.Drives.{AreSound, DrivesHost, sessions_of};
ghost use Rattle.vd_engine.specs.Hosts.{CanShow, PacketsAreWith, stands_in};
ghost use Rattle.vd_engine.specs.Links.{session_at};
ghost use Rattle.vd_engine.specs.Turning.{Hears, IsDoneOf, IsTurnOf, Says, engine_fault};
ghost use Rattle.vd_execution.specs.Code.{weight};
ghost use Rattle.vd_machine.specs.Kept.{state_of};

use crate::writing::write_line;
use crate::{EngineFault, Links};
use vd_base::{Failed, HostId, Packet, words_fit};
use vd_link::{LinkFault, words_of};
use vd_machine::{Did, Machine, Want};
use vd_outside::{Link, Sink};

/// A machine ran to its end.
#[derive(Clone, Copy, PartialEq, Eq)]
pub struct Ended {
    /// How many words it printed.
    pub printed: u32,
}

/// What a turn was.
#[derive(Clone, Copy, PartialEq, Eq)]
enum Turn {
    /// The machine has ended.
    Over,
    /// A step that printed nothing.
    Quiet,
    /// A step that printed a word.
    Printed,
}

/// The fault of the link to a host as one of the engine.
fn fault_of(host: HostId, fault: LinkFault) -> EngineFault
    ensures { result ≡ engine_fault host fault }
{
    match fault {
        LinkFault::Peer => EngineFault::Peer(host),
        LinkFault::BadFrame(offset, byte) => EngineFault::BadFrame(host, offset, byte),
        LinkFault::End => EngineFault::EndOfLink(host),
    }
}

/// Receives a packet from a host.
fn hear<L: Link + Drop>(links: &mut Links<L>, host: HostId, count: u8) -> Result<Packet, LinkFault>
    requires stands { IsSome (session_at links.old host.0) }
    requires sound { AreSound L.view links.old }
    requires some { 1 ≤ count }
    requires most { count ≤ most_packet_words }
    ensures { Hears host.0 count (sessions_of L.view links.old) (sessions_of L.view links.new) result }
{
    match links.take(host) {
        Some(mut session) => {
            let received = session.receive(count);
            links.put(host, session);
            received
        }
        None => unreachable!(),
    }
}

/// Sends a packet to a host.
fn say<L: Link + Drop>(links: &mut Links<L>, host: HostId, packet: &Packet) -> Result<(), Failed>
    requires stands { IsSome (session_at links.old host.0) }
    requires sound { AreSound L.view links.old }
    requires some { 0 < length (packet_words packet.now) }
    ensures { Says host.0 (packet_words packet.now) (sessions_of L.view links.old) (sessions_of L.view links.new) result }
{
    match links.take(host) {
        Some(mut session) => {
            let sent = session.send(packet);
            links.put(host, session);
            sent
        }
        None => unreachable!(),
    }
}

/// Does what others see of a step: a packet is sent, a word is written at once.
fn show<L: Link + Drop, O: Sink>(
    did: Did,
    links: &mut Links<L>,
    out: &mut O,
) -> Result<Turn, EngineFault>
    requires shown { CanShow (stands_in links.old) did }
    requires sound { AreSound L.view links.old }
    ensures { IsDoneOf L.view did links.old links.new (O.view out.old) (O.view out.new) result }
{
    match did {
        Did::Quiet => Ok(Turn::Quiet),
        Did::Say(host, packet) => match say(links, host, &packet) {
            Ok(()) => Ok(Turn::Quiet),
            Err(_) => Err(EngineFault::Peer(host)),
        },
        Did::Print(word) => match write_line(out, word) {
            Ok(()) => Ok(Turn::Printed),
            Err(_) => Err(EngineFault::Write),
        },
    }
}

/// One turn: a step of the machine on the words that come, and what others see of it.
fn take_turn<L: Link + Drop, O: Sink>(
    machine: &mut Machine,
    links: &mut Links<L>,
    out: &mut O,
) -> Result<Turn, EngineFault>
    requires packets { PacketsAreWith (stands_in links.old) (state_of machine.old).pending }
    requires sound { AreSound L.view links.old }
    ensures turn { IsTurnOf L.view machine.old machine.new links.old links.new (O.view out.old) (O.view out.new) result }
    ensures lists { machine.new.lists ≡ machine.old.lists }
{
    match machine.want() {
        Want::Nothing => show(machine.step(&[]), links, out),
        Want::Words(host, count) => match hear(links, host, count) {
            Ok(packet) => {
                let words = words_of(&packet);
                words_fit(words);
                machine.step(words);
                Ok(Turn::Quiet)
            }
            Err(fault) => Err(fault_of(host, fault)),
        },
        Want::Ended => Ok(Turn::Over),
        Want::ShortInput(cursor, length) => Err(EngineFault::ShortInput(cursor, length)),
        Want::ShortDeal(kind, cursor, length) => Err(EngineFault::ShortDeal(kind, cursor, length)),
        Want::Unequal(left, right) => Err(EngineFault::Unequal(left, right)),
    }
}

/// Drives a host's machine to its end over its links: each turn is one of its steps, on the words that were received, behind
/// all that nobody sees.
/// What it prints is written at once, each word in decimal on a line. It takes no memory.
///
/// A session stands for each peer that the code names, and none of them has answered a fault.
pub fn drive<L: Link + Drop, O: Sink>(
    mut machine: Machine,
    links: &mut Links<L>,
    out: &mut O,
) -> Result<Ended, EngineFault>
    requires packets { PacketsAreWith (stands_in links.old) (state_of machine).pending }
    requires sound { AreSound L.view links.old }
    requires short { weight (state_of machine).pending < 2 ^ 32 }
    ensures { DrivesHost L.view machine links.old links.new (O.view out.old) (O.view out.new) result }
{
    let mut printed: u32 = 0;
    loop {
        machine.run();
        match take_turn(&mut machine, links, out)? {
            Turn::Over => return Ok(Ended { printed }),
            Turn::Quiet => {}
            Turn::Printed => printed += 1,
        }
    }
}
