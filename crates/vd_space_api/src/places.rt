//! The places of protocols in the list of all.

ghost use Rattle.std.specs.Prelude.{◌≡◌, ◌<◌, ◌≤◌, IsTrue, length, pos, take};
ghost use Rattle.vd_space_prefix.specs.Tables.{AreTables};
ghost use Rattle.vd_space.specs.Bounds.{high, low};
ghost use Rattle.vd_space.specs.Sizes.{IsWithinLimits};
ghost use Rattle.vd_space.specs.Validity.{is_valid};
ghost use Rattle.vd_space.specs.WellFormed.{AreProtocols};
ghost use Rattle.vd_space_api.specs.Places.{place_of, places_of};

use crate::bound::lower_bound;
use crate::high::high_bound;
use vd_base::{Proto, is_same};
use vd_space::Problem;
use vd_space_prefix::Tables;

/// No problem within the limits has more slots.
const MOST_SLOTS: usize = 2048;

/// The place of a protocol in the list, and the length of the list where it is not there.
fn place_of(list: &[Proto], protocol: Proto) -> u32
    requires { length list.now < 256 }
    ensures { result ≡ place_of list.now protocol }
{
    for place in 0..list.len() {
        if is_same(protocol, list[place]) {
            return place as u32;
        }
    }
    list.len() as u32
}

/// Writes the places of protocols to the front of the room.
fn fill_places(list: &[Proto], prefix: &[Proto], room: &mut [u32])
    requires few { length list.now < 256 }
    requires room { length prefix.now ≤ length room.old }
    ensures { take (length prefix.now) room.new ≡ places_of list.now prefix.now }
{
    for slot in 0..prefix.len() {
        room[slot] = place_of(list, prefix[slot]);
    }
}

/// Whether the prefix is valid.
pub(crate) fn is_valid_prefix(problem: &Problem, list: &[Proto], prefix: &[Proto]) -> bool
    requires list { AreProtocols problem.now list.now }
    requires limits { IsWithinLimits problem.now }
    ensures { result ≡ is_valid problem.now (places_of list.now prefix.now) }
{
    let mut room = [0; MOST_SLOTS];
    if prefix.len() > MOST_SLOTS {
        return false;
    }
    fill_places(list, prefix, &mut room);
    problem.is_valid(list, &room[..prefix.len()])
}

/// The bound of a valid prefix.
pub(crate) fn bound_of_prefix(problem: &Problem, list: &[Proto], prefix: &[Proto]) -> u64
    requires list { AreProtocols problem.now list.now }
    requires limits { IsWithinLimits problem.now }
    requires valid { IsTrue (is_valid problem.now (places_of list.now prefix.now)) }
    ensures { pos result ≡ low problem.now (places_of list.now prefix.now) }
{
    let mut room = [0; MOST_SLOTS];
    fill_places(list, prefix, &mut room);
    lower_bound(problem, list, &room[..prefix.len()])
}

/// The bound of a valid prefix under shifts, by their tables.
pub(crate) fn high_of_prefix(
    problem: &Problem,
    list: &[Proto],
    tables: &Tables,
    prefix: &[Proto],
) -> i64
    requires list { AreProtocols problem.now list.now }
    requires tables { AreTables problem.now tables.now }
    requires valid { IsTrue (is_valid problem.now (places_of list.now prefix.now)) }
    ensures { result ≡ high problem.now tables.now.shifts (places_of list.now prefix.now) }
{
    let mut room = [0; MOST_SLOTS];
    fill_places(list, prefix, &mut room);
    high_bound(problem, tables, &room[..prefix.len()])
}
