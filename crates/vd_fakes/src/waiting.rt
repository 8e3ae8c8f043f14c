ghost use Rattle.std.specs.Prelude.{◌≡◌, None, MatchOption};
ghost use Rattle.vd_outside.specs.Net.{link_at, without_link_at};
ghost use Rattle.vd_fakes.specs.Waiting.{FirstWaits, IsTakenOut, NoneWaits};

use vd_base::{Items, Text};

/// Takes the first link that waits at an address.
pub(crate) fn take_link<L: Drop>(waiting: &mut Items<(Text, L)>, address: &str) -> Option<L>
    ensures link { result ≡ link_at address.now waiting.old None }
    ensures rest { waiting.new ≡ without_link_at address.now waiting.old }
{
    let place = place_at(waiting.as_slice(), address)?;
    Some(waiting.remove(place).1)
}

/// The place of the first link that waits at an address.
fn place_at<L: Drop>(waiting: &[(Text, L)], address: &str) -> Option<usize>
    ensures link { MatchOption result (NoneWaits address.now waiting.now) (FirstWaits address.now waiting.now) }
    ensures rest { MatchOption result (without_link_at address.now waiting.now ≡ waiting.now) (IsTakenOut address.now waiting.now) }
{
    for (place, link) in waiting.iter().enumerate() {
        if link.0.as_str().as_bytes() == address.as_bytes() {
            return Some(place);
        }
    }
    None
}
