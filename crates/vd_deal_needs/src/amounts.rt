//! How much to deal.

ghost use Rattle.std.specs.Prelude.{◌≡◌, ◌≤◌, length};
ghost use Rattle.vd_base.specs.Limits.{most_hosts};
ghost use Rattle.vd_deal_needs.specs.Sizes as spec;

use crate::taking::{HostNeeds, Shared};
use vd_tape::Counts;

/// Nothing of any kind.
const NOTHING: Shared = Shared {
    muls: 0,
    ands: 0,
    pairs: 0,
};

/// The greater number of each kind.
pub fn greater(first: Shared, second: Shared) -> Shared
    ensures { result ≡ spec.greater first second }
{
    Shared {
        muls: first.muls.max(second.muls),
        ands: first.ands.max(second.ands),
        pairs: first.pairs.max(second.pairs),
    }
}

/// The greatest number of each kind that is shared with one peer.
fn most_shared(list: &[Shared]) -> Shared
    ensures { result ≡ spec.most_shared list.now }
{
    let mut most = NOTHING;
    for shared in list {
        most = greater(most, *shared);
    }
    most
}

/// How much to deal so that each host and each two hosts have what the hosts' codes take. A deal has equally many items for each,
/// so it has the greatest number of each kind.
pub fn sizes(needs: &[HostNeeds]) -> Counts
    requires { length needs.now ≤ most_hosts }
    ensures { result ≡ spec.sizes_of needs.now }
{
    let mut own = 0;
    let mut most = NOTHING;
    for host in needs {
        own = own.max(host.own);
        most = greater(most, most_shared(host.shared.as_slice()));
    }
    Counts {
        hosts: needs.len() as u8,
        own,
        muls: most.muls,
        ands: most.ands,
        pairs: most.pairs,
    }
}
