ghost use Rattle.std.specs.Prelude.{◌≡◌, ◌≤◌, IfOk, length};

use crate::base_lists::Items;
use crate::{HostId, HostSet};
use std::alloc::{AllocError, Global};

impl HostSet {
    ghost use Rattle.vd_base.specs.HostSets.{has_host, is_pair, members, outside, size};

    /// Whether the host is in the set.
    pub fn has(self, host: HostId) -> bool
        ensures { result ≡ has_host self host }
    {
        let bits = self.bits;
        host.0 < 8 && bits >> u32::from(host.0) & 1 == 1
    }

    /// The number of hosts in the set.
    pub fn size(self) -> u32
        ensures size { result ≡ size self }
        ensures small { result ≤ 8 }
    {
        self.bits.count_ones()
    }

    /// The hosts of the set, in order.
    #[tactic(auto, using(crate::proofs::Members::few_hosts))]
    pub fn members(self, alloc: Global) -> Result<Items<HostId>, AllocError>
        ensures exact { IfOk result (λ hosts. hosts ≡ members 8 self) }
        ensures few { IfOk result (λ hosts. length hosts ≤ 8) }
    {
        let mut hosts = Items::new(alloc);
        for number in 0..8 {
            let host = HostId(number);
            if self.has(host) {
                hosts.push(host)?;
            }
        }
        Ok(hosts)
    }

    /// The hosts of this set that are not in the other.
    pub fn outside(self, other: HostSet) -> HostSet
        ensures { result ≡ outside self other }
    {
        HostSet {
            bits: self.bits & !other.bits,
        }
    }

    /// Whether these two hosts are its members.
    pub fn is_pair(self, first: HostId, second: HostId) -> bool
        ensures { result ≡ is_pair self first second }
    {
        self.has(first) && self.has(second) && self.size() == 2
    }
}
