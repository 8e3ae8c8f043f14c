ghost use Rattle.std.specs.Prelude.{◌≡◌};
ghost use Rattle.vd_duet.specs.Calls.{in_clear, register_of};

use vd_base::{HostId, Items};
use vd_execution::Reg;

/// A register of a host: it has a word in clear, or the host's part of a word that is shared or committed.
#[derive(Clone, Copy, PartialEq, Eq)]
pub struct Part(pub Reg);

/// The parts of a word, each with its host, in the order of the hosts.
pub type Parts = Items<(HostId, Part)>;

/// The operands of an operation.
pub type Args = Items<Parts>;

/// The register of a host's part.
pub fn register_at(x: &Parts, host: HostId) -> Reg
    ensures { result ≡ register_of (in_clear x.now) host.0 }
{
    for part in x.as_slice() {
        if host.0 == part.0.0 {
            return part.1.0;
        }
    }
    Reg(0)
}
