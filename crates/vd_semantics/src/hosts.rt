//! The hosts of a source, by their names.

ghost use Rattle.std.specs.Prelude.{◌≡◌};
ghost use Rattle.vd_base.specs.Names.{place_of};
ghost use Rattle.vd_semantics.specs.SourceMeaning.{host_names};

use vd_core::Host;

/// The place of a host, or the number of hosts where none has the name.
pub fn place(hosts: &[Host], name: &[u8]) -> usize
    ensures { result ≡ place_of (host_names hosts.now) name.now }
{
    for (at, host) in hosts.iter().enumerate() {
        if host.name.name.as_slice() == name {
            return at;
        }
    }
    hosts.len()
}
