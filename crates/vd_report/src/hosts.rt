//! Hosts by name.

ghost use Rattle.std.specs.Prelude.{◌≡◌, [], slice_index_or};
ghost use Rattle.vd_report.specs.Hosts as hosts_spec;

use vd_base::Names;

/// The number of the host with this name.
pub fn host_of(hosts: &Names, name: &[u8]) -> Option<usize>
    ensures { result ≡ hosts_spec.host_of hosts.now name.now }
{
    hosts.iter().position(|host| host.as_slice() == name)
}

/// The name of the host with this number; empty where there is none.
pub fn name_of(hosts: &Names, host: usize) -> &[u8]
    ensures { result.now ≡ slice_index_or hosts.now host [] }
{
    match hosts.as_slice().get(host) {
        Some(name) => name.as_slice(),
        None => &[],
    }
}
