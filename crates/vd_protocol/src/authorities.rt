ghost use Rattle.std.specs.Prelude.{◌≡◌, ◌<◌, ◌≤◌, length};
ghost use Rattle.vd_base.specs.Limits.{most_hosts};
ghost use Rattle.vd_base.specs.Holders.{HasHosts};
ghost use Rattle.vd_protocol.specs.Authority.{AreOverSameNames, IsOver, authority_of, committed_of, copies_of, names_of, shared_of};

use vd_base::{HostId, HostSet, Items, Proto};
use vd_formula::{Formula, Label};

/// The label of each host, in order.
pub type HostLabels = Items<Label>;

/// The label that the hosts of a protocol have together.
pub fn authority(protocol: Proto, hosts: &HostLabels) -> Label
    requires some { 0 < length hosts.now }
    requires few { length hosts.now ≤ most_hosts }
    requires names { AreOverSameNames hosts.now }
    requires declared { HasHosts (length hosts.now) protocol }
    ensures authority { result ≡ authority_of protocol hosts.now }
    ensures names { IsOver (names_of hosts.now) result }
{
    authority_among(protocol, hosts.as_slice())
}

fn authority_among(protocol: Proto, hosts: &[Label]) -> Label
    requires some { 0 < length hosts.now }
    requires few { length hosts.now ≤ most_hosts }
    requires names { AreOverSameNames hosts.now }
    requires declared { HasHosts (length hosts.now) protocol }
    ensures { result ≡ authority_of protocol hosts.now }
{
    match protocol {
        Proto::Local(host) => hosts[host.0 as usize],
        Proto::Rep(set) => copies(set, hosts),
        Proto::Commit(prover, verifier) => committed(
            &hosts[prover.0 as usize],
            &hosts[verifier.0 as usize],
        ),
        Proto::Add(first, second) | Proto::Xor(first, second) => shared(
            &hosts[first.0 as usize],
            &hosts[second.0 as usize],
        ),
    }
}

/// Of copies at some hosts: who may read one copy may read the value, and who is trusted by all is trusted with it.
fn copies(set: HostSet, hosts: &[Label]) -> Label
    requires some { 0 < length hosts.now }
    requires few { length hosts.now ≤ most_hosts }
    requires names { AreOverSameNames hosts.now }
    ensures { result ≡ copies_of set hosts.now }
{
    let names = hosts[0].conf.names();
    let mut conf = Formula::never(names);
    let mut integ = Formula::any(names);
    for (host, label) in hosts.iter().enumerate() {
        if set.has(HostId(host as u8)) {
            conf = conf.either(&label.conf);
            integ = integ.both(&label.integ);
        }
    }
    Label { conf, integ }
}

/// Of a commitment: the prover alone can read the value, and both vouch for it.
fn committed(prover: &Label, verifier: &Label) -> Label
    requires { prover.now.integ.names ≡ verifier.now.integ.names }
    ensures { result ≡ committed_of prover.now verifier.now }
{
    Label {
        conf: prover.conf,
        integ: prover.integ.both(&verifier.integ),
    }
}

/// Of shares: both hosts together can read the value, and each of them can change it.
fn shared(first: &Label, second: &Label) -> Label
    requires conf { first.now.conf.names ≡ second.now.conf.names }
    requires integ { first.now.integ.names ≡ second.now.integ.names }
    ensures { result ≡ shared_of first.now second.now }
{
    Label {
        conf: first.conf.both(&second.conf),
        integ: first.integ.either(&second.integ),
    }
}
