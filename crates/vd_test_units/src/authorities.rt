//! The authorities of protocols.

ghost use Rattle.std.specs.Prelude.{IsTrue};
ghost use Rattle.vd_base.specs.Holders.{HasHosts};

use std::alloc::Global;
use std::test::Fail;
use vd_base::{HostId, HostSet, Items, Proto};
use vd_formula::{Formula, Label};
use vd_protocol::authority;

/// Whether the hosts of the protocol are among the first three.
#[tactic(auto, using(crate::proofs::ThreeHosts::one_of_three, crate::proofs::ThreeHosts::copies_of_three, crate::proofs::ThreeHosts::two_of_three))]
fn is_of_three(protocol: Proto) -> bool
    ensures { IsTrue result → HasHosts 3 protocol }
{
    match protocol {
        Proto::Local(host) => host.0 < 3,
        Proto::Rep(set) => set.bits < 8,
        Proto::Commit(first, second) | Proto::Add(first, second) | Proto::Xor(first, second) => {
            first.0 < 3 && second.0 < 3
        }
    }
}

/// The authority over three hosts, where host number i has the label {i ; i}.
#[tactic(auto, using(crate::proofs::ThreeHosts::three_over))]
fn authority_of_three(alloc: Global, protocol: Proto) -> Result<Label, Fail> {
    if !is_of_three(protocol) {
        return Err("no such host".into());
    }
    let first = Formula::name(0, 3);
    let second = Formula::name(1, 3);
    let third = Formula::name(2, 3);
    let labels = [
        Label {
            conf: first,
            integ: first,
        },
        Label {
            conf: second,
            integ: second,
        },
        Label {
            conf: third,
            integ: third,
        },
    ];
    let hosts = Items::from_slice(alloc, labels.as_slice())?;
    Ok(authority(protocol, &hosts))
}

/// For each protocol the minimal sets of both parts of its authority.
#[test]
fn authorities_are_those_of_the_table(rt: HostRuntime) -> Result<(), Fail> {
    let alloc = rt.alloc();
    let (alice, bob, carol) = (HostId(0), HostId(1), HostId(2));
    let table: [(Proto, &[u8], &[u8]); 8] = [
        (Proto::Local(bob), &[2], &[2]),
        (Proto::Rep(HostSet { bits: 0b101 }), &[1, 4], &[5]),
        (Proto::Rep(HostSet { bits: 0b111 }), &[1, 2, 4], &[7]),
        (Proto::Commit(alice, carol), &[1], &[5]),
        (Proto::Commit(carol, alice), &[4], &[5]),
        (Proto::Add(alice, bob), &[3], &[1, 2]),
        (Proto::Xor(alice, bob), &[3], &[1, 2]),
        (Proto::Xor(bob, carol), &[6], &[2, 4]),
    ];
    for (at, conf, integ) in table {
        let label = authority_of_three(alloc, at)?;
        assert_eq!(rt; label.conf.minimal_sets(alloc)?.as_slice(), conf);
        assert_eq!(rt; label.integ.minimal_sets(alloc)?.as_slice(), integ);
    }
    Ok(())
}
