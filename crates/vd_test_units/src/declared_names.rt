//! Names that a source declares.

use std::alloc::{AllocError, Global};
use std::test::Fail;
use vd_base::{Items, Name, Span};
use vd_core::{Host, Ident, Source, WrittenForm, WrittenLabel, has_names};

fn ident(alloc: Global, name: &str) -> Result<Ident, AllocError> {
    let name = Name::from_slice(alloc, name.as_bytes())?;
    let span = Span { start: 0, end: 1 };
    Ok(Ident { name, span })
}

fn host(alloc: Global, name: &str) -> Result<Host, AllocError> {
    let name = ident(alloc, name)?;
    let label = WrittenLabel {
        conf: WrittenForm::Any,
        integ: WrittenForm::Any,
    };
    Ok(Host { name, label })
}

fn principals(alloc: Global, names: &[&str]) -> Result<Items<Ident>, AllocError> {
    let mut principals = Items::new(alloc);
    for name in names {
        let principal = ident(alloc, name)?;
        principals.push(principal)?;
    }
    Ok(principals)
}

fn hosts(alloc: Global, names: &[&str]) -> Result<Items<Host>, AllocError> {
    let mut hosts = Items::new(alloc);
    for name in names {
        let host = host(alloc, name)?;
        hosts.push(host)?;
    }
    Ok(hosts)
}

/// A source of these principals and hosts, and of no statements.
fn source(alloc: Global, principals: Items<Ident>, hosts: Items<Host>) -> Source {
    Source {
        principals,
        hosts,
        functions: Items::new(alloc),
        main: Items::new(alloc),
    }
}

/// Whether a source of these principals and hosts has names.
fn are_names(
    alloc: Global,
    principal_names: &[&str],
    host_names: &[&str],
) -> Result<bool, AllocError> {
    let principals = principals(alloc, principal_names)?;
    let hosts = hosts(alloc, host_names)?;
    Ok(has_names(&source(alloc, principals, hosts)))
}

/// The names of principals, those of hosts, and whether they are names of a source.
const NAMES: [(&[&str], &[&str], bool); 5] = [
    (&["A", "B"], &["alice"], true),
    (&[], &["alice"], false),
    (&["A"], &[], false),
    (&["A", "1"], &["alice"], false),
    (&["A"], &["alice", "host"], false),
];

#[test]
fn names_of_principals_and_hosts_are_looked_at(rt: HostRuntime) -> Result<(), Fail> {
    for (principals, hosts, wanted) in NAMES {
        let found = are_names(rt.alloc(), principals, hosts)?;
        assert_eq!(rt; found, wanted, "{principals:?} {hosts:?}");
    }
    Ok(())
}
