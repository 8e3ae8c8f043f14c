//! Which plans are told of a greeting that is refused for its plan.

use std::alloc::{AllocError, Global};
use std::test::Fail;
use vd_base::{Bytes, HostId};
use vd_fakes::SureLink;
use vd_link::{Digest, GreetFault, Session};

/// The plan of this host, and that of the other.
const PLAN: Digest = [7u8; 32];

const OTHER: Digest = [8u8; 32];

/// A link on which the other plan's greeting comes, of host 2 to host 3.
fn link_of_another_plan(alloc: Global) -> Result<SureLink, AllocError> {
    let mut incoming = Bytes::from_slice(alloc, &[0x47, 1])?;
    incoming.extend_from_slice(&OTHER)?;
    incoming.extend_from_slice(&[2, 3])?;
    SureLink::new(alloc, incoming, 36)
}

/// Why host 1 refuses what comes as the greeting of host 0; nothing where it does not, or where there is no memory.
fn refusal(alloc: Global, link: SureLink) -> Option<GreetFault> {
    let session = Session::new(alloc, link, HostId(1), HostId(0), PLAN).ok()?;
    match session.greet() {
        Ok(_session) => None,
        Err((_session, fault)) => Some(fault),
    }
}

#[test]
fn both_plans_are_told(rt: HostRuntime) -> Result<(), Fail> {
    let link = link_of_another_plan(rt.alloc())?;
    let wanted = GreetFault::WrongProgram(PLAN, OTHER);
    assert_eq!(rt; refusal(rt.alloc(), link), Some(wanted));
    Ok(())
}
