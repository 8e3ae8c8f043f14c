//! Texts that are cut at each of their bytes, blocks in each other, and the entries of schedules.

use std::alloc::{AllocError, Global};
use std::test::Fail;
use vd_base::{Bytes, FileFault, HostId, Items, Names};
use vd_hostcode::{CodeFault, read};
use vd_report::{Schedule, read_schedule};
use vd_tape::read_deal;

/// The host of two that sends its input.
const ALICE: &[u8] = b"viaduct-host 1
hosts alice bob
me 0
plan 46a0b4966583c61b4eb11a84e30c7ffb907dcb7e8afa7a4bf67d4030dfc650b6
input 0
send 1 0
end
";

/// The host that prints it.
const BOB: &[u8] = b"viaduct-host 1
hosts alice bob
me 1
plan 46a0b4966583c61b4eb11a84e30c7ffb907dcb7e8afa7a4bf67d4030dfc650b6
recv 0 0
print 0
end
";

/// Why the program of a host is refused; nothing where it is read.
fn program_fault(alloc: Global, file: &[u8]) -> Option<CodeFault> {
    read(alloc, file).err()
}

#[test]
fn each_proper_prefix_of_a_program_is_refused_at_its_length(rt: HostRuntime) {
    for file in [ALICE, BOB] {
        for len in 0..file.len() {
            let fault = program_fault(rt.alloc(), &file[..len]);
            assert_eq!(rt; fault, Some(CodeFault::Text(len as u32)));
        }
    }
}

/// The heading of the first host of two.
const HEADING: &[u8] = b"viaduct-host 1
hosts alice bob
me 0
plan 46a0b4966583c61b4eb11a84e30c7ffb907dcb7e8afa7a4bf67d4030dfc650b6
";

/// A program of so many branches, each in the first part of the one around it.
fn branches(alloc: Global, count: u32) -> Result<Bytes, AllocError> {
    let mut file = Bytes::from_slice(alloc, HEADING)?;
    for _ in 0..count {
        file.extend_from_slice(b"if 0\n")?;
    }
    for _ in 0..count {
        file.extend_from_slice(b"else\nend\n")?;
    }
    file.extend_from_slice(b"end\n")?;
    Ok(file)
}

/// How many branches stand in each other, and why such a program is refused.
const NESTED: [(u32, Option<CodeFault>); 2] = [(512, None), (513, Some(CodeFault::Range(512)))];

#[test]
fn open_blocks_are_counted(rt: HostRuntime) -> Result<(), Fail> {
    for (count, wanted) in NESTED {
        let file = branches(rt.alloc(), count)?;
        assert_eq!(rt; program_fault(rt.alloc(), file.as_slice()), wanted);
    }
    Ok(())
}

/// The deal of one host with four own words.
const DEAL: &[u8] = b"viaduct-deal 1 1 0\nown 4 2917185654 2419978656 3848953152 683509331\n";

/// The offset at which a deal to one host is refused.
fn deal_fault(alloc: Global, bytes: &[u8]) -> Option<u32> {
    match read_deal(alloc, bytes, 1, HostId(0)) {
        Err(FileFault::Text(at)) => Some(at),
        _ => None,
    }
}

#[test]
fn each_proper_prefix_of_a_deal_is_refused_at_its_length(rt: HostRuntime) {
    for len in 0..DEAL.len() {
        assert_eq!(rt; deal_fault(rt.alloc(), &DEAL[..len]), Some(len as u32));
    }
}

fn two_hosts(alloc: Global) -> Result<Names, AllocError> {
    let mut hosts = Items::new(alloc);
    for name in [b"alice".as_slice(), b"bob".as_slice()] {
        hosts.push(Bytes::from_slice(alloc, name)?)?;
    }
    Ok(hosts)
}

/// The schedule that a text is for at most four hosts; nothing where it is none.
fn schedule_of(alloc: Global, text: &str, hosts: &Names) -> Option<Schedule> {
    if hosts.as_slice().len() > 4 {
        return None;
    }
    read_schedule(alloc, text.as_bytes(), hosts).ok()
}

/// Whether a schedule has these entries, and goes on in turns or not.
fn is_schedule(schedule: &Option<Schedule>, entries: &[HostId], all: bool) -> bool {
    match schedule {
        Some(schedule) => schedule.entries.as_slice() == entries && schedule.all == all,
        None => false,
    }
}

/// Texts, their entries, and whether rounds of all follow.
const SCHEDULES: [(&str, &[HostId], bool); 5] = [
    ("", &[], false),
    (
        "bob bob\tbob\r\n",
        &[HostId(1), HostId(1), HostId(1)],
        false,
    ),
    ("alice bob all", &[HostId(0), HostId(1)], true),
    ("all", &[], true),
    ("alice all \n", &[HostId(0)], true),
];

#[test]
fn schedules_are_read(rt: HostRuntime) -> Result<(), Fail> {
    let hosts = two_hosts(rt.alloc())?;
    for (text, entries, all) in SCHEDULES {
        let schedule = schedule_of(rt.alloc(), text, &hosts);
        assert!(rt; is_schedule(&schedule, entries, all), "{text}");
    }
    Ok(())
}
