//! The reader of the lines before the code, and of the whole file.

ghost use Rattle.std.specs.Prelude.{◌≡◌, ◌≤◌, IfOk, length};
ghost use Rattle.std.specs.List.{list_any};
ghost use Rattle.std.specs.Str.{bytes_eq};
ghost use Rattle.vd_base.specs.Limits.{most_hosts};
ghost use Rattle.vd_base_codec.specs.Reading.{Gives, GivesOrMemory};
ghost use Rattle.vd_base.specs.Names as names;
ghost use Rattle.vd_hostcode.specs.Heading as heading;
ghost use Rattle.vd_hostcode.specs.HostTextOutcome as outcome;

use crate::host_text::blocks::Arrays;
use crate::host_text::program::{Digest, HostProgram};
use crate::host_text::reading::{read_code, stands_at};
use std::alloc::Global;
use vd_base::limits::HOSTS;
use vd_base::{HostId, Name, Names, is_letter, is_name, word_len};
use vd_base_codec::{CodecFault, Cursor, Stopped, read_key};

/// Whether instructions on arrays may come, by the number of the format.
fn version(byte: u8) -> Option<Arrays>
    ensures { result ≡ heading.version_of byte }
{
    match byte {
        b'1' => Some(Arrays::Never),
        b'2' => Some(Arrays::Owed),
        _ => None,
    }
}

/// The byte of the number of the format.
#[tactic(auto, using(crate::proofs::HostSteps::one_none, crate::proofs::HostSteps::one_other, crate::proofs::HostSteps::one_found, crate::proofs::HostSteps::one_there))]
fn read_version_byte(cursor: &mut Cursor) -> Result<Arrays, Stopped>
    ensures { Gives result cursor.new (heading.one_at heading.version_of cursor.old) }
{
    let Some(byte) = cursor.first() else {
        return Err(Stopped);
    };
    let Some(arrays) = version(byte) else {
        return Err(Stopped);
    };
    cursor.skip(1);
    Ok(arrays)
}

/// The number of the format.
#[tactic(auto, unfolding(crate::specs::HostTextOutcome::version_at))]
fn read_version(cursor: &mut Cursor) -> Result<Arrays, Stopped>
    ensures { Gives result cursor.new (outcome.version_at cursor.old) }
{
    cursor.literal(b"viaduct-host ")?;
    read_version_byte(cursor)
}

/// Whether one of these is this name.
fn contains(known: &[Name], name: &Name) -> bool
    ensures { result ≡ list_any (λ other. bytes_eq other name.now) known.now }
{
    known.iter().any(|other| *other == *name)
}

/// Whether a name is one of these.
fn is_among(known: &[Name], name: &Name) -> bool
    ensures { result ≡ names.is_among known.now name.now }
{
    contains(known, name)
}

/// A name that is none of those before it.
#[tactic(auto, unfolding(crate::specs::Heading::name_at))]
fn read_name(alloc: Global, cursor: &mut Cursor, earlier: &[Name]) -> Result<Name, CodecFault>
    ensures { GivesOrMemory result cursor.new (heading.name_at earlier.now cursor.old) }
{
    let letter = cursor.first().is_some_and(|byte| is_letter(byte));
    if !letter {
        return Err(CodecFault::Stopped);
    }
    let len = word_len(cursor.as_slice());
    let name = Name::from_slice(alloc, &cursor.as_slice()[..len])?;
    cursor.skip(len);
    if is_name(name.as_slice()) && !is_among(earlier, &name) {
        Ok(name)
    } else {
        Err(CodecFault::Stopped)
    }
}

/// A name behind a space.
fn read_next_name(alloc: Global, cursor: &mut Cursor, earlier: &[Name]) -> Result<Name, CodecFault>
    ensures { GivesOrMemory result cursor.new (heading.next_name_at earlier.now cursor.old) }
{
    cursor.byte(b' ')?;
    read_name(alloc, cursor, earlier)
}

/// The names of the hosts.
fn read_hosts(alloc: Global, cursor: &mut Cursor) -> Result<Names, CodecFault>
    ensures names { GivesOrMemory result cursor.new (heading.hosts_at cursor.old) }
    ensures some { IfOk result (λ hosts. 1 ≤ length hosts) }
    ensures few { IfOk result (λ hosts. length hosts ≤ most_hosts) }
{
    let mut hosts = Names::new(alloc);
    let first = read_next_name(alloc, cursor, hosts.as_slice())?;
    hosts.push(first)?;
    'names: while hosts.as_slice().len() < HOSTS as usize && stands_at(cursor, b' ') {
        let next = read_next_name(alloc, cursor, hosts.as_slice())?;
        hosts.push(next)?;
    }
    Ok(hosts)
}

/// The line of names.
#[tactic(auto, unfolding(crate::specs::HostTextOutcome::names_line_at))]
fn read_names_line(alloc: Global, cursor: &mut Cursor) -> Result<Names, CodecFault>
    ensures names { GivesOrMemory result cursor.new (outcome.names_line_at cursor.old) }
    ensures some { IfOk result (λ hosts. 1 ≤ length hosts) }
    ensures few { IfOk result (λ hosts. length hosts ≤ most_hosts) }
{
    cursor.literal(b"\nhosts")?;
    read_hosts(alloc, cursor)
}

/// The digest of the plan, with the end of its line.
#[tactic(auto, unfolding(crate::specs::Heading::plan_at))]
fn read_plan(cursor: &mut Cursor) -> Result<[u8; 32], Stopped>
    ensures { Gives result cursor.new (heading.plan_at cursor.old) }
{
    cursor.literal(b"\nplan ")?;
    let bytes = read_key(cursor)?;
    cursor.byte(b'\n')?;
    Ok(bytes)
}

/// The line of the own number among so many hosts.
#[tactic(auto, unfolding(crate::specs::HostTextOutcome::me_at))]
fn read_me(cursor: &mut Cursor, hosts: usize) -> Result<u8, Stopped>
    requires some { 1 ≤ hosts }
    requires few { hosts ≤ most_hosts }
    ensures { Gives result cursor.new (outcome.me_at hosts cursor.old) }
{
    cursor.literal(b"\nme")?;
    let number = cursor.field(hosts as u32 - 1)?;
    Ok(number as u8)
}

/// The whole file up to its last line.
#[tactic(auto, unfolding(crate::specs::HostTextOutcome::program_at))]
pub(crate) fn read_program(alloc: Global, cursor: &mut Cursor) -> Result<HostProgram, CodecFault>
    ensures { GivesOrMemory result cursor.new (outcome.program_at cursor.old) }
{
    let arrays = read_version(cursor)?;
    let hosts = read_names_line(alloc, cursor)?;
    let me = read_me(cursor, hosts.as_slice().len())?;
    let plan = read_plan(cursor)?;
    let code = read_code(alloc, cursor, arrays)?;
    Ok(HostProgram {
        hosts,
        me: HostId(me),
        plan: Digest { bytes: plan },
        code,
    })
}
