//! The lines that name the hosts that a host depends on.

ghost use Rattle.std.specs.Prelude.{◌≡◌, ◌++◌, ◌∷◌, ◌≤◌, ◌&&◌, [], IfOk, OnOk, filter, flat_map, if◌then◌else◌, length, not};
ghost use Rattle.vd_base.specs.HostSets.{has_host, hosts, members};
ghost use Rattle.vd_base.specs.Limits.{most_hosts};
ghost use Rattle.vd_cmd_depends.specs.Depending.{hosts_line, in_some, joined_names, name_field, other_name};
ghost use Rattle.vd_cmd_depends.specs.Influencing.{hosts_field, influence_line, lacked};
ghost use Rattle.vd_report.specs.Lines.{number_field};

use itoa::Buffer;
use std::alloc::{AllocError, Global};
use vd_base::{Bytes, HostId, HostSet, Items, Names};
use vd_report::name_of;

/// The hosts of a group in one word, how many hosts some of them depends on, and their names in host order.
pub(crate) fn hosts_text(
    alloc: Global,
    names: &Names,
    group: &[HostId],
    sets: &[HostSet],
) -> Result<Bytes, AllocError>
    requires { length names.now ≤ most_hosts }
    ensures { IfOk result (λ text. text ≡ hosts_line names.now group.now sets.now) }
{
    let list = in_some(alloc, names, sets)?;
    let mut text = Bytes::new(alloc);
    push_group(&mut text, names, group)?;
    push_number(&mut text, list.as_slice().len() as u64)?;
    push_names(&mut text, names, list.as_slice())?;
    text.push(b'\n')?;
    Ok(text)
}

/// A host, how many hosts' inputs bear on its outputs, and their names; then the same of those that `direct` lacks.
pub(crate) fn influence_text(
    alloc: Global,
    names: &Names,
    host: HostId,
    all: HostSet,
    direct: HostSet,
) -> Result<Bytes, AllocError>
    requires { length names.now ≤ most_hosts }
    ensures { IfOk result (λ text. text ≡ influence_line names.now host all direct) }
{
    let reached = members(alloc, names, all)?;
    let endorsed = lacked(alloc, names, all, direct)?;
    let mut text = Bytes::new(alloc);
    text.extend_from_slice(name_of(names, usize::from(host.0)))?;
    push_hosts(&mut text, names, reached.as_slice())?;
    push_hosts(&mut text, names, endorsed.as_slice())?;
    text.push(b'\n')?;
    Ok(text)
}

/// Puts how many hosts these are at the end, and their names.
fn push_hosts(text: &mut Bytes, names: &Names, list: &[HostId]) -> Result<(), AllocError>
    ensures { OnOk result (text.new ≡ text.old ++ hosts_field names.now list.now) }
{
    push_number(text, list.len() as u64)?;
    push_names(text, names, list)
}

/// The named hosts that the one set has and the other lacks, in order.
fn lacked(
    alloc: Global,
    names: &Names,
    all: HostSet,
    direct: HostSet,
) -> Result<Items<HostId>, AllocError>
    requires { length names.now ≤ most_hosts }
    ensures { IfOk result (λ list. list ≡ lacked (length names.now) all direct) }
{
    let mut list = Items::new(alloc);
    for place in 0..names.as_slice().len() as u8 {
        push_lacked(&mut list, all, direct, HostId(place))?;
    }
    Ok(list)
}

/// Puts the host at the end, if the one set has it and the other lacks it.
fn push_lacked(
    list: &mut Items<HostId>,
    all: HostSet,
    direct: HostSet,
    host: HostId,
) -> Result<(), AllocError>
    ensures { OnOk result (list.new ≡ list.old ++ (if has_host all host && not (has_host direct host) then host ∷ [] else [])) }
{
    if all.has(host) && !direct.has(host) {
        list.push(host)?;
    }
    Ok(())
}

/// The members of the set among the named hosts, in order.
fn members(alloc: Global, names: &Names, set: HostSet) -> Result<Items<HostId>, AllocError>
    requires { length names.now ≤ most_hosts }
    ensures { IfOk result (λ list. list ≡ members (length names.now) set) }
{
    let mut list = Items::new(alloc);
    for place in 0..names.as_slice().len() as u8 {
        push_member(&mut list, set, HostId(place))?;
    }
    Ok(list)
}

/// Puts the host at the end, if it is a member of the set.
fn push_member(list: &mut Items<HostId>, set: HostSet, host: HostId) -> Result<(), AllocError>
    ensures { OnOk result (list.new ≡ list.old ++ (if has_host set host then host ∷ [] else [])) }
{
    if set.has(host) {
        list.push(host)?;
    }
    Ok(())
}

/// The named hosts that some of these sets has, in order.
fn in_some(alloc: Global, names: &Names, sets: &[HostSet]) -> Result<Items<HostId>, AllocError>
    requires { length names.now ≤ most_hosts }
    ensures { IfOk result (λ list. list ≡ filter (in_some sets.now) (hosts (length names.now))) }
{
    let mut list = Items::new(alloc);
    for place in 0..names.as_slice().len() as u8 {
        push_in_some(&mut list, sets, HostId(place))?;
    }
    Ok(list)
}

/// Puts the host at the end, if some of these sets has it.
fn push_in_some(list: &mut Items<HostId>, sets: &[HostSet], host: HostId) -> Result<(), AllocError>
    ensures { OnOk result (list.new ≡ list.old ++ (if in_some sets.now host then host ∷ [] else [])) }
{
    if some_has(sets, host) {
        list.push(host)?;
    }
    Ok(())
}

/// Whether some of these sets has the host.
fn some_has(sets: &[HostSet], host: HostId) -> bool
    ensures { result ≡ in_some sets.now host }
{
    sets.iter().any(|set| set.has(host))
}

/// Puts the names of these hosts at the end, with commas between them.
fn push_group(text: &mut Bytes, names: &Names, group: &[HostId]) -> Result<(), AllocError>
    ensures { OnOk result (text.new ≡ text.old ++ joined_names names.now group.now) }
{
    let [first, others @ ..] = group else {
        return Ok(());
    };
    text.extend_from_slice(name_of(names, usize::from(first.0)))?;
    push_others(text, names, others)
}

/// Puts the names of these hosts at the end, each behind a comma.
fn push_others(text: &mut Bytes, names: &Names, others: &[HostId]) -> Result<(), AllocError>
    ensures { OnOk result (text.new ≡ text.old ++ flat_map (other_name names.now) others.now) }
{
    for host in others {
        push_other(text, names, *host)?;
    }
    Ok(())
}

/// Puts the name of a host at the end, behind a comma.
fn push_other(text: &mut Bytes, names: &Names, host: HostId) -> Result<(), AllocError>
    ensures { OnOk result (text.new ≡ text.old ++ other_name names.now host) }
{
    text.push(b',')?;
    text.extend_from_slice(name_of(names, usize::from(host.0)))
}

/// Puts the names of these hosts at the end, each behind a space.
fn push_names(text: &mut Bytes, names: &Names, list: &[HostId]) -> Result<(), AllocError>
    ensures { OnOk result (text.new ≡ text.old ++ flat_map (name_field names.now) list.now) }
{
    for host in list {
        push_name(text, names, *host)?;
    }
    Ok(())
}

/// Puts the name of a host at the end, behind a space.
fn push_name(text: &mut Bytes, names: &Names, host: HostId) -> Result<(), AllocError>
    ensures { OnOk result (text.new ≡ text.old ++ name_field names.now host) }
{
    text.push(b' ')?;
    text.extend_from_slice(name_of(names, usize::from(host.0)))
}

/// Puts a number at the end, behind a space.
fn push_number(text: &mut Bytes, number: u64) -> Result<(), AllocError>
    ensures { OnOk result (text.new ≡ text.old ++ number_field number) }
{
    text.push(b' ')?;
    text.extend_from_slice(Buffer::new().format(number).as_bytes())
}
