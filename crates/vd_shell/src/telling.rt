//! What a person is told of a run besides its line.

ghost use Rattle.std.specs.Prelude.{◌≡◌, ◌∷◌, ◌++◌, [], IfOk, None, OnOk, codes, option_map, string_bytes};
ghost use Rattle.vd_shell.specs.Reasons.{reason_line, sent_text};
ghost use Rattle.vd_shell.specs.Telling.{Tells, anew_text, child_lines, child_text, fault_lines, file_lines, host_at, lines_of, link_lines, mark_lines};
ghost use Rattle.vd_shell.specs.Telling.{passed_text, peer_of, peer_reason, plan_lines, plan_text, success_lines};

use crate::reasons::{
    tell_reason, text_of_first, text_of_packets, text_of_peer, text_of_plans, text_of_seal,
    text_of_sent,
};
use std::alloc::{AllocError, Global};
use vd_base::{Bytes, Text};
use vd_channel_link::SealFault;
use vd_cmd_plan::{HostStatus, Status};
use vd_edge::PeerReason;
use vd_outside::Sink;

/// What a person does then.
const DEAL_ANEW: &str =
    "a deal is used once, and the mark of this one stands beside it: take a new deal";

/// Why calls of the outside failed, as its objects know it after a run.
#[derive(Drop)]
pub struct Reasons {
    /// A call of the files.
    pub files: Option<Text>,
    /// A write of the output.
    pub written: Option<Text>,
    /// A mark of a deal.
    pub mark: Option<Text>,
    /// A sealed link.
    pub seal: Option<SealFault>,
    /// Something that was done for a peer.
    pub peer: Option<PeerReason>,
    /// The start of a program.
    pub started: Option<Text>,
    /// The number of the first host of a run that ended with a fault, and its status.
    pub first: Option<(usize, u32)>,
}

/// A copy of a reason, where there is one.
pub fn copy_text(alloc: Global, reason: Option<&str>) -> Result<Option<Text>, AllocError>
    ensures { IfOk result (λ copy. copy ≡ option_map (λ r. r.now) reason.entry) }
{
    match reason {
        Some(reason) => Ok(Some(Text::copy_of(alloc, reason)?)),
        None => Ok(None),
    }
}

/// A copy of an address, where there is one.
fn copy_address(alloc: Global, address: &Option<Text>) -> Result<Option<Text>, AllocError>
    ensures { IfOk result (λ copy. copy ≡ address.now) }
{
    match address {
        Some(address) => Ok(Some(Text::copy_of(alloc, address.as_str())?)),
        None => Ok(None),
    }
}

/// A copy of why something that was done for a peer failed, where that is known.
pub fn copy_reason(
    alloc: Global,
    reason: Option<&PeerReason>,
) -> Result<Option<PeerReason>, AllocError>
    ensures { IfOk result (λ copy. copy ≡ option_map (λ r. r.now) reason.entry) }
{
    match reason {
        Some(reason) => Ok(Some(PeerReason {
            call: reason.call,
            address: copy_address(alloc, &reason.address)?,
            cause: Text::copy_of(alloc, reason.cause.as_str())?,
        })),
        None => Ok(None),
    }
}

/// Tells a reason, where there is one.
#[tactic(auto, using(crate::proofs::InTurn::tells_one))]
fn tell_some<E: Sink>(
    alloc: Global,
    host: &Option<Bytes>,
    err: &mut E,
    reason: Option<&[u8]>,
) -> Result<(), AllocError>
    ensures { OnOk result (Tells (lines_of host.now (option_map (λ r. r.now) reason.entry)) (E.view err.old) (E.view err.new)) }
{
    match reason {
        Some(reason) => tell_reason(alloc, bytes_of(host), err, reason),
        None => Ok(()),
    }
}

/// The bytes of a name, where there is one.
fn bytes_of(name: &Option<Bytes>) -> Option<&[u8]>
    ensures { option_map (λ bytes. bytes.now) result ≡ name.now }
{
    match name {
        Some(name) => Some(name.as_slice()),
        None => None,
    }
}

/// The bytes of a reason, where there is one.
fn text_of(reason: &Option<Text>) -> Option<&[u8]>
    ensures { option_map (λ bytes. bytes.now) result ≡ reason.now }
{
    match reason {
        Some(reason) => Some(reason.as_str().as_bytes()),
        None => None,
    }
}

/// The peer that a status names.
fn peer_of(status: &Status) -> Option<&[u8]>
    ensures { option_map (λ name. name.now) result ≡ peer_of status.now }
{
    match status {
        Status::Host(HostStatus::PeerFault(name) | HostStatus::EndOfLink(name)) => {
            Some(name.as_slice())
        }
        _ => None,
    }
}

/// The name of the host with this number, where a status names the hosts of a run.
fn host_at(status: &Status, number: usize) -> Option<&[u8]>
    ensures { option_map (λ name. name.now) result ≡ host_at status.now number }
{
    match status {
        Status::ChildFault(names, _) => match names.as_slice().get(number) {
            Some(name) => Some(name.as_slice()),
            None => None,
        },
        _ => None,
    }
}

/// What a person does whose deal was used.
fn anew_text(status: &Status) -> Option<&[u8]>
    ensures { option_map (λ text. text.now) result ≡ anew_text status.now }
{
    match status {
        Status::DealUsed(_) => Some(DEAL_ANEW.as_bytes()),
        _ => None,
    }
}

/// Why something that was done for the peer of a status failed.
fn peer_reason(
    alloc: Global,
    status: &Status,
    reason: &Option<PeerReason>,
) -> Result<Option<Bytes>, AllocError>
    ensures { IfOk result (λ text. text ≡ peer_reason status.now reason.now) }
{
    match reason {
        Some(reason) => Ok(Some(text_of_peer(alloc, peer_of(status), reason)?)),
        None => Ok(None),
    }
}

/// Which plans met, where a status tells that they differ.
fn plan_reason(alloc: Global, status: &Status) -> Result<Option<Bytes>, AllocError>
    ensures { IfOk result (λ text. text ≡ plan_text status.now) }
{
    match status {
        Status::Host(HostStatus::WrongProgram(peer, ours, theirs)) => {
            let text = text_of_plans(alloc, peer.as_slice(), ours, theirs)?;
            Ok(Some(text))
        }
        _ => Ok(None),
    }
}

/// Which host of a run was the first to end with a fault, where one did.
fn first_reason(
    alloc: Global,
    status: &Status,
    first: Option<(usize, u32)>,
) -> Result<Option<Bytes>, AllocError>
    ensures { IfOk result (λ text. text ≡ child_text status.now None first) }
{
    match first {
        Some((number, ended)) => {
            let text = text_of_first(alloc, host_at(status, number), number, ended)?;
            Ok(Some(text))
        }
        None => Ok(None),
    }
}

/// Tells why files or the output failed.
fn tell_files<E: Sink>(
    alloc: Global,
    host: &Option<Bytes>,
    reasons: &Reasons,
    err: &mut E,
) -> Result<(), AllocError>
    ensures { OnOk result (Tells (file_lines host.now reasons.now) (E.view err.old) (E.view err.new)) }
{
    tell_some(alloc, host, err, text_of(&reasons.files))?;
    tell_some(alloc, host, err, text_of(&reasons.written))
}

/// Tells what became of a mark, and of a deal that has one.
fn tell_marks<E: Sink>(
    alloc: Global,
    host: &Option<Bytes>,
    status: &Status,
    reasons: &Reasons,
    err: &mut E,
) -> Result<(), AllocError>
    ensures { OnOk result (Tells (mark_lines host.now status.now reasons.now) (E.view err.old) (E.view err.new)) }
{
    tell_some(alloc, host, err, text_of(&reasons.mark))?;
    tell_some(alloc, host, err, anew_text(status))
}

/// Tells why a link failed.
fn tell_links<E: Sink>(
    alloc: Global,
    host: &Option<Bytes>,
    status: &Status,
    reasons: &Reasons,
    err: &mut E,
) -> Result<(), AllocError>
    ensures { OnOk result (Tells (link_lines host.now status.now reasons.now) (E.view err.old) (E.view err.new)) }
{
    let sealed = text_of_seal(alloc, reasons.seal)?;
    tell_some(alloc, host, err, bytes_of(&sealed))?;
    let peer = peer_reason(alloc, status, &reasons.peer)?;
    tell_some(alloc, host, err, bytes_of(&peer))
}

/// Tells which plans met, where they differ.
#[tactic(auto, using(crate::proofs::InTurn::tells_as))]
fn tell_plans<E: Sink>(
    alloc: Global,
    host: &Option<Bytes>,
    status: &Status,
    err: &mut E,
) -> Result<(), AllocError>
    ensures { OnOk result (Tells (plan_lines host.now status.now) (E.view err.old) (E.view err.new)) }
{
    let plans = plan_reason(alloc, status)?;
    tell_some(alloc, host, err, bytes_of(&plans))
}

/// Tells why no peer was met, or why the link to one failed.
#[tactic(auto, using(crate::proofs::InTurn::then_tells))]
fn tell_peers<E: Sink>(
    alloc: Global,
    host: &Option<Bytes>,
    status: &Status,
    reasons: &Reasons,
    err: &mut E,
) -> Result<(), AllocError>
    ensures { OnOk result (Tells (plan_lines host.now status.now ++ link_lines host.now status.now reasons.now)
        (E.view err.old) (E.view err.new)) }
{
    tell_plans(alloc, host, status, err)?;
    tell_links(alloc, host, status, reasons, err)
}

/// Tells why a program could not be started, and else which host of a run was the first to end with a fault.
#[tactic(auto, using(crate::proofs::InTurn::tells_as))]
fn tell_children<E: Sink>(
    alloc: Global,
    status: &Status,
    reasons: &Reasons,
    err: &mut E,
) -> Result<(), AllocError>
    ensures { OnOk result (Tells (child_lines status.now reasons.now) (E.view err.old) (E.view err.new)) }
{
    if let Some(reason) = &reasons.started {
        return tell_some(alloc, &None, err, Some(reason.as_str().as_bytes()));
    }
    let first = first_reason(alloc, status, reasons.first)?;
    tell_some(alloc, &None, err, bytes_of(&first))
}

/// Tells why what this process did by itself failed.
#[tactic(auto, using(crate::proofs::InTurn::then_tells))]
fn tell_own<E: Sink>(
    alloc: Global,
    host: &Option<Bytes>,
    status: &Status,
    reasons: &Reasons,
    err: &mut E,
) -> Result<(), AllocError>
    ensures { OnOk result (Tells (file_lines host.now reasons.now ++ mark_lines host.now status.now reasons.now)
        (E.view err.old) (E.view err.new)) }
{
    tell_files(alloc, host, reasons, err)?;
    tell_marks(alloc, host, status, reasons, err)
}

/// Tells why what it did with others failed.
#[tactic(auto, using(crate::proofs::InTurn::then_tells))]
fn tell_others<E: Sink>(
    alloc: Global,
    host: &Option<Bytes>,
    status: &Status,
    reasons: &Reasons,
    err: &mut E,
) -> Result<(), AllocError>
    ensures { OnOk result (Tells
        ((plan_lines host.now status.now ++ link_lines host.now status.now reasons.now) ++ child_lines status.now reasons.now)
        (E.view err.old) (E.view err.new)) }
{
    tell_peers(alloc, host, status, reasons, err)?;
    tell_children(alloc, status, reasons, err)
}

/// Tells why a run did not end well, as far as that is known: a line for each reason. Where there is no memory for one, no more is told.
#[tactic(auto, using(crate::proofs::InTurn::then_tells))]
pub fn tell_fault<E: Sink>(
    alloc: Global,
    host: &Option<Bytes>,
    status: &Status,
    reasons: &Reasons,
    err: &mut E,
) -> Result<(), AllocError>
    ensures { OnOk result (Tells (fault_lines host.now status.now reasons.now) (E.view err.old) (E.view err.new)) }
{
    tell_own(alloc, host, status, reasons, err)?;
    tell_others(alloc, host, status, reasons, err)
}

/// How many packets went over the links of a host, where a host was run.
fn passed_text(
    alloc: Global,
    host: &Option<Bytes>,
    passed: (u64, u64),
) -> Result<Option<String>, AllocError>
    ensures { IfOk result (λ text. option_map string_bytes text ≡ passed_text host.now passed) }
{
    if host.is_none() {
        return Ok(None);
    }
    Ok(Some(text_of_packets(alloc, passed)?))
}

/// How many packets the hosts of a replay sent, where it ran any.
fn sent_reason(alloc: Global, sent: Option<u64>) -> Result<Option<String>, AllocError>
    ensures { IfOk result (λ text. option_map string_bytes text ≡ option_map (λ n. sent_text n) sent) }
{
    match sent {
        Some(sent) => Ok(Some(text_of_sent(alloc, sent)?)),
        None => Ok(None),
    }
}

/// The bytes of a text, where there is one.
fn string_of(text: &Option<String>) -> Option<&[u8]>
    ensures { option_map (λ bytes. bytes.now) result ≡ option_map string_bytes text.now }
{
    match text {
        Some(text) => Some(text.as_str().as_bytes()),
        None => None,
    }
}

/// Says how many packets passed in a run that ended well: over a host's links, and between the hosts of a replay.
pub fn tell_success<E: Sink>(
    alloc: Global,
    host: &Option<Bytes>,
    passed: (u64, u64),
    sent: Option<u64>,
    err: &mut E,
) -> Result<(), AllocError>
    ensures { OnOk result (Tells (success_lines host.now passed sent) (E.view err.old) (E.view err.new)) }
{
    let passed = passed_text(alloc, host, passed)?;
    tell_some(alloc, host, err, string_of(&passed))?;
    let sent = sent_reason(alloc, sent)?;
    tell_some(alloc, &None, err, string_of(&sent))
}

/// Says that a word of the command line is no text.
#[tactic(auto, using(crate::proofs::InTurn::tells_one))]
pub fn tell_no_text<E: Sink>(alloc: Global, err: &mut E) -> Result<(), AllocError>
    ensures { OnOk result (Tells (reason_line None (codes "a word is no UTF-8") ∷ []) (E.view err.old) (E.view err.new)) }
{
    tell_reason(alloc, None, err, b"a word is no UTF-8")
}
