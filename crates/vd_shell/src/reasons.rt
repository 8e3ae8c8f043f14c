//! Why a call of the outside failed, as a person is told.

ghost use Rattle.std.specs.Prelude.{◌≡◌, ◌++◌, OnErr, OnOk, IfOk, codes, option_map, string_bytes};
ghost use Rattle.vd_cmd_plan.specs.Lines.{Says};
ghost use Rattle.vd_cmd_plan.specs.Shown.{shown};
ghost use Rattle.vd_shell.specs.PacketsRead.{PacketsAreRead};
ghost use Rattle.vd_shell.specs.Reasons.{address_part, first_text, host_part, noun_of, packets_text, peer_part, peer_text, plans_text, reason_line, seal_text, seal_words, sent_text, speaker};

use std::alloc::{AllocError, Global};
use vd_base::{Bytes, Text};
use vd_base_codec::push_key;
use vd_channel_link::SealFault;
use vd_cmd_plan::shown_byte;
use vd_edge::PeerReason;
use vd_outside::{Sink, write_all};

/// Adds a text as it is shown.
fn push_shown(line: &mut Bytes, text: &[u8]) -> Result<(), AllocError>
    ensures { OnOk result (line.new ≡ line.old ++ shown text.now) }
{
    for byte in text {
        line.push(shown_byte(*byte))?;
    }
    Ok(())
}

/// Adds who speaks, where that is a host.
fn push_speaker(line: &mut Bytes, host: Option<&[u8]>) -> Result<(), AllocError>
    ensures { OnOk result (line.new ≡ line.old ++ speaker (option_map (λ name. name.now) host.entry)) }
{
    match host {
        None => Ok(()),
        Some(name) => {
            line.extend_from_slice(b"host ")?;
            push_shown(line, name)?;
            line.extend_from_slice(b", ")
        }
    }
}

/// Adds for whom something was done.
fn push_peer(text: &mut Bytes, peer: Option<&[u8]>) -> Result<(), AllocError>
    ensures { OnOk result (text.new ≡ text.old ++ peer_part (option_map (λ name. name.now) peer.entry)) }
{
    match peer {
        None => text.extend_from_slice(b"a peer"),
        Some(name) => text.extend_from_slice(name),
    }
}

/// Adds the address at which it was done, where there was one.
fn push_address(text: &mut Bytes, address: &Option<Text>) -> Result<(), AllocError>
    ensures { OnOk result (text.new ≡ text.old ++ address_part address.now) }
{
    match address {
        None => Ok(()),
        Some(address) => {
            text.extend_from_slice(b" at ")?;
            text.extend_from_slice(address.as_str().as_bytes())
        }
    }
}

/// Why something that was done for a peer failed, with the peer's name where that is known.
pub(crate) fn text_of_peer(
    alloc: Global,
    peer: Option<&[u8]>,
    reason: &PeerReason,
) -> Result<Bytes, AllocError>
    ensures { IfOk result (λ text. text ≡ peer_text (option_map (λ name. name.now) peer.entry) reason.now) }
{
    let mut text = Bytes::new(alloc);
    text.extend_from_slice(reason.call.text().as_bytes())?;
    text.push(b' ')?;
    push_peer(&mut text, peer)?;
    push_address(&mut text, &reason.address)?;
    text.extend_from_slice(b": ")?;
    text.extend_from_slice(reason.cause.as_str().as_bytes())?;
    Ok(text)
}

/// Adds by what a host of a run goes.
fn push_host(
    text: &mut Bytes,
    alloc: Global,
    host: Option<&[u8]>,
    number: usize,
) -> Result<(), AllocError>
    ensures { OnOk result (text.new ≡ text.old ++ host_part (option_map (λ name. name.now) host.entry) number) }
{
    match host {
        Some(name) => text.extend_from_slice(name),
        None => {
            let number = format!(in alloc; "{number}")?;
            text.extend_from_slice(number.as_str().as_bytes())
        }
    }
}

/// Which host of a run was the first to end with a fault, and with which status.
pub(crate) fn text_of_first(
    alloc: Global,
    host: Option<&[u8]>,
    number: usize,
    status: u32,
) -> Result<Bytes, AllocError>
    ensures { IfOk result (λ text. text ≡ first_text (option_map (λ name. name.now) host.entry) number status) }
{
    let mut text = Bytes::new(alloc);
    text.extend_from_slice(b"host ")?;
    push_host(&mut text, alloc, host, number)?;
    let status = format!(in alloc; " ended first, with status {status}")?;
    text.extend_from_slice(status.as_str().as_bytes())?;
    Ok(text)
}

/// Which plan a peer has, and which one this host.
pub(crate) fn text_of_plans(
    alloc: Global,
    peer: &[u8],
    ours: &[u8],
    theirs: &[u8],
) -> Result<Bytes, AllocError>
    ensures { IfOk result (λ text. text ≡ plans_text peer.now ours.now theirs.now) }
{
    let mut text = Bytes::new(alloc);
    text.extend_from_slice(peer)?;
    text.extend_from_slice(b" has plan ")?;
    push_key(&mut text, theirs)?;
    text.extend_from_slice(b", and this host plan ")?;
    push_key(&mut text, ours)?;
    Ok(text)
}

/// What so many packets are called.
fn noun(count: u64) -> &'static str
    ensures { result.now ≡ noun_of count }
{
    if count == 1 { "packet" } else { "packets" }
}

/// How many packets a host sent, and how many came to it.
pub(crate) fn text_of_packets(alloc: Global, packets: (u64, u64)) -> Result<String, AllocError>
    ensures { IfOk result (λ text. string_bytes text ≡ packets_text packets.0 packets.1) }
{
    let (sent, came) = packets;
    let noun = noun(sent);
    Ok(format!(in alloc; "{sent} {noun} sent, {came} received")?)
}

/// How many packets the hosts of a replay sent to one another.
pub(crate) fn text_of_sent(alloc: Global, sent: u64) -> Result<String, AllocError>
    ensures { IfOk result (λ text. string_bytes text ≡ sent_text sent) }
{
    let noun = noun(sent);
    Ok(format!(in alloc; "{sent} {noun} sent")?)
}

/// The line that tells why a call failed.
fn line_of(alloc: Global, host: Option<&[u8]>, reason: &[u8]) -> Result<Bytes, AllocError>
    ensures { IfOk result (λ line. line ≡ reason_line (option_map (λ name. name.now) host.entry) reason.now) }
{
    let mut line = Bytes::new(alloc);
    line.extend_from_slice(b"viaduct: ")?;
    push_speaker(&mut line, host)?;
    push_shown(&mut line, reason)?;
    line.push(b'\n')?;
    Ok(line)
}

/// Tells a person why a call failed, and which host says so. Where there is no memory for the line it is not told.
#[tactic(auto, using(vd_cmd_plan::proofs::Front::says))]
pub(crate) fn tell_reason<E: Sink>(
    alloc: Global,
    host: Option<&[u8]>,
    err: &mut E,
    reason: &[u8],
) -> Result<(), AllocError>
    ensures says { OnOk result (Says (reason_line (option_map (λ name. name.now) host.entry) reason.now)
        (E.view err.old) (E.view err.new)) }
    ensures silent { OnErr result (E.view err.new ≡ E.view err.old) }
{
    let line = line_of(alloc, host, reason)?;
    let _ = write_all(err, line.as_slice());
    Ok(())
}

/// What was wrong with a sealed link. A link below that failed or ended tells so itself.
fn words_of_seal(fault: SealFault) -> Option<&'static str>
    ensures { option_map (λ words. words.now) result ≡ seal_words fault }
{
    match fault {
        SealFault::Peer | SealFault::End => None,
        SealFault::Version => Some("no viaduct host of this version"),
        SealFault::Dealing => Some("another dealing"),
        SealFault::Host => Some("another host"),
        SealFault::Head => Some("no record"),
        SealFault::Code => Some("a record without proof"),
    }
}

/// The reason that tells what was wrong with a sealed link.
fn text_of_words(alloc: Global, words: &str) -> Result<Bytes, AllocError>
    ensures { IfOk result (λ text. text ≡ codes "sealed link: " ++ words.now) }
{
    let mut text = Bytes::new(alloc);
    text.extend_from_slice(b"sealed link: ")?;
    text.extend_from_slice(words.as_bytes())?;
    Ok(text)
}

/// Why a peer was hung up, or a sealed link took nothing any more, where that is known.
pub(crate) fn text_of_seal(
    alloc: Global,
    fault: Option<SealFault>,
) -> Result<Option<Bytes>, AllocError>
    ensures { IfOk result (λ text. text ≡ seal_text fault) }
{
    let Some(fault) = fault else {
        return Ok(None);
    };
    match words_of_seal(fault) {
        Some(words) => Ok(Some(text_of_words(alloc, words)?)),
        None => Ok(None),
    }
}

/// A person reads how many packets were sent and how many came.
pub fn packets_are_read()
    ensures { PacketsAreRead }
{}
