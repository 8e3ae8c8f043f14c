//! Texts of a drawing.

ghost use Rattle.std.specs.Prelude.{◌≡◌, ◌++◌, ◌≤◌, IfOk, OnOk};
ghost use Rattle.vd_draw_layout.specs.Words as words;

use itoa::Buffer;
use std::alloc::{AllocError, Global};
use vd_base::{Bytes, HostId, Names, Proto};
use vd_draw_rows::{Arrow, is_printable};
use vd_formula::Label;
use vd_report::{formula_text, name_of};

/// Puts a number at the end.
pub fn push_number(text: &mut Bytes, number: u64) -> Result<(), AllocError>
    ensures { OnOk result (text.new ≡ text.old ++ words.number_text number) }
{
    text.extend_from_slice(Buffer::new().format(number).as_bytes())
}

/// A text of at most so many letters: a longer one is cut, and ends in dots.
pub fn cut(alloc: Global, most: usize, text: &[u8]) -> Result<Bytes, AllocError>
    requires { 3 ≤ most }
    ensures { IfOk result (λ shown. shown ≡ words.cut most text.now) }
{
    if text.len() <= most {
        return Bytes::from_slice(alloc, text);
    }
    let mut shown = Bytes::from_slice(alloc, &text[..most - 3])?;
    shown.extend_from_slice(b"...")?;
    Ok(shown)
}

/// A printable letter, or a blank.
fn printable_byte(byte: u8) -> u8
    ensures { result ≡ words.printable_byte byte }
{
    if is_printable(byte) { byte } else { b' ' }
}

/// Bytes as they are shown: with a blank for each that is no printable letter of ASCII.
pub fn printable(alloc: Global, bytes: &[u8]) -> Result<Bytes, AllocError>
    ensures { IfOk result (λ shown. shown ≡ words.printable bytes.now) }
{
    let mut shown = Bytes::new(alloc);
    for byte in bytes {
        shown.push(printable_byte(*byte))?;
    }
    Ok(shown)
}

/// The names of two hosts, with a sign between them.
fn pair_name(
    alloc: Global,
    hosts: &Names,
    first: HostId,
    sign: &[u8],
    second: HostId,
) -> Result<Bytes, AllocError>
    ensures { IfOk result (λ text. text ≡ words.pair_name hosts.now first sign.now second) }
{
    let mut text = Bytes::from_slice(alloc, name_of(hosts, usize::from(first.0)))?;
    text.extend_from_slice(sign)?;
    text.extend_from_slice(name_of(hosts, usize::from(second.0)))?;
    Ok(text)
}

/// The name of a protocol, as it stands above its lane.
pub fn protocol_name(alloc: Global, hosts: &Names, protocol: Proto) -> Result<Bytes, AllocError>
    ensures { IfOk result (λ text. text ≡ words.protocol_name hosts.now protocol) }
{
    match protocol {
        Proto::Local(host) => Bytes::from_slice(alloc, name_of(hosts, usize::from(host.0))),
        Proto::Rep(_) => Bytes::from_slice(alloc, b"copies"),
        Proto::Commit(prover, verifier) => pair_name(alloc, hosts, prover, b" > ", verifier),
        Proto::Add(first, second) => pair_name(alloc, hosts, first, b" + ", second),
        Proto::Xor(first, second) => pair_name(alloc, hosts, first, b" ^ ", second),
    }
}

/// What stands below the name of a protocol.
pub fn protocol_kind(protocol: Proto) -> &'static [u8]
    ensures { result.now ≡ words.protocol_kind protocol }
{
    match protocol {
        Proto::Local(_) | Proto::Rep(_) => b"",
        Proto::Commit(_, _) => b"committed",
        Proto::Add(_, _) => b"sums",
        Proto::Xor(_, _) => b"bits",
    }
}

/// What leaves a host.
pub(crate) fn arrow_text(arrow: Arrow) -> &'static [u8]
    ensures { result.now ≡ words.arrow_text arrow }
{
    match arrow {
        Arrow::Clear => b"in clear",
        Arrow::Checked => b"in clear from each copy",
        Arrow::Opened => b"opened",
        Arrow::Revealed => b"revealed",
        Arrow::Shared => b"shared",
        Arrow::Committed => b"committed",
        Arrow::Converted => b"converted",
        Arrow::Stays => b"there already",
    }
}

/// A label, as `labels` prints it.
pub(crate) fn label_text(
    alloc: Global,
    principals: &Names,
    label: &Label,
) -> Result<Bytes, AllocError>
    ensures { IfOk result (λ text. text ≡ words.label_text principals.now label.now) }
{
    let conf = formula_text(alloc, principals, &label.conf)?;
    let integ = formula_text(alloc, principals, &label.integ)?;
    let mut text = Bytes::from_slice(alloc, b"{")?;
    text.extend_from_slice(conf.as_slice())?;
    text.extend_from_slice(b" ; ")?;
    text.extend_from_slice(integ.as_slice())?;
    text.extend_from_slice(b"}")?;
    Ok(text)
}
