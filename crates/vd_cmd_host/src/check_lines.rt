//! What a check of a host's files prints.

ghost use Rattle.std.specs.Prelude.{◌≡◌, ◌++◌, IfOk, OnOk, slice_index_or};
ghost use Rattle.vd_report.specs.Lines.{number_field};
ghost use Rattle.vd_cmd_host.specs.Checking as checking;

use crate::amounts::{Amount, Amounts, PeerAmounts};
use crate::loading::Loaded;
use itoa::Buffer;
use std::alloc::{AllocError, Global};
use vd_base::{Bytes, Names};
use vd_base_codec::push_key;
use vd_channel_crypto::Secrets;
use vd_hostcode::HostProgram;
use vd_report::name_of;

/// Nothing is taken, and there is nothing.
const NOTHING: Amount = Amount { takes: 0, has: 0 };

/// What is shared where there is no such host.
const NOTHING_SHARED: PeerAmounts = PeerAmounts {
    muls: NOTHING,
    ands: NOTHING,
    pairs: NOTHING,
};

/// Puts a number at the end, behind a space.
fn push_number(text: &mut Bytes, number: u64) -> Result<(), AllocError>
    ensures { OnOk result (text.new ≡ text.old ++ number_field number) }
{
    text.push(b' ')?;
    text.extend_from_slice(Buffer::new().format(number).as_bytes())
}

/// Puts both numbers of an amount at the end.
fn push_amount(text: &mut Bytes, amount: Amount) -> Result<(), AllocError>
    ensures { OnOk result (text.new ≡ text.old ++ checking.amount_fields amount) }
{
    push_number(text, u64::from(amount.takes))?;
    text.extend_from_slice(b" of")?;
    push_number(text, amount.has as u64)
}

/// Puts at the end how many inputs no run takes, if there are such.
fn push_left_over(text: &mut Bytes, amount: Amount) -> Result<(), AllocError>
    ensures { OnOk result (text.new ≡ text.old ++ checking.left_over amount) }
{
    let takes = amount.takes as usize;
    if takes < amount.has {
        text.push(b',')?;
        push_number(text, (amount.has - takes) as u64)?;
        text.extend_from_slice(b" left over")?;
    }
    Ok(())
}

/// Puts the line of the inputs at the end.
fn push_inputs(text: &mut Bytes, amount: Amount) -> Result<(), AllocError>
    ensures { OnOk result (text.new ≡ text.old ++ checking.inputs_line amount) }
{
    text.extend_from_slice(b"inputs")?;
    push_amount(text, amount)?;
    push_left_over(text, amount)?;
    text.push(b'\n')
}

/// Puts the line of own words at the end.
fn push_own(text: &mut Bytes, amount: Amount) -> Result<(), AllocError>
    ensures { OnOk result (text.new ≡ text.old ++ checking.own_line amount) }
{
    text.extend_from_slice(b"own")?;
    push_amount(text, amount)?;
    text.push(b'\n')
}

/// The lines of the plan, of the host and of its own lists.
fn head_lines(alloc: Global, program: &HostProgram, amounts: &Amounts) -> Result<Bytes, AllocError>
    ensures { IfOk result (λ text. text ≡ checking.head_lines program.now amounts.now) }
{
    let mut text = Bytes::from_slice(alloc, b"plan ")?;
    push_key(&mut text, &program.plan.bytes)?;
    text.extend_from_slice(b"\nhost ")?;
    text.extend_from_slice(name_of(&program.hosts, usize::from(program.me.0)))?;
    text.push(b'\n')?;
    push_inputs(&mut text, amounts.inputs)?;
    push_own(&mut text, amounts.own)?;
    Ok(text)
}

/// Puts the line of a kind that is shared with a peer at the end.
fn push_kind(text: &mut Bytes, peer: &[u8], kind: &[u8], amount: Amount) -> Result<(), AllocError>
    ensures { OnOk result (text.new ≡ text.old ++ checking.kind_line peer.now kind.now amount) }
{
    text.extend_from_slice(peer)?;
    text.extend_from_slice(kind)?;
    push_amount(text, amount)?;
    text.push(b'\n')
}

/// What is shared with the host of this number.
fn shared_at(shared: &[PeerAmounts], peer: usize) -> PeerAmounts
    ensures { result ≡ slice_index_or shared.now peer checking.nothing_shared }
{
    match shared.get(peer) {
        Some(amounts) => *amounts,
        None => NOTHING_SHARED,
    }
}

/// Puts the lines of what is shared with a peer at the end. A host shares nothing with itself.
fn push_peer(
    text: &mut Bytes,
    names: &Names,
    me: usize,
    shared: &[PeerAmounts],
    peer: usize,
) -> Result<(), AllocError>
    ensures { OnOk result (text.new ≡ text.old ++ checking.peer_lines names.now me shared.now peer) }
{
    if peer == me {
        return Ok(());
    }
    let amounts = shared_at(shared, peer);
    push_kind(text, name_of(names, peer), b" mul", amounts.muls)?;
    push_kind(text, name_of(names, peer), b" and", amounts.ands)?;
    push_kind(text, name_of(names, peer), b" pair", amounts.pairs)
}

/// Puts the lines of what is shared with all peers at the end.
fn push_shared(
    text: &mut Bytes,
    names: &Names,
    me: usize,
    shared: &[PeerAmounts],
) -> Result<(), AllocError>
    ensures { OnOk result (text.new ≡ text.old ++ checking.shared_lines names.now me shared.now) }
{
    for peer in 0..names.as_slice().len() {
        push_peer(text, names, me, shared, peer)?;
    }
    Ok(())
}

/// Puts at the end which dealing a deal is of, and whether it was used.
fn push_dealing(text: &mut Bytes, secrets: &Option<Secrets>, used: bool) -> Result<(), AllocError>
    ensures { OnOk result (text.new ≡ text.old ++ checking.dealing_of secrets.now used) }
{
    let Some(secrets) = secrets else {
        return text.extend_from_slice(b", for tries\n");
    };
    text.extend_from_slice(b", dealing ")?;
    push_key(text, &secrets.id)?;
    if used {
        text.extend_from_slice(b", used\n")
    } else {
        text.extend_from_slice(b", unused\n")
    }
}

/// Puts the line of the deal at the end.
fn push_deal(text: &mut Bytes, loaded: &Loaded, used: bool) -> Result<(), AllocError>
    ensures { OnOk result (text.new ≡ text.old ++ checking.deal_line loaded.now used) }
{
    text.extend_from_slice(b"deal of ")?;
    let me = usize::from(loaded.program.me.0);
    text.extend_from_slice(name_of(&loaded.program.hosts, me))?;
    push_dealing(text, &loaded.dealt.secrets, used)
}

/// What a check of a host's files prints.
pub(crate) fn check_text(
    alloc: Global,
    loaded: &Loaded,
    amounts: &Amounts,
    used: bool,
) -> Result<Bytes, AllocError>
    ensures { IfOk result (λ text. text ≡ checking.check_text loaded.now amounts.now used) }
{
    let program = &loaded.program;
    let mut text = head_lines(alloc, program, amounts)?;
    let me = usize::from(program.me.0);
    push_shared(&mut text, &program.hosts, me, amounts.shared.as_slice())?;
    push_deal(&mut text, loaded, used)?;
    Ok(text)
}
