//! The command lines of the hosts as children.

ghost use Rattle.std.specs.Prelude.{◌≡◌, ◌≤◌, ◌++◌, IfOk, OnOk, map};
ghost use Rattle.vd_cmd_run.specs.CommandLines.{address, command_lines, file_words, host_words, meeting, meetings};

use std::alloc::{AllocError, Global};
use vd_base::{Items, Text, Texts};
use vd_cmd_plan::file_name;

/// Where two hosts meet on this machine: each pair has a port of its own behind the first.
fn address(alloc: Global, port: u32, first: u8, second: u8) -> Result<Text, AllocError>
    requires { port ≤ 65520 }
    ensures { IfOk result (λ text. text ≡ address port first second) }
{
    let own = port + (4 * u32::from(first) + u32::from(second));
    let text = format!(in alloc; "127.0.0.1:{own}")?;
    Text::copy_of(alloc, text.as_str())
}

/// Adds the address where a host meets another, if it is another.
fn push_meeting(
    words: &mut Texts,
    alloc: Global,
    port: u32,
    me: u8,
    peer: u8,
) -> Result<(), AllocError>
    requires { port ≤ 65520 }
    ensures { OnOk result (words.new ≡ words.old ++ meeting port me peer) }
{
    if peer == me {
        return Ok(());
    }
    let text = address(alloc, port, me.min(peer), me.max(peer))?;
    words.push(text.as_str())
}

/// Adds the addresses where a host meets each of so many hosts, in their order.
fn push_meetings(
    words: &mut Texts,
    alloc: Global,
    port: u32,
    hosts: u8,
    me: u8,
) -> Result<(), AllocError>
    requires { port ≤ 65520 }
    ensures { OnOk result (words.new ≡ words.old ++ meetings port me hosts) }
{
    for peer in 0..hosts {
        push_meeting(words, alloc, port, me, peer)?;
    }
    Ok(())
}

/// Copies of these texts.
fn copies(alloc: Global, texts: &[&str]) -> Result<Texts, AllocError>
    ensures { IfOk result (λ list. list ≡ map (λ text. text.now) texts.now) }
{
    let mut list = Texts::new(alloc);
    for text in texts {
        list.push(text)?;
    }
    Ok(list)
}

/// The files of a host on its command line: its program, the inputs and its deal.
fn file_words(alloc: Global, prefix: &str, inputs: &str, me: u8) -> Result<Texts, AllocError>
    ensures { IfOk result (λ words. words ≡ file_words prefix.now inputs.now me) }
{
    let program = file_name(alloc, prefix, usize::from(me), ".host")?;
    let deal = file_name(alloc, prefix, usize::from(me), ".deal")?;
    copies(alloc, &["host", program.as_str(), inputs, deal.as_str()])
}

/// The words by which a program plays a host.
fn host_words(
    alloc: Global,
    prefix: &str,
    inputs: &str,
    port: u32,
    hosts: u8,
    me: u8,
) -> Result<Texts, AllocError>
    requires { port ≤ 65520 }
    ensures { IfOk result (λ words. words ≡ host_words prefix.now inputs.now port hosts me) }
{
    let mut words = file_words(alloc, prefix, inputs, me)?;
    push_meetings(&mut words, alloc, port, hosts, me)?;
    Ok(words)
}

/// The command lines of all hosts, in order: each plays its program `PREFIX.i.host` with the inputs and its deal
/// `PREFIX.i.deal`, and meets its peers on this machine at ports from this one on.
pub(crate) fn command_lines(
    alloc: Global,
    prefix: &str,
    inputs: &str,
    port: u32,
    hosts: u8,
) -> Result<Items<Texts>, AllocError>
    requires { port ≤ 65520 }
    ensures { IfOk result (λ lines. lines ≡ command_lines prefix.now inputs.now port hosts) }
{
    let mut lines = Items::new(alloc);
    for me in 0..hosts {
        let words = host_words(alloc, prefix, inputs, port, hosts, me)?;
        lines.push(words)?;
    }
    Ok(lines)
}
