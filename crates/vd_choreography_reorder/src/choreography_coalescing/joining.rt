//! The lines are read from the end to the front; those that were read stand in a stack, the last one first.

ghost use Rattle.std.specs.Prelude.{◌≡◌, ◌++◌, ◌∷◌, [], IfOk, OnOk, reverse};
ghost use Rattle.vd_base.specs.Limits.{most_packet_words};
ghost use Rattle.vd_execution.specs.declared.instructions.Act.TheVariants as act;
ghost use Rattle.vd_execution.specs.declared.instructions.Line.TheVariants as line;
ghost use Rattle.vd_choreography_reorder.specs.Joining as joining;
ghost use Rattle.vd_choreography_reorder.specs.Joining.{joined_lines, line_before, packet_before, packet_before_act, packet_before_line};

use std::alloc::{AllocError, Global};
use vd_base::{HostId, Items};
use vd_execution::{Act, Line, Reg};

/// The most words of a packet.
const MOST: usize = 16;

/// Whether two packets go from one host to another, and have at most 16 words together.
fn can_share(
    from: HostId,
    said: &[Reg],
    to: HostId,
    other: HostId,
    says: &[Reg],
    receiver: HostId,
) -> bool
    ensures { result ≡ joining.can_share most_packet_words from.0 said.now to.0 other.0 says.now receiver.0 }
{
    (from.0 == other.0 && to.0 == receiver.0) && said.len() + says.len() <= MOST
}

/// Puts a line before what was read.
#[tactic(auto, using(crate::proofs::Stack::on_top))]
fn push_first(stack: &mut Items<Line>, line: Line) -> Result<(), AllocError>
    ensures { OnOk result (reverse stack.new ≡ line ∷ reverse stack.old) }
{
    stack.push(line)
}

/// Puts two lines before what was read.
fn push_both(stack: &mut Items<Line>, first: Line, second: Line) -> Result<(), AllocError>
    ensures { OnOk result (reverse stack.new ≡ first ∷ second ∷ reverse stack.old) }
{
    push_first(stack, second)?;
    push_first(stack, first)
}

/// A packet, as a line.
fn packet(from: HostId, said: Items<Reg>, to: HostId, heard: Items<Reg>) -> Line
    ensures { result ≡ line.Act (act.Msg from said to heard) }
{
    Line::Act(Act::Msg(from, said, to, heard))
}

/// Puts a packet before an act.
fn push_before_act(
    stack: &mut Items<Line>,
    from: HostId,
    said: Items<Reg>,
    to: HostId,
    heard: Items<Reg>,
    act: Act,
) -> Result<(), AllocError>
    ensures { OnOk result (reverse stack.new ≡ packet_before_act most_packet_words from said to heard act (reverse stack.old)) }
{
    match act {
        Act::Msg(other, says, receiver, hears) => {
            if can_share(from, said.as_slice(), to, other, says.as_slice(), receiver) {
                let mut said = said;
                let mut heard = heard;
                said.append(says)?;
                heard.append(hears)?;
                push_first(stack, packet(from, said, to, heard))
            } else {
                push_both(
                    stack,
                    packet(from, said, to, heard),
                    packet(other, says, receiver, hears),
                )
            }
        }
        Act::Do(host, action) => push_both(
            stack,
            packet(from, said, to, heard),
            Line::Act(Act::Do(host, action)),
        ),
    }
}

/// Puts a packet before a line.
fn push_before_line(
    stack: &mut Items<Line>,
    from: HostId,
    said: Items<Reg>,
    to: HostId,
    heard: Items<Reg>,
    line: Line,
) -> Result<(), AllocError>
    ensures { OnOk result (reverse stack.new ≡ packet_before_line most_packet_words from said to heard line (reverse stack.old)) }
{
    match line {
        Line::Act(act) => push_before_act(stack, from, said, to, heard, act),
        Line::If(_, _) | Line::Else(_) | Line::For(_, _, _) | Line::End(_) => {
            push_both(stack, packet(from, said, to, heard), line)
        }
    }
}

/// Puts a packet before what was read.
#[tactic(auto, using(crate::proofs::Stack::on_top))]
fn push_packet(
    stack: &mut Items<Line>,
    from: HostId,
    said: Items<Reg>,
    to: HostId,
    heard: Items<Reg>,
) -> Result<(), AllocError>
    ensures { OnOk result (reverse stack.new ≡ packet_before most_packet_words from said to heard (reverse stack.old)) }
{
    match stack.pop() {
        Some(line) => push_before_line(stack, from, said, to, heard, line),
        None => push_first(stack, packet(from, said, to, heard)),
    }
}

/// Puts a line before what was read.
fn push_line(stack: &mut Items<Line>, line: Line) -> Result<(), AllocError>
    ensures { OnOk result (reverse stack.new ≡ line_before most_packet_words line (reverse stack.old)) }
{
    match line {
        Line::Act(Act::Msg(from, said, to, heard)) => push_packet(stack, from, said, to, heard),
        Line::Act(Act::Do(_, _))
        | Line::If(_, _)
        | Line::Else(_)
        | Line::For(_, _, _)
        | Line::End(_) => { push_first(stack, line) }
    }
}

/// The lines with packets joined that stand side by side and go from one host to another, up to 16 words each.
pub fn join_packets(alloc: Global, lines: Items<Line>) -> Result<Items<Line>, AllocError>
    ensures { IfOk result (λ new. new ≡ joined_lines most_packet_words lines) }
{
    let mut left = lines;
    let mut stack = Items::new(alloc);
    while let Some(line) = left.pop() {
        push_line(&mut stack, line)?;
    }
    let mut list = stack.into_vec();
    list.reverse();
    Ok(Items::from_vec(list))
}
