//! What a dealt item hides, as the lines behind it tell.

ghost use Rattle.std.specs.Prelude.{◌≡◌, ◌<◌};
ghost use Rattle.vd_excuse.specs.Ahead.{hidden_before, hidden_by_act, is_take, is_take_at, is_taking, operand_at, operand_in, operand_of, operands_at, products_at, bits_at, words_at};

use vd_base::HostId;
use vd_excuse_walk::{Hidden, Operands, Part};
use vd_execution::{Act, Action, Line};

/// The first operand of an operation.
fn operand_of(host: HostId, action: &Action) -> Option<Part>
    ensures { result ≡ operand_of host action.now }
{
    match action {
        Action::Apply(_, _, word, _) => Some(Part { host, word: *word }),
        _ => None,
    }
}

fn operand_in(line: &Line) -> Option<Part>
    ensures { result ≡ operand_in line.now }
{
    match line {
        Line::Act(Act::Do(host, action)) => operand_of(*host, action),
        _ => None,
    }
}

/// Whether an item is taken that two hosts share.
fn is_taking(action: &Action) -> bool
    ensures { result ≡ is_taking action.now }
{
    matches!(
        action,
        Action::Triple(_, _, _, _) | Action::Bits(_, _, _, _) | Action::Pair(_, _, _)
    )
}

fn is_take(line: &Line) -> bool
    ensures { result ≡ is_take line.now }
{
    match line {
        Line::Act(Act::Do(_, action)) => is_taking(action),
        _ => false,
    }
}

fn is_take_at(lines: &[Line], at: usize) -> bool
    ensures { result ≡ is_take_at lines.now at }
{
    match lines.get(at) {
        Some(line) => is_take(line),
        None => false,
    }
}

fn operand_at(lines: &[Line], at: usize) -> Option<Part>
    ensures { result ≡ operand_at lines.now at }
{
    match lines.get(at) {
        Some(line) => operand_in(line),
        None => None,
    }
}

/// The operands of a product, as the first two of these lines mask them.
fn operands_at(lines: &[Line], at: usize) -> Option<Operands>
    requires { at < 100 }
    ensures { result ≡ operands_at lines.now at }
{
    let x = operand_at(lines, at)?;
    let y = operand_at(lines, at + 1)?;
    Some(Operands {
        host: x.host,
        x: x.word,
        y: y.word,
    })
}

/// What a product hides whose first host has just taken its item: the second takes its own where the first has masked both
/// operands, and then masks its own.
fn products(lines: &[Line]) -> Option<Hidden>
    ensures { result ≡ products_at lines.now }
{
    if !is_take_at(lines, 2) {
        return None;
    }
    let first = operands_at(lines, 0)?;
    let second = operands_at(lines, 3)?;
    Some(Hidden::Product(first, second))
}

/// And so with bits.
fn bits(lines: &[Line]) -> Option<Hidden>
    ensures { result ≡ bits_at lines.now }
{
    if !is_take_at(lines, 2) {
        return None;
    }
    let first = operands_at(lines, 0)?;
    let second = operands_at(lines, 3)?;
    Some(Hidden::Bits(first, second))
}

/// What a pair hides whose first host has just taken it: the second takes its own, the first makes a number and turns its part of
/// the word by that, and in the product that follows the second masks its part first.
fn words(lines: &[Line]) -> Option<Hidden>
    ensures { result ≡ words_at lines.now }
{
    if !is_take_at(lines, 0) {
        return None;
    }
    let first = operand_at(lines, 2)?;
    let second = operand_at(lines, 7)?;
    Some(Hidden::Word(first, second))
}

fn hidden_before_action(action: &Action, behind: &[Line]) -> Option<Hidden>
    ensures { result ≡ hidden_before action.now behind.now }
{
    match action {
        Action::Triple(_, _, _, _) => products(behind),
        Action::Bits(_, _, _, _) => bits(behind),
        Action::Pair(_, _, _) => words(behind),
        _ => None,
    }
}

/// What the items hide that are taken from this act on, where it is the first of the two that take one.
pub(crate) fn hidden_before(act: &Act, behind: &[Line]) -> Option<Hidden>
    ensures { result ≡ hidden_by_act act.now behind.now }
{
    match act {
        Act::Do(_, action) => hidden_before_action(action, behind),
        Act::Msg(_, _, _, _) => None,
    }
}
