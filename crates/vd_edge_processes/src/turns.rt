//! Children that are read by turns.

ghost use Rattle.std.specs.Prelude.{◌≡◌, ◌<◌, length, IfOk, IfSome, OnOk};
ghost use Rattle.vd_edge_processes.specs.Turns.{EndedAs, GivesLineOf, KeepAll, likelier, remoteness};

use crate::next::Next;
use crate::player::Player;
use std::thread;
use std::time::{Clock, Duration};
use vd_base::CallFault;
use vd_outside::Line;

/// How long a child may still write where another one has ended with a fault, in milliseconds.
const GRACE: u64 = 2_000;

/// The longest pause between two turns in which nothing came, in milliseconds.
const LONGEST_PAUSE: u64 = 20;

/// Takes what all children have written since, and says whether that was anything.
fn read_all<P: Player>(children: &mut [P]) -> Result<bool, CallFault>
    ensures { OnOk result (KeepAll P.broken P.left children.old children.new) }
{
    let mut came = false;
    for place in 0..children.len() {
        if children[place].turn()? {
            came = true;
        }
    }
    Ok(came)
}

/// Whether a child has ended with a fault.
fn has_failure<P: Player>(children: &mut [P]) -> bool
    ensures { KeepAll P.broken P.left children.old children.new }
{
    let mut found = false;
    for place in 0..children.len() {
        if children[place].failure().is_some() {
            found = true;
        }
    }
    found
}

/// What a turn brought.
#[derive(Clone, Copy, PartialEq, Eq)]
enum Turn {
    /// Some child had written.
    Came,
    /// None had written.
    Silent,
    /// None had written, and one has ended with a fault.
    Failing,
}

/// Takes what all children have written since, and says what that brought.
#[tactic(auto, using(crate::proofs::ByTurns::kept_since))]
fn turn_all<P: Player>(children: &mut [P]) -> Result<Turn, CallFault>
    ensures { OnOk result (KeepAll P.broken P.left children.old children.new) }
{
    if read_all(children)? {
        Ok(Turn::Came)
    } else if has_failure(children) {
        Ok(Turn::Failing)
    } else {
        Ok(Turn::Silent)
    }
}

/// Waits for so many milliseconds, and gives how long the next pause is.
fn pause_for<R: Clock>(rt: &R, pause: u64) -> u64 {
    thread::sleep(rt, Duration::from_millis(pause));
    pause.saturating_mul(2).min(LONGEST_PAUSE)
}

/// The next line of a child, and `None` at the end of its output. Until it is there, all children are read by turns, so that none of
/// them stands still because nobody reads it. Where one has ended with a fault, it is a fault if the line does not come soon.
pub(crate) fn next_line<R: Clock, P: Player>(
    rt: &R,
    children: &mut [P],
    number: usize,
) -> Result<Option<Line>, CallFault>
    requires { number < length children.old }
    ensures { IfOk result (GivesLineOf P.left number children.old children.new) }
{
    let mut pause = 1u64;
    let mut grace = GRACE;
    for _ in 0..u64::MAX {
        match children[number].next()? {
            Next::Line(line) => return Ok(Some(line)),
            Next::End => return Ok(None),
            Next::Later => {}
        }
        match turn_all(children)? {
            Turn::Came => pause = 1,
            Turn::Silent => pause = pause_for(rt, pause),
            Turn::Failing => {
                if grace == 0 {
                    return Err(CallFault::Failed);
                }
                grace = grace.saturating_sub(pause);
                pause = pause_for(rt, pause);
            }
        }
    }
    Err(CallFault::Failed)
}

/// How often children are asked, after a run, whether they have ended, with a pause between.
const LAST_ASKS: u32 = 20;

/// How far a status is from being a cause: a link that ended is nearly always what became of another host's fault, and a peer that
/// failed is so often.
fn remoteness(status: u32) -> u32
    ensures { result ≡ remoteness status }
{
    match status {
        25 => 2,
        18 => 1,
        _ => 0,
    }
}

/// What was found so far, or this child in its place, where it ended with a fault whose status is less likely to come of another's.
fn likelier(found: Option<(usize, u32)>, number: usize, status: Option<u32>) -> Option<(usize, u32)>
    ensures { result ≡ likelier found number status }
{
    match status {
        None => found,
        Some(status) => match found {
            Some((_, known)) if remoteness(known) <= remoteness(status) => found,
            _ => Some((number, status)),
        },
    }
}

/// The number of the child that most likely failed first, and its status: of those that have ended with a fault the one whose status
/// is the least likely to come of another's.
fn likeliest<P: Player>(children: &mut [P]) -> Option<(usize, u32)>
    ensures found { IfSome result (λ found. found.0 < length children.old) }
    ensures ended { IfSome result (λ found. EndedAs P.ended children.new found.0 found.1) }
{
    let mut found = None;
    for number in 0..children.len() {
        let status = children[number].failure();
        found = likelier(found, number, status);
    }
    found
}

/// Whether the outputs of all children have ended.
fn are_over<P: Player>(children: &[P]) -> bool {
    children.iter().all(|child| child.is_over())
}

/// The child that most likely failed first, after a run. All children have a moment to end.
pub(crate) fn first_failure<R: Clock, P: Player>(rt: &R, children: &mut [P]) -> Option<(usize, u32)>
    ensures found { IfSome result (λ found. found.0 < length children.old) }
    ensures ended { IfSome result (λ found. EndedAs P.ended children.new found.0 found.1) }
{
    for _ in 0..LAST_ASKS {
        if are_over(children) {
            break;
        }
        let _ = read_all(children);
        thread::sleep(rt, Duration::from_millis(LONGEST_PAUSE));
    }
    likeliest(children)
}
