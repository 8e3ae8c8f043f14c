//! Steps that wait for nothing and that nobody sees, many at once.

ghost use Rattle.std.specs.Prelude.{◌≡◌, ◌≤◌, List, [], None, true, false, length, All, vec_capacity};
ghost use Rattle.vd_execution.specs.Ranges.{ActionFits};
ghost use Rattle.vd_execution.specs.Registers.{written};
ghost use Rattle.vd_execution.specs.Step.{Nothing, need_of_action, word_printed, deed_of_print};
ghost use Rattle.vd_machine.specs.Kept.{FrameFits, OpIsWithin, op_deed, op_need};
ghost use Rattle.vd_machine.specs.Machines.{held, cursors_of, SamePeers};
ghost use Rattle.vd_machine.specs.Quietly.{ActsQuietly, CounterFits, GoesOn, IsFitting, IsQuietAt, OpActsQuietly, TurnsInPlace, is_print, kept_as};

use crate::frames::Frame;
use crate::lists::{Lists, Taken};
use crate::ops::{Op, Plain};
use crate::perform::{apply, perform};
use crate::registers::write;
use crate::want::{Want, want_action};
use vd_base::{Op as WordOp, combine};
use vd_execution::Action;

/// An action that needs nothing but registers is done, and true; else false and no change.
#[inline(always)]
fn act_alone(registers: &mut Vec<u32>, action: &Action) -> bool
    requires { ActionFits (length registers.old.items) action.now }
    ensures needs { result ≡ true → need_of_action (held registers.old.items) action.now ≡ Nothing }
    ensures unseen { result ≡ true → word_printed (held registers.old.items) action.now ≡ None }
    ensures value { result ≡ true → held registers.new.items ≡ written (held registers.old.items) action.now [] }
    ensures none { result ≡ false → registers.new.items ≡ registers.old.items }
    ensures len { length registers.new.items ≡ length registers.old.items }
{
    match action {
        Action::Const(r, k) => {
            write(registers, r.0 as usize, *k);
            true
        }
        Action::Copy(r, x) => {
            let word = registers[x.0 as usize];
            write(registers, r.0 as usize, word);
            true
        }
        Action::Apply(operation, r, x, y) => {
            let word = apply(*operation, registers[x.0 as usize], registers[y.0 as usize]);
            write(registers, r.0 as usize, word);
            true
        }
        Action::Shl(r, x, k) => {
            let word = combine(WordOp::Shl(*k), registers[x.0 as usize], 0, 0);
            write(registers, r.0 as usize, word);
            true
        }
        Action::Shr(r, x, k) => {
            let word = combine(WordOp::Shr(*k), registers[x.0 as usize], 0, 0);
            write(registers, r.0 as usize, word);
            true
        }
        Action::Mux(r, c, x, y) => {
            let word = combine(
                WordOp::Mux,
                registers[c.0 as usize],
                registers[x.0 as usize],
                registers[y.0 as usize],
            );
            write(registers, r.0 as usize, word);
            true
        }
        Action::Get(r, x, count, i) => {
            let at = registers[i.0 as usize];
            let word = if at < *count {
                registers[x.0 as usize + at as usize]
            } else {
                0
            };
            write(registers, r.0 as usize, word);
            true
        }
        Action::Put(x, count, i, s) => {
            let at = registers[i.0 as usize];
            let word = registers[s.0 as usize];
            if at < *count {
                write(registers, x.0 as usize + at as usize, word)
            }
            true
        }
        _ => false,
    }
}

/// Whether an action prints.
fn prints(action: &Action) -> bool
    ensures { result ≡ is_print action.now }
{
    match action {
        Action::Print(_) => true,
        _ => false,
    }
}

/// Whether nothing is wanted.
fn is_nothing(want: Want) -> bool
    ensures yes { result ≡ true → want ≡ Want.Nothing }
    ensures no { want ≡ Want.Nothing → result ≡ true }
{
    match want {
        Want::Nothing => true,
        Want::Words(_, _) => false,
        Want::Ended => false,
        Want::ShortInput(_, _) => false,
        Want::ShortDeal(_, _, _) => false,
        Want::Unequal(_, _) => false,
    }
}

/// Whether what an action needs is there, and nobody sees it.
fn is_quiet_action(registers: &Vec<u32>, taken: &Taken, lists: &Lists, action: &Action) -> bool
    requires { ActionFits (length registers.now.items) action.now }
    ensures yes { result ≡ true → IsQuietAt lists.now (cursors_of taken.now) (need_of_action (held registers.now.items) action.now)
        (deed_of_print (word_printed (held registers.now.items) action.now)) }
    ensures no { IsQuietAt lists.now (cursors_of taken.now) (need_of_action (held registers.now.items) action.now)
        (deed_of_print (word_printed (held registers.now.items) action.now)) → result ≡ true }
{
    if prints(action) {
        return false;
    }
    let want = want_action(registers, taken, lists, action);
    is_nothing(want)
}

/// Whether what an instruction needs is there, and nobody sees it.
pub(crate) fn is_quiet_at(registers: &Vec<u32>, taken: &Taken, lists: &Lists, op: &Op) -> bool
    requires { OpIsWithin (length registers.now.items) op.now }
    ensures yes { result ≡ true → IsQuietAt lists.now (cursors_of taken.now) (op_need (held registers.now.items) op.now)
        (op_deed (held registers.now.items) op.now) }
    ensures no { IsQuietAt lists.now (cursors_of taken.now) (op_need (held registers.now.items) op.now)
        (op_deed (held registers.now.items) op.now) → result ≡ true }
{
    match op {
        Op::If { .. } => true,
        Op::For { .. } => true,
        Op::Plain(plain) => match plain {
            Plain::Do(action) => is_quiet_action(registers, taken, lists, action),
            Plain::Send(_, _) => false,
            Plain::Recv(_, _) => false,
        },
    }
}

/// A quiet action is done, and true; else false and no change.
#[inline(always)]
fn act(registers: &mut Vec<u32>, taken: &mut Taken, lists: &Lists, action: &Action) -> bool
    requires fits { ActionFits (length registers.old.items) action.now }
    requires same { SamePeers lists.now taken.old }
    ensures done { result ≡ true →
        ActsQuietly lists.now (held registers.old.items) (held registers.new.items) taken.old taken.new action.now }
    ensures registers { result ≡ false → registers.new.items ≡ registers.old.items }
    ensures taken { result ≡ false → taken.new ≡ taken.old }
    ensures len { length registers.new.items ≡ length registers.old.items }
    ensures same { SamePeers lists.now taken.new }
{
    if act_alone(registers, action) {
        return true;
    }
    if !is_quiet_action(registers, taken, lists, action) {
        return false;
    }
    perform(registers, taken, lists, action);
    true
}

/// The same of an instruction.
#[inline(always)]
fn act_at(registers: &mut Vec<u32>, taken: &mut Taken, lists: &Lists, op: &Op) -> bool
    requires within { OpIsWithin (length registers.old.items) op.now }
    requires same { SamePeers lists.now taken.old }
    ensures done { result ≡ true →
        OpActsQuietly lists.now (held registers.old.items) (held registers.new.items) taken.old taken.new op.now }
    ensures registers { result ≡ false → registers.new.items ≡ registers.old.items }
    ensures taken { result ≡ false → taken.new ≡ taken.old }
    ensures len { length registers.new.items ≡ length registers.old.items }
    ensures same { SamePeers lists.now taken.new }
{
    match op {
        Op::If { .. } => false,
        Op::For { .. } => false,
        Op::Plain(plain) => match plain {
            Plain::Do(action) => act(registers, taken, lists, action),
            Plain::Send(_, _) => false,
            Plain::Recv(_, _) => false,
        },
    }
}

/// Does the quiet actions from one place on, up to another, and answers where the first stands that is none.
fn run_straight(
    registers: &mut Vec<u32>,
    taken: &mut Taken,
    lists: &Lists,
    code: &Vec<Op>,
    from: usize,
    to: usize,
) -> usize
    requires fits { FrameFits (length registers.old.items) code.now.items (Frame.Run from to) }
    requires same { SamePeers lists.now taken.old }
    ensures high { result ≤ to }
    ensures goes { (below : List Frame) →
        IsFitting (kept_as code.now.items (Frame.Run from to) below registers.old.items lists.now taken.old) →
        GoesOn (kept_as code.now.items (Frame.Run from to) below registers.old.items lists.now taken.old)
        (kept_as code.now.items (Frame.Run result to) below registers.new.items lists.now taken.new) }
{
    let mut at = from;
    while at < to {
        if !act_at(registers, taken, lists, &code[at]) {
            return at;
        }
        at += 1;
    }
    at
}

/// The next turn of a loop whose body is over, in the loop's place, and true; else false and no change.
fn next_turn(registers: &mut Vec<u32>, top: &mut Frame, below: &mut Vec<Frame>) -> bool
    requires { All (λ f. CounterFits (length registers.old.items) f) below.old.items }
    ensures turns { result ≡ true →
        TurnsInPlace below.old.items below.new.items top.new (held registers.old.items) (held registers.new.items) }
    ensures top { result ≡ false → top.new ≡ top.old }
    ensures below { result ≡ false → below.new.items ≡ below.old.items }
    ensures registers { result ≡ false → registers.new.items ≡ registers.old.items }
    ensures len { length registers.new.items ≡ length registers.old.items }
    ensures capacity { vec_capacity below.new ≡ vec_capacity below.old }
{
    let count = below.len();
    if count == 0 {
        return false;
    }
    match below[count - 1] {
        Frame::Run { .. } => false,
        Frame::Loop {
            register,
            turn,
            turns,
            from,
            mid,
            to,
        } => {
            if turns <= turn {
                return false;
            }
            below[count - 1] = Frame::Loop {
                register,
                turn: turn + 1,
                turns,
                from,
                mid,
                to,
            };
            write(registers, register as usize, turn);
            *top = Frame::Run { from, to: mid };
            true
        }
    }
}

/// Goes on through quiet actions and through the turns of loops, as far as no frame comes or goes.
pub(crate) fn run_turns(
    registers: &mut Vec<u32>,
    taken: &mut Taken,
    lists: &Lists,
    code: &Vec<Op>,
    top: &mut Frame,
    below: &mut Vec<Frame>,
)
    requires { IsFitting (kept_as code.now.items top.old below.old.items registers.old.items lists.now taken.old) }
    ensures goes { GoesOn (kept_as code.now.items top.old below.old.items registers.old.items lists.now taken.old)
        (kept_as code.now.items top.new below.new.items registers.new.items lists.now taken.new) }
    ensures capacity { vec_capacity below.new ≡ vec_capacity below.old }
{
    loop {
        match *top {
            Frame::Loop { .. } => return,
            Frame::Run { from, to } => {
                let at = run_straight(registers, taken, lists, code, from, to);
                *top = Frame::Run { from: at, to };
                if at < to {
                    return;
                }
                if !next_turn(registers, top, below) {
                    return;
                }
            }
        }
    }
}
