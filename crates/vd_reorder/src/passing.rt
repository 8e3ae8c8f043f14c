//! The pass over a code, from its end to its front.

ghost use Rattle.std.specs.Prelude.{◌≡◌, ◌++◌, ◌+◌, ◌<◌, ◌≤◌, length, take, drop};
ghost use Rattle.vd_execution.specs.Code.{Code};
ghost use Rattle.vd_execution.specs.Text.{IsCodeOf};
ghost use Rattle.vd_reorder.specs.Careful.{careful};
ghost use Rattle.vd_reorder.specs.Packets.{stays_by};
ghost use Rattle.vd_reorder.specs.Passing as passing;
ghost use Rattle.vd_reorder.specs.Passing.{IsHastenedText, PacketsGoAhead, TextsArePassed, hastened_by, hastened_text, risen, sunk_first, window};

use crate::testing::may_pass;
use vd_base::Items;
use vd_execution::{Action, Instr, Reg};

/// How many packets may pass an instruction.
const WINDOW: u32 = 512;

/// Whether an instruction may be passed, where so many packets may still pass.
#[tactic(auto, using(crate::proofs::Room::room_left))]
fn has_room(room: u32, instruction: &Instr) -> bool
    ensures { result ≡ passing.has_room room instruction.now }
{
    match instruction {
        Instr::Send(_, _) => room > 0,
        _ => true,
    }
}

/// How many packets may still pass behind an instruction.
#[tactic(auto, using(crate::proofs::Room::room_less))]
fn room_behind(room: u32, instruction: &Instr) -> u32
    ensures { result ≡ passing.room_behind room instruction.now }
{
    match instruction {
        Instr::Send(_, _) => room.saturating_sub(1),
        _ => room,
    }
}

/// How many blocks are open behind an instruction, where so many are before it.
fn depth_behind(depth: usize, instruction: &Instr) -> usize
    requires { depth < 18446744073709551615 }
    ensures { result ≡ passing.depth_behind depth instruction.now }
{
    match instruction {
        Instr::If(_) | Instr::For(_, _) => depth + 1,
        Instr::End => depth.saturating_sub(1),
        Instr::Do(_) | Instr::Send(_, _) | Instr::Recv(_, _) | Instr::Else => depth,
    }
}

/// Where what stands at a place ends: an instruction, or the block that it begins.
fn end_of(code: &[Instr], start: usize) -> usize
    requires { start < length code.now }
    ensures { result ≡ start + passing.span 0 (drop start code.now) }
{
    let mut depth = 0;
    let mut place = start;
    'instructions: while place < code.len() {
        depth = depth_behind(depth, &code[place]);
        place += 1;
        if depth == 0 {
            return place;
        }
    }
    place
}

/// Whether an instruction may stand before one of a block. Its guard counts as a word that is printed, a turn as the action that counts it.
#[tactic(auto, using(crate::proofs::Turns::turns_alike))]
fn mark_passes(first: &Instr, second: &Instr, opened: &[Reg]) -> bool
    ensures { result ≡ passing.mark_passes (careful (stays_by opened.now)) first.now second.now }
{
    match first {
        Instr::Do(_) => may_pass(first, second, opened),
        Instr::Send(_, _) | Instr::Recv(_, _) => false,
        Instr::If(guard) => may_pass(&Instr::Do(Action::Print(*guard)), second, opened),
        Instr::For(counter, _) => may_pass(&Instr::Do(Action::Const(*counter, 0)), second, opened),
        Instr::Else | Instr::End => true,
    }
}

/// Whether an instruction may stand before all of a block.
fn all_pass(block: &[Instr], second: &Instr, opened: &[Reg]) -> bool
    ensures { result ≡ passing.all_pass (careful (stays_by opened.now)) block.now second.now }
{
    let mut rest = block;
    'instructions: while let Some((first, behind)) = rest.split_first() {
        if !mark_passes(first, second, opened) {
            return false;
        }
        rest = behind;
    }
    true
}

/// Whether an instruction may stand before another one, or before a whole block.
fn stretch_passes(stretch: &[Instr], second: &Instr, opened: &[Reg]) -> bool
    ensures { result ≡ passing.stretch_passes (careful (stays_by opened.now)) stretch.now second.now }
{
    match stretch.split_first() {
        Some((first, _)) => match first {
            Instr::Do(_) | Instr::Recv(_, _) => may_pass(first, second, opened),
            Instr::If(_) | Instr::For(_, _) => all_pass(stretch, second, opened),
            Instr::Send(_, _) | Instr::Else | Instr::End => false,
        },
        None => false,
    }
}

/// Whether what stands between two places, an instruction or a block, goes behind its neighbour, where so many packets may still pass it.
fn goes_behind(code: &[Instr], first: usize, behind: usize, room: u32, opened: &[Reg]) -> bool
    requires within { first ≤ behind }
    requires there { behind < length code.now }
    ensures { result ≡ passing.goes_behind (careful (stays_by opened.now)) code.now first behind room }
{
    stretch_passes(&code[first..behind], &code[behind], opened) && has_room(room, &code[behind])
}

/// Brings one instruction before those from a place on.
fn rise(code: &mut [Instr], first: usize, last: usize)
    requires within { first ≤ last }
    requires there { last < length code.old }
    ensures { code.new ≡ risen first last code.old }
{
    let mut place = last;
    'neighbours: while place > first {
        place -= 1;
        code.swap(place, place + 1);
    }
}

/// Lets what stands first at a place, an instruction or a block, go behind those that may stand before it.
fn sink(code: &mut [Instr], start: usize, opened: &[Reg])
    requires { start < length code.old }
    ensures { code.new ≡ take start code.old ++ sunk_first (careful (stays_by opened.now)) window (drop start code.old) }
{
    let mut first = start;
    let mut behind = end_of(code, start);
    let mut room = WINDOW;
    'instructions: while behind < code.len() && goes_behind(code, first, behind, room, opened) {
        room = room_behind(room, &code[behind]);
        rise(code, first, behind);
        first += 1;
        behind += 1;
    }
}

/// Lets each instruction and each block go behind those that may stand before it, the last one first.
fn sink_all(code: &mut [Instr], opened: &[Reg])
    ensures { code.new ≡ hastened_text (careful (stays_by opened.now)) window code.old }
{
    let mut left = code.len();
    'instructions: while left > 0 {
        left -= 1;
        sink(code, left, opened);
    }
}

/// The text that the pass makes of a text, where packets with these registers are open.
fn pass(code: Items<Instr>, opened: &[Reg]) -> Items<Instr>
    ensures { result ≡ hastened_text (careful (stays_by opened.now)) window code }
{
    let mut list = code.into_vec();
    sink_all(list.as_mut_slice(), opened);
    Items::from_vec(list)
}

/// The code, with each packet that opens nothing brought forward as far as what it needs allows, and no instruction passed by more than
/// 512 packets. Draws of own words give way to what stands behind them. All else stays in its order.
pub fn hasten_code(code: Items<Instr>, opened: &[Reg]) -> Items<Instr>
    ensures text { result ≡ hastened_by opened.now code }
    ensures code { (nested : Code) → IsCodeOf code nested → IsHastenedText opened.now result nested }
{
    pass(code, opened)
}

/// The pass over the text of a code gives the text of what the pass over the code gives.
pub fn texts_are_passed()
    ensures { TextsArePassed }
{}

/// Where packets may go ahead of what waits for a peer, up to 512 do.
pub fn packets_go_ahead()
    ensures { PacketsGoAhead }
{}
