ghost use Rattle.std.specs.Prelude.{◌≡◌, ◌<◌, IsTrue, IfOk, OnOk, length};
ghost use Rattle.vd_core.specs.Facts.{all_meet};
ghost use Rattle.vd_duet.specs.Builder.{HasRoom, TakesAtMost};
ghost use Rattle.vd_split.specs.Offer.{AreServed, IsReady, CanEmit, Adds, stmt_stands, fit, block_fit, repeat_fit};
ghost use Rattle.vd_split.specs.Places.{acting, opened_loop, guarded, stmt_onto, block_onto, branch_onto, loop_onto, program_lines};

use crate::acting::any_acts;
use crate::marks::{close, open_branch, turn_branch};
use crate::moves::deliver;
use crate::protocols::Protocols;
use crate::statements::{array, binding, store, tell, variable, write};
use crate::taking::takers_of;
use std::alloc::{AllocError, Global};
use vd_base::{HostId, Items, Proto, SlotId};
use vd_core::{Program, Stmt};
use vd_duet::Duet;
use vd_execution::Line;

/// A `for` at each host that has an instruction of the body, with a fresh register for the number of the turn.
fn open_loop<P: Protocols>(
    protocols: &P,
    protos: &[Proto],
    count: u32,
    body: &[Stmt],
    to: &mut Duet,
) -> Result<Items<(u8, u32)>, AllocError>
    requires hosts { length to.old.next ≡ (P.offer protocols.now).calls.hosts }
    requires room { HasRoom 1 to.old.next }
    ensures exact { IfOk result (λ loops. (loops, to.new) ≡ opened_loop (acting (P.offer protocols.now).calls protos.now body.now)
        count to.old) }
    ensures few { OnOk result (TakesAtMost 1 to.old.next to.new.next) }
{
    let mut loops = Items::new(to.alloc());
    for number in 0..protocols.hosts() {
        let host = HostId(number);
        if any_acts(protocols, protos, body, host) {
            let register = to.reserve(host, 1);
            to.mark(Line::For(host, register, count))?;
            loops.push((number, register.0))?;
        }
    }
    Ok(loops)
}

/// The guard of a branch at each host that takes part, which begins the branch.
fn open_guard<P: Protocols>(
    protocols: &P,
    protos: &[Proto],
    guard: SlotId,
    first: &[Stmt],
    other: &[Stmt],
    held: &Items<P::Parts>,
    to: &mut Duet,
) -> Result<Items<(u8, u32)>, AllocError>
    requires ready { IsReady (P.offer protocols.now) protos.now held.now 8192 to.old.next }
    requires guard { guard.0 < length held.now }
    ensures exact { let o = P.offer protocols.now in IfOk result (λ at. (at, to.new) ≡
        guarded o.calls protos.now guard first.now other.now held.now to.old) }
    ensures few { OnOk result (TakesAtMost 8192 to.old.next to.new.next) }
{
    let hosts = takers_of(protocols, protos, first, other, to)?;
    let parts = deliver(protocols, protos, held, guard, hosts.as_slice(), to)?;
    open_branch(parts.as_slice(), to)?;
    Ok(parts)
}

/// A block, so often.
#[cycle(split)]
fn repeat<P: Protocols>(
    protocols: &P,
    protos: &[Proto],
    count: u32,
    body: &[Stmt],
    held: &mut Items<P::Parts>,
    turns: &[u32],
    to: &mut Duet,
) -> Result<(), AllocError>
    requires { CanEmit (P.offer protocols.now) protos.now (repeat_fit (P.offer protocols.now) protos.now body.now) held.old to.old.next }
    ensures exact { OnOk result ((to.new, held.new) ≡ loop_onto (P.offer protocols.now).calls protos.now count body.now held.old
        turns.now to.old) }
    ensures emits { let o = P.offer protocols.now in OnOk result (Adds o protos.now (repeat_fit o protos.now body.now) held.old
        to.old held.new to.new) }
{
    let registers = Items::from_slice(to.alloc(), to.next())?;
    let loops = open_loop(protocols, protos, count, body, to)?;
    block(protocols, protos, body, held, registers.as_slice(), to)?;
    close(loops.as_slice(), to)?;
    Ok(())
}

/// A statement.
#[cycle(split)]
#[tactic(auto, using(crate::proofs::Variants::stmt_let, crate::proofs::Variants::stmt_variable, crate::proofs::Variants::stmt_array, crate::proofs::Variants::stmt_store, crate::proofs::Variants::stmt_put, crate::proofs::Variants::stmt_output, crate::proofs::Variants::stmt_for))]
fn statement<P: Protocols>(
    protocols: &P,
    protos: &[Proto],
    stmt: &Stmt,
    held: &mut Items<P::Parts>,
    turns: &[u32],
    to: &mut Duet,
) -> Result<(), AllocError>
    requires { CanEmit (P.offer protocols.now) protos.now (fit (P.offer protocols.now) protos.now stmt.now) held.old to.old.next }
    ensures exact { OnOk result ((to.new, held.new) ≡ stmt_onto (P.offer protocols.now).calls protos.now stmt.now held.old turns.now
        to.old) }
    ensures emits { let o = P.offer protocols.now in OnOk result (Adds o protos.now (fit o protos.now stmt.now) held.old to.old
        held.new to.new) }
{
    match stmt {
        Stmt::Let(slot, right) => binding(protocols, protos, *slot, right, held, turns, to)?,
        Stmt::NewVar(name, slot) => variable(protocols, protos, *name, *slot, held, to)?,
        Stmt::NewArray(name, size) => array(protocols, protos, *name, *size, held, to)?,
        Stmt::Store(name, slot) => store(protocols, protos, *name, *slot, held, to)?,
        Stmt::Put(name, index, slot) => write(protocols, protos, *name, *index, *slot, held, to)?,
        Stmt::Output(slot, host, _) => tell(protocols, protos, *slot, *host, held, to)?,
        Stmt::If(guard, then_block, else_block, _) => {
            let (then_block, else_block) = (then_block.as_slice(), else_block.as_slice());
            let parts = open_guard(protocols, protos, *guard, then_block, else_block, held, to)?;
            block(protocols, protos, then_block, held, turns, to)?;
            turn_branch(parts.as_slice(), to)?;
            block(protocols, protos, else_block, held, turns, to)?;
            close(parts.as_slice(), to)?
        }
        Stmt::For(count, body) => repeat(
            protocols,
            protos,
            *count,
            body.as_slice(),
            held,
            turns,
            to,
        )?,
    }
    Ok(())
}

/// Statements in order.
#[cycle(split)]
fn block<P: Protocols>(
    protocols: &P,
    protos: &[Proto],
    body: &[Stmt],
    held: &mut Items<P::Parts>,
    turns: &[u32],
    to: &mut Duet,
) -> Result<(), AllocError>
    requires { CanEmit (P.offer protocols.now) protos.now (block_fit (P.offer protocols.now) protos.now body.now) held.old to.old.next }
    ensures exact { OnOk result ((to.new, held.new) ≡ block_onto (P.offer protocols.now).calls protos.now body.now held.old
        turns.now to.old) }
    ensures emits { let o = P.offer protocols.now in OnOk result (Adds o protos.now (block_fit o protos.now body.now) held.old
        to.old held.new to.new) }
{
    for stmt in body {
        statement(protocols, protos, stmt, held, turns, to)?;
    }
    Ok(())
}

/// The joint code of a program whose slots stand at these protocols: the lines of its plan.
pub fn joint_code<P: Protocols>(
    alloc: Global,
    protocols: &P,
    protos: &[Proto],
    program: &Program,
) -> Result<Items<Line>, AllocError>
    requires hosts { length program.now.hosts ≡ (P.offer protocols.now).calls.hosts }
    requires served { AreServed (P.offer protocols.now) protos.now }
    requires stands { IsTrue (all_meet (stmt_stands (P.offer protocols.now) protos.now) program.now.body) }
    ensures { IfOk result (λ lines. lines ≡ program_lines (P.offer protocols.now).calls protos.now program.now) }
{
    let mut to = Duet::new(alloc, protocols.hosts())?;
    let mut held = Items::new(alloc);
    block(
        protocols,
        protos,
        program.form().body.as_slice(),
        &mut held,
        &[],
        &mut to,
    )?;
    Ok(to.into_lines())
}
