//! A host at its start.

ghost use Rattle.std.specs.Prelude.{◌≡◌, ◌+◌, IfOk, length};
ghost use Rattle.vd_host_session.specs.Starts.{CanPlay, IsProgramRead, Starts};
ghost use Rattle.vd_tape.specs.Text.{IsDealOf};

use crate::Task;
use std::alloc::{AllocError, Global};
use vd_base::{Items, Text, Words};
use vd_hostcode::HostProgram;
use vd_machine::Machine;
use vd_tape::Deal;

/// A host that is ready to be run: what it is told of itself and its peers, and its machine.
#[derive(Drop)]
pub struct Ready {
    pub task: Task,
    pub machine: Machine,
}

/// The host of a program that was read, with its inputs, its deal and the addresses of its pairs in the order of its peers.
pub fn start(
    alloc: Global,
    program: HostProgram,
    inputs: Words,
    deal: Deal,
    addresses: Items<Text>,
) -> Result<Ready, AllocError>
    requires program { IsProgramRead program }
    requires deal { IsDealOf (length program.hosts) program.me.0 deal }
    requires addresses { length addresses + 1 ≡ length program.hosts }
    ensures starts { IfOk result (Starts program inputs deal addresses) }
    ensures ready { IfOk result CanPlay }
{
    let HostProgram {
        hosts: _,
        me,
        plan,
        code,
    } = program;
    let machine = Machine::load(alloc, code, inputs, deal)?;
    let plan = plan.bytes;
    let task = Task {
        me,
        plan,
        addresses,
    };
    Ok(Ready { task, machine })
}
