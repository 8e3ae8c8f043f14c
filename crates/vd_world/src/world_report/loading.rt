//! The machines of all hosts.

ghost use Rattle.std.specs.Prelude.{IfOk};
ghost use Rattle.vd_tape.specs.Validity.{IsDeal};
ghost use Rattle.vd_world.specs.Loading.{AreForAll, CanLoad, EachLoads, Loads};

use std::alloc::{AllocError, Global};
use vd_base::{Inputs, Items, Words};
use vd_execution::Instr;
use vd_machine::Machine;
use vd_tape::{Deal, Deals};

/// The machine of a host, before its code.
fn load(alloc: Global, code: Items<Instr>, words: Words, deal: Deal) -> Result<Machine, AllocError>
    requires code { CanLoad code deal }
    requires deal { IsDeal deal }
    ensures { IfOk result (Loads code words deal) }
{
    Machine::load(alloc, code, words, deal)
}

/// The machines of all hosts, in order, before their codes.
pub(crate) fn load_all(
    alloc: Global,
    codes: Items<Items<Instr>>,
    inputs: Inputs,
    deals: Deals,
) -> Result<Vec<Machine>, AllocError>
    requires { AreForAll codes inputs deals }
    ensures { IfOk result (λ machines. EachLoads codes inputs deals machines.items) }
{
    let mut machines = Vec::new(alloc);
    let lists = inputs.into_vec().into_iter().zip(deals.into_vec());
    for (code, (words, deal)) in codes.into_vec().into_iter().zip(lists) {
        machines.push(load(alloc, code, words, deal)?)?;
    }
    Ok(machines)
}
