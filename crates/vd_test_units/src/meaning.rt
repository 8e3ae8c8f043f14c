//! Programs that are run in clear, by one host.

use std::alloc::{AllocError, Global};
use std::test::Fail;
use vd_base::{HostId, Inputs, Items, Names, Op, Outputs, SlotId};
use vd_core::{NormalForm, Right, Stmt};
use vd_semantics::clear_core;

/// What the host hands in.
fn inputs(alloc: Global, words: &[u32]) -> Result<Inputs, AllocError> {
    let words = Items::from_slice(alloc, words)?;
    let mut inputs = Items::new(alloc);
    inputs.push(words)?;
    Ok(inputs)
}

/// Whether there is one host, and it is told these words.
fn tells(outputs: &Outputs, words: &[u32]) -> bool {
    outputs.as_slice().len() == 1 && outputs.as_slice()[0].as_slice() == words
}

/// The first slot has the next word of the host, and the second one twice this word, which the host is told.
fn statements(alloc: Global) -> Result<Items<Stmt>, AllocError> {
    let operands = Items::from_slice(alloc, &[SlotId(0), SlotId(0)])?;
    let statements = vec![in alloc;
        Stmt::Let(SlotId(0), Right::Input(HostId(0))),
        Stmt::Let(SlotId(1), Right::Apply(Op::Add, operands)),
        Stmt::Output(SlotId(1), HostId(0), 0),
    ]?;
    Ok(Items::from_vec(statements))
}

fn host_names(alloc: Global) -> Result<Names, AllocError> {
    let name = Items::from_slice(alloc, b"alice")?;
    let mut hosts = Items::new(alloc);
    hosts.push(name)?;
    Ok(hosts)
}

/// A program of one host that is told twice its word.
fn doubling(alloc: Global) -> Result<NormalForm, AllocError> {
    let hosts = host_names(alloc)?;
    let body = statements(alloc)?;
    Ok(NormalForm {
        principals: Items::new(alloc),
        hosts,
        labels: Items::new(alloc),
        slots: Items::new(alloc),
        body,
    })
}

fn program_tells(
    alloc: Global,
    program: &NormalForm,
    words: &[u32],
) -> Result<Outputs, AllocError> {
    let inputs = inputs(alloc, words)?;
    clear_core(alloc, program, &inputs)
}

#[test]
fn a_let_normal_program_gives_each_host_its_words(rt: HostRuntime) -> Result<(), Fail> {
    let program = doubling(rt.alloc())?;
    let outputs = program_tells(rt.alloc(), &program, &[4])?;
    assert!(rt; tells(&outputs, &[8]));
    Ok(())
}
