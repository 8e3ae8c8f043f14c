//! Generated sources, and the problems of sources.

use crate::sources::{least_labels, program_of, system_of};
use std::alloc::{AllocError, Global};
use std::test::Fail;
use vd_base::Bytes;
use vd_constraints::Labels;
use vd_core::Program;
use vd_gen::generate;
use vd_space::Problem;

/// The least labels of a program.
fn labels_of(alloc: Global, program: &Program) -> Result<Labels, Fail> {
    let system = system_of(alloc, program)?;
    least_labels(alloc, &system)
}

/// What the choice must know of a source.
fn problem_of(alloc: Global, text: &[u8]) -> Result<Problem, Fail> {
    let program = program_of(alloc, text)?;
    let labels = labels_of(alloc, &program)?;
    Ok(Problem::of(alloc, &program, &labels)?)
}

/// Slots, uses, outputs.
fn sizes_of(problem: &Problem) -> [usize; 3] {
    let slots = problem.slots.as_slice().len();
    let uses = problem.uses.as_slice().len();
    [slots, uses, problem.outputs.as_slice().len()]
}

/// The source for points with so many coordinates, or with one.
fn source_of(alloc: Global, coordinates: u32) -> Result<Bytes, AllocError> {
    generate(alloc, coordinates.max(1))
}

/// The sizes of the problem of a generated source.
fn generated_sizes(alloc: Global, coordinates: u32) -> Result<[usize; 3], Fail> {
    let text = source_of(alloc, coordinates)?;
    Ok(sizes_of(&problem_of(alloc, text.as_slice())?))
}

/// Coordinates, slots, uses, outputs.
const SIZES: [(u32, [usize; 3]); 3] = [(1, [7, 7, 2]), (2, [12, 13, 2]), (15, [77, 91, 2])];

#[test]
fn sources_are_generated(rt: HostRuntime) -> Result<(), Fail> {
    for (coordinates, sizes) in SIZES {
        assert_eq!(rt; generated_sizes(rt.alloc(), coordinates)?, sizes);
    }
    Ok(())
}

/// An array, and guards within each other: what each guard's branches name and tell.
const GUARDS: &str =
    "principals P;\nhost alice {P ; P};\nhost bob {P ; P};\nmain {\n  let a = input(alice);\n  array t: word[2];\n  if (a == 0) {\n    t[a] := 1;\n    if (a == 1) {\n      output a to bob;\n    }\n  }\n}\n";

/// How many hosts each guard's branches name or tell.
fn hosts_of_guards(alloc: Global, problem: &Problem) -> Result<Vec<usize>, AllocError> {
    let mut counts = Vec::new(alloc);
    for guard in problem.guards.as_slice() {
        counts.push(guard.hosts.as_slice().len())?;
    }
    Ok(counts)
}

#[test]
fn inner_guards_count_for_outer_ones(rt: HostRuntime) -> Result<(), Fail> {
    let problem = problem_of(rt.alloc(), GUARDS.as_bytes())?;
    assert_eq!(rt; problem.indexes.as_slice().len(), 1);
    let counts = hosts_of_guards(rt.alloc(), &problem)?;
    assert_eq!(rt; counts.as_slice(), [1, 1].as_slice());
    Ok(())
}
