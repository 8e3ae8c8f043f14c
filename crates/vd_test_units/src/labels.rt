//! Least labels, and labels from elsewhere.

use crate::sources::{least_labels, program_of, system_of};
use std::alloc::Global;
use std::test::Fail;
use vd_constraints::{Labels, System};
use vd_flow::{FlowFault, confirm, is_labelling};
use vd_formula::{Formula, Label};

/// Two hosts whose inputs are compared.
const COMPARISON: &[u8] =
    b"principals A, B;\nhost alice {A ; A & B};\nhost bob {B ; A & B};\nmain {\n  let a = input(alice);\n  let b = input(bob);\n  let r = declassify(a < b, {A | B});\n  output r to alice;\n  output r to bob;\n}\n";

/// A part of a label.
#[derive(Clone, Copy)]
enum Part {
    Conf,
    Integ,
}

/// A formula over two names.
#[derive(Clone, Copy)]
enum Formed {
    /// True at no set of names.
    Never,
    /// True at the sets that have the first name.
    First,
}

fn formula_of(formed: Formed) -> Formula {
    match formed {
        Formed::Never => Formula::never(2),
        Formed::First => Formula::name(0, 2),
    }
}

/// A slot, a part of its label, and what becomes of this part.
type Change = (usize, Part, Formed);

fn change(labels: &mut Labels, change: Change) -> Result<(), Fail> {
    let (slot, part, formed) = change;
    if labels.slots.as_slice().len() <= slot {
        return Err("too few slots".into());
    }
    let old = labels.slots.as_slice()[slot];
    let formula = formula_of(formed);
    let label = match part {
        Part::Conf => Label {
            conf: formula,
            ..old
        },
        Part::Integ => Label {
            integ: formula,
            ..old
        },
    };
    labels.slots.set(slot, label);
    Ok(())
}

/// The least labels of the system, changed in these places.
fn changed(alloc: Global, system: &System, changes: &[Change]) -> Result<Labels, Fail> {
    let mut labels = least_labels(alloc, system)?;
    for at in changes {
        change(&mut labels, *at)?;
    }
    Ok(labels)
}

/// What is found in the least labels of the system, changed in these places.
fn confirmed(
    alloc: Global,
    system: &System,
    changes: &[Change],
) -> Result<Result<(), FlowFault>, Fail> {
    let labels = changed(alloc, system, changes)?;
    if is_labelling(system, &labels) {
        Ok(confirm(system, &labels))
    } else {
        Err("no labelling".into())
    }
}

/// Changes of the least labels of the comparison, and what is then found in them.
const CHANGES: [(&[Change], Result<(), FlowFault>); 3] = [
    (&[], Ok(())),
    (&[(0, Part::Integ, Formed::Never)], Err(FlowFault::Upper(0))),
    (
        &[
            (0, Part::Integ, Formed::Never),
            (2, Part::Conf, Formed::First),
        ],
        Err(FlowFault::Lower(6)),
    ),
];

#[test]
fn least_labels_are_confirmed_and_others_refused(rt: HostRuntime) -> Result<(), Fail> {
    let program = program_of(rt.alloc(), COMPARISON)?;
    let system = system_of(rt.alloc(), &program)?;
    for (changes, wanted) in CHANGES {
        let found = confirmed(rt.alloc(), &system, changes)?;
        assert_eq!(rt; found, wanted);
    }
    Ok(())
}
