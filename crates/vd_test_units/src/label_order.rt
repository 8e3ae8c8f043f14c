//! Which labels flow to others and cover them.

use crate::forms::formula;
use std::alloc::Global;
use std::test::Fail;
use vd_formula::Label;

/// The texts of both parts of a label over the names A and B, the confidentiality first.
type Parts<'a> = (&'a str, &'a str);

fn label(alloc: Global, parts: Parts<'_>) -> Result<Label, Fail> {
    let (conf, integ) = parts;
    let conf = formula(alloc, 2, conf)?;
    let integ = formula(alloc, 2, integ)?;
    Ok(Label { conf, integ })
}

/// Whether the first label flows to the second, and whether it covers it, where all are over as many names.
fn compared(first: &Label, second: &Label) -> Option<(bool, bool)> {
    if first.conf.names() != second.conf.names() || first.integ.names() != second.integ.names() {
        return None;
    }
    Some((first.flows(second), first.covers(second)))
}

const ALICE: Parts<'_> = ("A", "A");

const BOB: Parts<'_> = ("B", "B");

/// More secret and less trusted than the label of alice.
const SHARED: Parts<'_> = ("&AB", "|AB");

/// More secret and more trusted than the label of alice.
const STRONG: Parts<'_> = ("&AB", "&AB");

/// Two labels, whether the first one flows to the second, and whether it covers it.
const LABELS: [(Parts<'_>, Parts<'_>, (bool, bool)); 6] = [
    (ALICE, ALICE, (true, true)),
    (ALICE, BOB, (false, false)),
    (ALICE, SHARED, (true, false)),
    (SHARED, ALICE, (false, false)),
    (STRONG, ALICE, (false, true)),
    (ALICE, STRONG, (false, false)),
];

#[test]
fn labels_are_compared_by_acting_for(rt: HostRuntime) -> Result<(), Fail> {
    let alloc = rt.alloc();
    for (first, second, wanted) in LABELS {
        let found = compared(&label(alloc, first)?, &label(alloc, second)?);
        assert_eq!(rt; found, Some(wanted), "{first:?} {second:?}");
    }
    Ok(())
}
