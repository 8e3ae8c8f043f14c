//! Formulas.

use crate::forms::{form, formula, letters, over};
use std::alloc::{AllocError, Global};
use std::test::Fail;
use vd_base::{Form, Items, Name};
use vd_formula::{FormFault, Formula};

/// The numbers of the sets at which the formula is true.
fn true_sets(alloc: Global, formula: &Formula) -> Result<Vec<u8>, AllocError> {
    let mut sets = Vec::new(alloc);
    for set in 0..1u8 << formula.names() {
        if formula.at(set) {
            sets.push(set)?;
        }
    }
    Ok(sets)
}

/// Whether the formula is true at just these sets.
fn is_true_at(alloc: Global, formula: &Formula, sets: &[u8]) -> Result<bool, AllocError> {
    Ok(true_sets(alloc, formula)?.as_slice() == sets)
}

/// Whether the formula has just these minimal sets.
fn has_minimal_sets(alloc: Global, formula: &Formula, sets: &[u8]) -> Result<bool, AllocError> {
    Ok(formula.minimal_sets(alloc)?.as_slice() == sets)
}

/// How many names there are, a form over them, the sets at which it is true, and the minimal ones among them.
const FORMS: [(usize, &str, &[u8], &[u8]); 5] = [
    (2, "1", &[0, 1, 2, 3], &[0]),
    (2, "0", &[], &[]),
    (2, "B", &[2, 3], &[2]),
    (3, "|&ABC", &[3, 4, 5, 6, 7], &[3, 4]),
    (3, "&|AB&|ACA", &[1, 3, 5, 7], &[1]),
];

#[test]
fn written_forms_have_their_truths(rt: HostRuntime) -> Result<(), Fail> {
    let alloc = rt.alloc();
    for (count, text, sets, minimal) in FORMS {
        let formula = formula(alloc, count, text)?;
        assert!(rt; is_true_at(alloc, &formula, sets)?, "{text}");
        assert!(rt; has_minimal_sets(alloc, &formula, minimal)?, "{text}");
    }
    Ok(())
}

/// The name that is told as unknown, where the names are A and B.
fn unknown_name(alloc: Global, form: &Form) -> Result<Option<Name>, Fail> {
    let names = letters(alloc, 2)?;
    if names.as_slice().len() > 6 {
        return Err("too many names".into());
    }
    match Formula::of(alloc, form, &names) {
        Ok(_formula) => Ok(None),
        Err(FormFault::NoName(name)) => Ok(Some(name)),
        Err(FormFault::Memory) => Err("out of memory".into()),
    }
}

#[test]
fn the_first_unknown_name_is_told(rt: HostRuntime) -> Result<(), Fail> {
    let form = form(rt.alloc(), "|&BzC")?;
    match unknown_name(rt.alloc(), &form)? {
        Some(name) => assert!(rt; name.as_slice() == b"zz".as_slice()),
        None => panic!(rt; "zz is unknown"),
    }
    Ok(())
}

/// The formula of a form over the names A and B, where a name that is not among them is in no set.
fn over_two(alloc: Global, text: &str) -> Result<Formula, Fail> {
    let form = form(alloc, text)?;
    let names = letters(alloc, 2)?;
    if names.as_slice().len() > 6 {
        return Err("too many names".into());
    }
    Ok(Formula::over(&form, &names))
}

#[test]
fn an_unknown_name_is_in_no_set(rt: HostRuntime) -> Result<(), Fail> {
    let alloc = rt.alloc();
    let rows: [(&str, &[u8]); 2] = [("|zB", &[2, 3]), ("&Az", &[])];
    for (text, sets) in rows {
        let formula = over_two(alloc, text)?;
        assert!(rt; is_true_at(alloc, &formula, sets)?, "{text}");
    }
    Ok(())
}

/// The implication, where both are over as many names.
fn implication(first: &Formula, second: &Formula) -> Option<Formula> {
    if first.names() == second.names() {
        Some(first.implies(second))
    } else {
        None
    }
}

/// Two forms over the names A and B, and what the first one implies the second by.
const IMPLICATIONS: [(&str, &str, &str); 4] = [
    ("|AB", "&AB", "&AB"),
    ("1", "0", "0"),
    ("0", "0", "1"),
    ("&AB", "|AB", "1"),
];

#[test]
fn implication_is_closed_over_larger_sets(rt: HostRuntime) -> Result<(), Fail> {
    let alloc = rt.alloc();
    for (first, second, wanted) in IMPLICATIONS {
        let found = implication(&formula(alloc, 2, first)?, &formula(alloc, 2, second)?);
        assert!(rt;
            found == Some(formula(alloc, 2, wanted)?),
            "{first} {second}"
        );
    }
    Ok(())
}

/// Any three of the names A to F together.
const TRIPLES: [&str; 20] = [
    "&&ABC", "&&ABD", "&&ABE", "&&ABF", "&&ACD", "&&ACE", "&&ACF", "&&ADE", "&&ADF", "&&AEF",
    "&&BCD", "&&BCE", "&&BCF", "&&BDE", "&&BDF", "&&BEF", "&&CDE", "&&CDF", "&&CEF", "&&DEF",
];

/// Either of the forms of these texts.
fn either(alloc: Global, texts: &[&str]) -> Result<Form, Fail> {
    let mut parts = Items::new(alloc);
    for text in texts {
        let part = form(alloc, text)?;
        parts.push(part)?;
    }
    Ok(Form::Either(parts))
}

#[test]
fn three_of_six_names_have_twenty_minimal_sets(rt: HostRuntime) -> Result<(), Fail> {
    let alloc = rt.alloc();
    let form = either(alloc, TRIPLES.as_slice())?;
    let formula = over(alloc, 6, &form)?;
    let wanted = [
        7, 11, 13, 14, 19, 21, 22, 25, 26, 28, 35, 37, 38, 41, 42, 44, 49, 50, 52, 56,
    ];
    assert!(rt; has_minimal_sets(alloc, &formula, wanted.as_slice())?);
    Ok(())
}
