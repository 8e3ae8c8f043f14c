ghost use Rattle.std.specs.Prelude.{◌≡◌, ◌≤◌, IfOk, IfErr, IsOk, None, OnOk, length, position};
ghost use Rattle.std.specs.List.{list_any};
ghost use Rattle.std.specs.Option.{option_copied};
ghost use Rattle.std.specs.Str.{bytes_eq};
ghost use Rattle.vd_base.specs.Limits.{most_principals};
ghost use Rattle.vd_formula.specs.Faults.{IsFaultOf};
ghost use Rattle.vd_formula.specs.Forms.{first_unknown, formula_of, is_unknown};
ghost use Rattle.vd_formula.specs.TruthTable.{IsFormula};
ghost use Rattle.vd_formula.specs.declared.forms.FormFault.TheVariants as form_fault;

use crate::Formula;
use std::alloc::{AllocError, Global};
use std::error::Error;
use std::fmt;
use vd_base::{Form, Items, Name, Names};

/// Why a written form has no formula.
#[derive(PartialEq, Eq, Debug, Drop)]
pub enum FormFault {
    /// The first name of the form that is not among the names.
    NoName(Name),
    /// There was no memory left.
    Memory,
}

impl fmt::Display for FormFault {
    fn fmt<W: fmt::Write>(&self, f: &mut fmt::Formatter<W>) -> fmt::Result {
        match self {
            FormFault::NoName(_) => write!(f, "a name that is not among the names"),
            FormFault::Memory => write!(f, "out of memory"),
        }
    }
}

impl Error for FormFault {}

impl From<AllocError> for FormFault {
    ghost from_gives = { λ _ fault. fault ≡ form_fault.Memory };

    fn from(_: AllocError) -> Self {
        FormFault::Memory
    }
}

impl Formula {
    /// The formula of a written form over these names.
    pub fn of(alloc: Global, form: &Form, names: &Names) -> Result<Formula, FormFault>
        requires { length names.now ≤ most_principals }
        ensures formula { IfOk result (λ formula. formula ≡ formula_of form.now names.now) }
        ensures names { IfOk result (λ formula. formula.names ≡ length names.now) }
        ensures succeeds { first_unknown names.now form.now ≡ None → IsOk result }
        ensures known { OnOk result (first_unknown names.now form.now ≡ None) }
        ensures fault { IfErr result (IsFaultOf names.now form.now) }
    {
        match first_unknown(form, names) {
            None => Ok(Formula::over(form, names)),
            Some(name) => Err(FormFault::NoName(Items::from_slice(alloc, name.as_slice())?)),
        }
    }

    /// The formula of a written form over these names, where a name that is not among them is in no set.
    pub fn over(form: &Form, names: &Names) -> Formula
        requires { length names.now ≤ most_principals }
        ensures formula { result ≡ formula_of form.now names.now }
        ensures names { result.names ≡ length names.now }
        ensures valid { IsFormula result }
    {
        let count = names.as_slice().len() as u8;
        match form {
            Form::Any => Formula::any(count),
            Form::Never => Formula::never(count),
            Form::Name(name) => match place_of(name, names) {
                Some(place) => Formula::name(place as u8, count),
                None => Formula::never(count),
            },
            Form::Both(parts) => {
                let mut whole = Formula::any(count);
                for part in parts.iter() {
                    whole = whole.both(&Formula::over(part, names));
                }
                whole
            }
            Form::Either(parts) => {
                let mut whole = Formula::never(count);
                for part in parts.iter() {
                    whole = whole.either(&Formula::over(part, names));
                }
                whole
            }
        }
    }
}

/// The form's first name, in the order of the text, that is not among the names.
#[tactic(auto, using(crate::proofs::FormNames::no_part, crate::proofs::FormNames::unknown_both, crate::proofs::FormNames::unknown_either))]
fn first_unknown<'a>(form: &'a Form, names: &Names) -> Option<&'a Name>
    ensures { option_copied result ≡ first_unknown names.now form.now }
{
    match form {
        Form::Any | Form::Never => None,
        Form::Name(name) => if is_unknown(name, names) {
            Some(name)
        } else {
            None
        },
        Form::Both(parts) | Form::Either(parts) => {
            for part in parts.as_slice() {
                if let Some(name) = first_unknown(part, names) {
                    return Some(name);
                }
            }
            None
        }
    }
}

/// Whether the name is none of these.
fn is_unknown(name: &Name, names: &Names) -> bool
    ensures { result ≡ is_unknown names.now name.now }
{
    !contains(names, name)
}

fn contains(names: &Names, name: &Name) -> bool
    ensures { result ≡ list_any (λ other. bytes_eq other name.now) names.now }
{
    names.iter().any(|other| *other == *name)
}

/// The place of a name among the names, the first if it stands there twice.
fn place_of(name: &Name, names: &Names) -> Option<usize>
    ensures { result ≡ position (bytes_eq name.now) names.now }
{
    names.iter().position(|other| *name == *other)
}
