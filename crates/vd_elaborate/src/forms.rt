//! Written formulas and labels, without their places in the text.

ghost use Rattle.std.specs.Prelude.{◌≡◌, IfOk, map, option_map};
ghost use Rattle.vd_elaborate.specs.Normal.{form_of, written};

use std::alloc::{AllocError, Global};
use vd_base::{Form, Items, Name};
use vd_core::{Written, WrittenForm, WrittenLabel};

/// A copy of a name.
pub(crate) fn copy_name(alloc: Global, name: &Name) -> Result<Name, AllocError>
    ensures { IfOk result (λ copy. copy ≡ name.now) }
{
    Items::from_slice(alloc, name.as_slice())
}

#[cycle(form)]
pub(crate) fn copy_form(alloc: Global, form: &WrittenForm) -> Result<Form, AllocError>
    ensures { IfOk result (λ copy. copy ≡ form_of form.now) }
{
    match form {
        WrittenForm::Any => Ok(Form::Any),
        WrittenForm::Never => Ok(Form::Never),
        WrittenForm::Name(ident) => {
            let name = copy_name(alloc, &ident.name)?;
            Ok(Form::Name(name))
        }
        WrittenForm::Both(forms) => {
            let forms = copy_forms(alloc, forms.as_slice())?;
            Ok(Form::Both(forms))
        }
        WrittenForm::Either(forms) => {
            let forms = copy_forms(alloc, forms.as_slice())?;
            Ok(Form::Either(forms))
        }
    }
}

#[cycle(form)]
fn copy_forms(alloc: Global, forms: &[WrittenForm]) -> Result<Items<Form>, AllocError>
    ensures { IfOk result (λ copies. copies ≡ map form_of forms.now) }
{
    let mut copies = Items::new(alloc);
    for form in forms {
        let copy = copy_form(alloc, form)?;
        copies.push(copy)?;
    }
    Ok(copies)
}

pub(crate) fn copy_label(alloc: Global, label: &WrittenLabel) -> Result<Written, AllocError>
    ensures { IfOk result (λ copy. copy ≡ written label.now) }
{
    let conf = copy_form(alloc, &label.conf)?;
    let integ = copy_form(alloc, &label.integ)?;
    Ok(Written { conf, integ })
}

/// The label of a statement, if it has one.
pub(crate) fn copy_optional(
    alloc: Global,
    label: &Option<WrittenLabel>,
) -> Result<Option<Written>, AllocError>
    ensures { IfOk result (λ copy. copy ≡ option_map written label.now) }
{
    match label {
        None => Ok(None),
        Some(label) => {
            let label = copy_label(alloc, label)?;
            Ok(Some(label))
        }
    }
}
