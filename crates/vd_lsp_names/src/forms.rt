//! Names that stand alone, and those in labels.

ghost use Rattle.std.specs.Prelude.{◌≡◌, OnOk};
ghost use Rattle.vd_lsp_names.specs.Uses as uses;

use crate::kinds::{Declared, Use};
use std::alloc::AllocError;
use vd_base::{Items, Scope};
use vd_core::{Ident, WrittenForm, WrittenLabel};

/// A name that is used, where these are in sight.
pub(crate) fn mention(
    names: &Scope<Declared>,
    name: &Ident,
    found: &mut Items<Use>,
) -> Result<(), AllocError>
    ensures { OnOk result (found.new ≡ uses.mention name.now names.now found.old) }
{
    let declared = names.find(name.name.as_slice()).copied();
    let at = name.span;
    found.push(Use { at, declared })
}

/// A name that is declared.
pub(crate) fn declare(
    declared: Declared,
    name: &Ident,
    found: &mut Items<Use>,
) -> Result<(), AllocError>
    ensures { OnOk result (found.new ≡ uses.declares name.now declared found.old) }
{
    found.push(Use {
        at: name.span,
        declared: Some(declared),
    })
}

/// The principals of a form.
pub(crate) fn form(
    principals: &Scope<Declared>,
    form: &WrittenForm,
    found: &mut Items<Use>,
) -> Result<(), AllocError>
    ensures { OnOk result (found.new ≡ uses.form_naming form.now principals.now found.old) }
{
    match form {
        WrittenForm::Any | WrittenForm::Never => Ok(()),
        WrittenForm::Name(name) => mention(principals, name, found),
        WrittenForm::Both(parts) | WrittenForm::Either(parts) => {
            for part in parts.as_slice() {
                self::form(principals, part, found)?;
            }
            Ok(())
        }
    }
}

/// The principals of a label.
pub(crate) fn label(
    principals: &Scope<Declared>,
    label: &WrittenLabel,
    found: &mut Items<Use>,
) -> Result<(), AllocError>
    ensures { OnOk result (found.new ≡ uses.label_naming label.now principals.now found.old) }
{
    form(principals, &label.conf, found)?;
    form(principals, &label.integ, found)
}

/// The principals of a label, if one is written.
pub(crate) fn written(
    principals: &Scope<Declared>,
    written: &Option<WrittenLabel>,
    found: &mut Items<Use>,
) -> Result<(), AllocError>
    ensures { OnOk result (found.new ≡ uses.written_naming written.now principals.now found.old) }
{
    match written {
        Some(written) => label(principals, written, found),
        None => Ok(()),
    }
}
