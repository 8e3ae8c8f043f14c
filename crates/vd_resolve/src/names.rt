//! Names that are looked up, and labels that name principals.

ghost use Rattle.std.specs.Prelude.{◌≡◌, [], ◌∷◌, ◌++◌, Ok, OnOk, IfErr, IfOk};
ghost use Rattle.vd_resolve.specs.Causes.{declared_once, plain};
ghost use Rattle.vd_resolve.specs.Faults.{Nothing, carried};
ghost use Rattle.vd_resolve.specs.Rules.{known as known_name, declared, form_check, label_check, written_label_check};
ghost use Rattle.vd_resolve.specs.Tables.{names, places};
ghost use Rattle.vd_resolve.specs.Walks.{IsCauseOf, IsFaultOf};

use crate::fault::NameFault;
use crate::table::NameTable;
use vd_core::{Ident, WrittenForm, WrittenLabel};

pub(crate) fn known(table: &NameTable<'_, ()>, name: &Ident) -> Result<(), NameFault>
    ensures ok { OnOk result (known_name (names table.now) name.now ≡ Ok tt) }
    ensures fault { IfErr result (IsFaultOf (known_name (names table.now) name.now)) }
    ensures cause { IfErr result (IsCauseOf (plain (known_name (names table.now) name.now))) }
    ensures plain { IfErr result (λ fault. carried fault ≡ Nothing) }
{
    if table.contains(name.name.as_slice()) {
        Ok(())
    } else {
        Err(NameFault::Unknown(name.span))
    }
}

/// Adds a name, which is not there yet.
pub(crate) fn declare<'a, V: Drop>(
    table: &mut NameTable<'a, V>,
    name: &'a Ident,
    value: V,
) -> Result<(), NameFault>
    ensures ok { OnOk result (declared name.now value (names table.old) ≡ Ok (names table.new)) }
    ensures told { OnOk result (declared_once name.now value table.old ≡ Ok table.new) }
    ensures added { OnOk result (table.new ≡ (
      names table.old ++ (name.now.name, value) ∷ [],
      places table.old ++ (name.now.name, name.now.span) ∷ [],
    )) }
    ensures fault { IfErr result (IsFaultOf (declared name.now value (names table.old))) }
    ensures cause { IfErr result (IsCauseOf (declared_once name.now value table.old)) }
{
    match table.place(name.name.as_slice()) {
        Some(first) => Err(NameFault::Twice(name.span, first)),
        None => table.add(name, value),
    }
}

/// Whether the principals of a form are declared.
pub(crate) fn check_form(
    principals: &NameTable<'_, ()>,
    form: &WrittenForm,
) -> Result<(), NameFault>
    ensures ok { OnOk result (form_check form.now (names principals.now) ≡ Ok tt) }
    ensures fault { IfErr result (IsFaultOf (form_check form.now (names principals.now))) }
    ensures plain { IfErr result (λ fault. carried fault ≡ Nothing) }
{
    match form {
        WrittenForm::Any | WrittenForm::Never => Ok(()),
        WrittenForm::Name(name) => known(principals, name),
        WrittenForm::Both(parts) | WrittenForm::Either(parts) => {
            for part in parts.as_slice() {
                check_form(principals, part)?;
            }
            Ok(())
        }
    }
}

pub(crate) fn check_label(
    principals: &NameTable<'_, ()>,
    label: &WrittenLabel,
) -> Result<(), NameFault>
    ensures ok { OnOk result (label_check label.now (names principals.now) ≡ Ok tt) }
    ensures fault { IfErr result (IsFaultOf (label_check label.now (names principals.now))) }
    ensures cause { IfErr result (IsCauseOf (plain (label_check label.now (names principals.now)))) }
{
    check_form(principals, &label.conf)?;
    check_form(principals, &label.integ)
}

pub(crate) fn check_written_label(
    principals: &NameTable<'_, ()>,
    label: &Option<WrittenLabel>,
) -> Result<(), NameFault>
    ensures ok { OnOk result (written_label_check label.now (names principals.now) ≡ Ok tt) }
    ensures fault { IfErr result (IsFaultOf (written_label_check label.now (names principals.now))) }
    ensures cause { IfErr result (IsCauseOf (plain (written_label_check label.now (names principals.now)))) }
{
    match label {
        Some(label) => check_label(principals, label),
        None => Ok(()),
    }
}
