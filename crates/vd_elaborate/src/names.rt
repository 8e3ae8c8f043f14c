//! The names in sight, with the slots that they stand for.

ghost use Rattle.std.specs.Prelude.{◌≡◌, IfOk};
ghost use Rattle.vd_base.specs.Names.{at_name, bound};
ghost use Rattle.vd_semantics.specs.SourceMeaning.{parameter_names};
ghost use Rattle.vd_elaborate.specs.declared.anf.spot.Spot.TheVariants.{Binding};

use crate::anf::Spot;
use std::alloc::{AllocError, Global};
use vd_base::Scope;
use vd_core::Parameter;

/// The slot that a name stands for, if it is in sight.
pub(crate) fn spot(names: &Scope<Spot>, name: &[u8]) -> Option<Spot>
    ensures { result ≡ at_name names.now name.now }
{
    names.find(name).copied()
}

/// The parameters of a call, at the slots of its arguments.
pub(crate) fn bind(
    alloc: Global,
    parameters: &[Parameter],
    slots: &[u16],
) -> Result<Scope<Spot>, AllocError>
    ensures { IfOk result (λ names. names ≡ bound Binding (parameter_names parameters.now) slots.now) }
{
    let mut names = Scope::new(alloc);
    let mut left = slots;
    for parameter in parameters {
        match left.split_first() {
            None => return Ok(names),
            Some((slot, rest)) => {
                names.add(parameter.name.name.as_slice(), Spot::Binding(*slot))?;
                left = rest;
            }
        }
    }
    Ok(names)
}
