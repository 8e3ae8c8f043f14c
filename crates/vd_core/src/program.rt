//! Let-normal programs with what every one of them keeps.

ghost use Rattle.std.specs.Prelude.{◌≡◌};
ghost use Rattle.vd_core.specs.Facts.{IsWellMade};
ghost use Rattle.vd_core.specs.Numbers.{NumbersFit};

use crate::normal::NormalForm;
use crate::numbers::numbers_are_words;
use std::marker::Model;

/// A let-normal program that is well made: each slot is made once, in program order, before it is named and as what it is
/// used for; operands, shift amounts and limits fit; all hosts and principals that are named are declared; and its numbers are words.
#[derive(Debug, Drop)]
pub struct Program {
    form: NormalForm,
}

impl Model for Program {
    ghost use Rattle.vd_core.specs.declared.normal.NormalForm.{NormalForm as Form};
    ghost use Rattle.vd_core.specs.contracts.normal.NormalForm as form_contract;
    ghost use Rattle.vd_core.specs.Facts.{IsWellMade as Holds};
    ghost use Rattle.vd_core.specs.Numbers.{NumbersFit as Fit};

    ghost Value = { Form };

    ghost coded = { form_contract.the_row.coded };

    ghost view = { λ program. program.form };

    ghost invariant = { λ program. Holds program.form × Fit program.form };
}

impl Program {
    /// The program of a let-normal form that is well made.
    pub fn new(form: NormalForm) -> Program
        requires { IsWellMade form }
        ensures { result ≡ form }
    {
        numbers_are_words(&form);
        Program { form }
    }

    /// Its let-normal form.
    pub fn form(&self) -> &NormalForm
        ensures same { result.now ≡ self.now }
        ensures well_made { IsWellMade self.now }
        ensures fit { NumbersFit self.now }
    {
        &self.form
    }
}
