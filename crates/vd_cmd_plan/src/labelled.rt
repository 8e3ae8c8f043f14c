//! A program with its least labels.

ghost use Rattle.std.specs.Prelude.{◌≡◌};
ghost use Rattle.vd_constraints.specs.Rules.{system_of};
ghost use Rattle.vd_constraints.specs.Satisfies.{IsLeast};
ghost use Rattle.vd_cmd_plan.specs.Labelled.{labelled_form};

use std::marker::Model;
use vd_constraints::Labels;
use vd_core::Program;

/// A program with the least labels of its slots and blocks.
#[derive(Debug, Drop)]
pub struct Labelled {
    program: Program,
    labels: Labels,
}

impl Model for Labelled {
    ghost use Rattle.std.specs.Coded.{codes};
    ghost use Rattle.vd_constraints.specs.Rules.{system_of as rules_of};
    ghost use Rattle.vd_constraints.specs.Satisfies.{IsLeast as AreLeast};
    ghost use Rattle.vd_constraints.specs.contracts.labels.Labels as labels_contract;
    ghost use Rattle.vd_core.specs.contracts.normal.NormalForm as form_contract;
    ghost use Rattle.vd_cmd_plan.specs.Labelled.{LabelledForm};

    ghost Value = { LabelledForm };

    ghost coded = { Prim.hlevel (codes, form_contract.the_row.coded, labels_contract.the_row.coded) };

    ghost view = { λ labelled. record { program = labelled.program; labels = labelled.labels } };

    ghost invariant = { λ labelled. AreLeast (rules_of labelled.program) labelled.labels };
}

impl Labelled {
    /// A program with its least labels.
    pub fn new(program: Program, labels: Labels) -> Labelled
        requires { IsLeast (system_of program) labels }
        ensures { result ≡ labelled_form program labels }
    {
        Labelled { program, labels }
    }

    /// The program.
    pub fn program(&self) -> &Program
        ensures { result.now ≡ self.now.program }
    {
        &self.program
    }

    /// Its labels, which are the least.
    pub fn labels(&self) -> &Labels
        ensures same { result.now ≡ self.now.labels }
        ensures least { IsLeast (system_of self.now.program) self.now.labels }
    {
        &self.labels
    }
}
