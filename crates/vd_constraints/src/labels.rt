//! Labels of slots and blocks.

ghost use Rattle.std.specs.Prelude.{◌≡◌};

use crate::system::{Part, Place};
use vd_base::Items;
use vd_formula::{Formula, Label};

/// A label for each slot and one for each block.
#[derive(PartialEq, Eq, Debug, Drop)]
pub struct Labels {
    pub slots: Items<Label>,
    pub blocks: Items<Label>,
}

impl Labels {
    ghost use Rattle.vd_constraints.specs.Satisfies.{formula_at, label_at};

    /// The formula of a part. Where the lists have no such slot or block it is the true formula over no names.
    pub fn part(&self, part: Part) -> Formula
        ensures { result ≡ formula_at self.now part }
    {
        let label = self.label(part.at);
        if part.integ { label.integ } else { label.conf }
    }

    /// The label at a place. Where the lists have no such slot or block its formulas are true, over no names.
    pub fn label(&self, at: Place) -> Label
        ensures { result ≡ label_at self.now at }
    {
        let label = match at {
            Place::Slot(slot) => self.slots.as_slice().get(usize::from(slot.0)),
            Place::Block(block) => self.blocks.as_slice().get(block as usize),
        };
        match label {
            Some(label) => *label,
            None => Label {
                conf: Formula::any(0),
                integ: Formula::any(0),
            },
        }
    }
}
