ghost use Rattle.std.specs.Prelude.{◌≡◌, ◌↔◌, IsTrue};

use crate::Formula;

/// A confidentiality and an integrity, over the same names.
#[derive(Clone, Copy, PartialEq, Eq, Debug)]
pub struct Label {
    /// Who acts for it may read.
    pub conf: Formula,
    /// It acts for those who may rely on what is labelled so.
    pub integ: Formula,
}

impl Label {
    ghost use Rattle.vd_formula.specs.Labels.{Covers, FlowsTo};

    /// Whether what has this label may go to where `to` is asked.
    pub fn flows(&self, to: &Label) -> bool
        requires conf { self.now.conf.names ≡ to.now.conf.names }
        requires integ { self.now.integ.names ≡ to.now.integ.names }
        ensures { IsTrue result ↔ FlowsTo self.now to.now }
    {
        to.conf.acts_for(&self.conf) && self.integ.acts_for(&to.integ)
    }

    /// Whether this authority acts for the label in both parts.
    pub fn covers(&self, label: &Label) -> bool
        requires conf { self.now.conf.names ≡ label.now.conf.names }
        requires integ { self.now.integ.names ≡ label.now.integ.names }
        ensures { IsTrue result ↔ Covers self.now label.now }
    {
        self.conf.acts_for(&label.conf) && self.integ.acts_for(&label.integ)
    }
}
