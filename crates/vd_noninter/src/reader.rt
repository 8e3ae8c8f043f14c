//! What one host may read.

ghost use Rattle.std.specs.Prelude.{◌≡◌, ◌≤◌, IfOk, length, All};
ghost use Rattle.vd_base.specs.Limits.{most_principals};
ghost use Rattle.vd_constraints.specs.Rules.{host_label};
ghost use Rattle.vd_constraints.specs.Systems.{IsLabelOver};
ghost use Rattle.vd_formula.specs.TruthTable.{acts};

use std::alloc::{AllocError, Global};
use vd_base::{HostId, Items, SlotId};
use vd_core::NormalForm;
use vd_formula::{Formula, Label};

/// A host, and for each slot whether the host may read it.
#[derive(Drop)]
pub struct Reader {
    pub slots: Items<bool>,
    pub host: HostId,
}

impl Reader {
    ghost use Rattle.vd_noninter.specs.Edges.{readable, reads_in};

    /// What the host may read of slots with these labels.
    pub fn new(
        alloc: Global,
        form: &NormalForm,
        labels: &[Label],
        host: HostId,
    ) -> Result<Reader, AllocError>
        requires few { length form.now.principals ≤ most_principals }
        requires over { All (IsLabelOver (length form.now.principals)) labels.now }
        ensures host { IfOk result (λ reader. reader.host ≡ host) }
        ensures slots { IfOk result (λ reader. reader.slots ≡ readable form.now host labels.now) }
    {
        let conf = conf_of(form, host);
        let mut slots = Items::new(alloc);
        for label in labels {
            slots.push(acts_for(&conf, &label.conf))?;
        }
        Ok(Reader { slots, host })
    }

    /// Whether the host may read the slot. It may not where there is no such slot.
    pub fn reads(&self, slot: SlotId) -> bool
        ensures { result ≡ reads_in self.now slot.0 }
    {
        match self.slots.as_slice().get(usize::from(slot.0)) {
            Some(reads) => *reads,
            None => false,
        }
    }
}

/// Whom the confidentiality of a host acts for.
fn conf_of(form: &NormalForm, host: HostId) -> Formula
    requires { length form.now.principals ≤ most_principals }
    ensures same { result ≡ (host_label form.now host).conf }
    ensures over { result.names ≡ length form.now.principals }
{
    match form.labels.as_slice().get(usize::from(host.0)) {
        Some(written) => Formula::over(&written.conf, &form.principals),
        None => Formula::any(form.principals.as_slice().len() as u8),
    }
}

/// Whether the formula acts for the other.
fn acts_for(formula: &Formula, other: &Formula) -> bool
    requires { formula.now.names ≡ other.now.names }
    ensures { result ≡ acts formula.now other.now }
{
    formula.acts_for(other)
}
