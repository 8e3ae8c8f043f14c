//! Which guards no host may read, and the program without hidden branches.

ghost use Rattle.std.specs.Prelude.{◌≡◌, ◌≤◌, ◌<◌, length, All, IfOk};
ghost use Rattle.std.specs.Option.{MatchOption};
ghost use Rattle.vd_base.specs.Limits.{most_hosts, most_principals};
ghost use Rattle.vd_constraints.specs.Rules.{host_label, system_of};
ghost use Rattle.vd_constraints.specs.Satisfies.{Satisfies};
ghost use Rattle.vd_constraints.specs.Systems.{IsLabelOver};
ghost use Rattle.vd_formula.specs.TruthTable.{acts};
ghost use Rattle.vd_mux.specs.Hidden.{some_reads, hidden_from, hidden_marks, turn_of};

use crate::turning::turn;
use std::alloc::{AllocError, Global};
use vd_base::{HostId, Items};
use vd_constraints::Labels;
use vd_core::{NormalForm, Program};
use vd_formula::{Formula, Label};

/// Whom the confidentiality of a host acts for.
fn conf_of(form: &NormalForm, host: HostId) -> Formula
    requires { length form.now.principals ≤ most_principals }
    ensures same { result ≡ (host_label form.now host).conf }
    ensures over { result.names ≡ length form.now.principals }
{
    match form.labels.as_slice().get(usize::from(host.0)) {
        Some(written) => Formula::over(&written.conf, &form.principals),
        None => Formula::any(form.principals.as_slice().len() as u8),
    }
}

/// Whether the formula acts for the other.
fn acts_for(formula: &Formula, other: &Formula) -> bool
    requires { formula.now.names ≡ other.now.names }
    ensures { result ≡ acts formula.now other.now }
{
    formula.acts_for(other)
}

/// Whether some host may read what has this label.
fn is_read(form: &NormalForm, label: &Label) -> bool
    requires few { length form.now.principals ≤ most_principals }
    requires hosts { length form.now.hosts ≤ most_hosts }
    requires over { IsLabelOver (length form.now.principals) label.now }
    ensures { result ≡ some_reads form.now (length form.now.hosts) label.now }
{
    for number in 0..form.hosts.as_slice().len() {
        let conf = conf_of(form, HostId(number as u8));
        if acts_for(&conf, &label.conf) {
            return true;
        }
    }
    false
}

/// Of each slot whether no host may read it.
fn all_hidden(alloc: Global, form: &NormalForm, labels: &[Label]) -> Result<Items<bool>, AllocError>
    requires few { length form.now.principals ≤ most_principals }
    requires hosts { length form.now.hosts ≤ most_hosts }
    requires over { All (IsLabelOver (length form.now.principals)) labels.now }
    ensures { IfOk result (λ marks. marks ≡ hidden_from form.now (length form.now.hosts) labels.now) }
{
    let mut marks = Items::new(alloc);
    for label in labels {
        let read = is_read(form, label);
        marks.push(!read)?;
    }
    Ok(marks)
}

/// Of each slot whether no host may read it.
pub fn hidden_guards(
    alloc: Global,
    program: &Program,
    labels: &Labels,
) -> Result<Items<bool>, AllocError>
    requires { Satisfies (system_of program.now) labels.now }
    ensures { IfOk result (λ marks. marks ≡ hidden_marks program.now labels.now) }
{
    all_hidden(alloc, program.form(), labels.slots.as_slice())
}

/// The program with selections in the place of its hidden branches, or none where it is the same.
pub fn turn_labelled(
    alloc: Global,
    program: &Program,
    labels: &Labels,
) -> Result<Option<Program>, AllocError>
    requires { Satisfies (system_of program.now) labels.now }
    ensures { IfOk result (λ new. MatchOption new (turn_of program.now labels.now ≡ program.now)
        (λ form. form ≡ turn_of program.now labels.now)) }
{
    let marks = hidden_guards(alloc, program, labels)?;
    turn(alloc, program, marks.as_slice())
}
