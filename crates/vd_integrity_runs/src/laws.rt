//! Laws of whole runs in which hosts depart from their programs. The functions here do nothing: the contract of each is a law.

ghost use Rattle.vd_noninter.specs.Trust.{OfEachProgram};
ghost use Rattle.vd_base.specs.declared.form.Form.{Form};
ghost use Rattle.vd_integrity_runs.specs.Example.{PrintsWhatSheSent};
ghost use Rattle.vd_integrity_runs.specs.Trusted.{FrontsAreExplained, RunsAreExplained};

/// Hosts for whose integrity attackers can act send any words. Where such a run comes to its end, the hosts that keep to their programs
/// have printed the program's outputs to them, but that the attackers choose the words that become trusted by an endorsement, and no more.
/// Of the bindings in trust that are in sight at the end they hold the words of that run.
pub fn attackers_choose_what_is_endorsed()
    ensures { OfEachProgram (λ p l. RunsAreExplained p l) }
{}

/// Where the run stops before one of its statements, as it does where a comparison fails, they have printed a prefix of that.
pub fn stopped_runs_are_explained()
    ensures { OfEachProgram (λ p l. FrontsAreExplained p l) }
{}

/// A run in which a host departs: it hands in 1, sends 7 to both holders of copies, and both print 7, as the program outputs to them where
/// 7 is endorsed.
pub fn one_word_is_printed_by_both()
    ensures { (to : Form) → PrintsWhatSheSent to }
{}
