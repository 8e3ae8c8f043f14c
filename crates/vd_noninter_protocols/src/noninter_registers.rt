//! The clear words that come to each host in the joint run of a program: they are those of the clear run, and depend on the
//! same inputs. Nothing is computed here: each function's clauses are laws.

ghost use Rattle.std.specs.Prelude.{ℕ, Bool};
ghost use Rattle.vd_noninter.specs.NoninterLawsDependence.{AreReached, OfEachHost};
ghost use Rattle.vd_noninter.specs.Reading.{becomes_readable_to, reads_host, reads_result};
ghost use Rattle.vd_noninter_protocols.specs.NoninterRegistersExample.{WorkedRegisters};
ghost use Rattle.vd_noninter_protocols.specs.Told.{TellsWhatIsHeard, TellsOnlyAssigned};

/// In the joint run of a well-made program at a valid list of protocols, with all inputs and every valid deal, what the
/// registers of a host hold where a word comes to it in clear is, in order, what comes to it in the clear run.
pub fn joint_runs_tell_what_is_heard()
    ensures { TellsWhatIsHeard }
{}

/// So two joint runs, on two valid deals, bring a host the same clear words, and it prints the same, where their inputs agree
/// on the hosts whose inputs are reached from its outputs, and on what is declassified to it; and where they agree on all
/// hosts that it may read, and on the words that become readable to it by a declassification.
pub fn inputs_that_agree_are_told_the_same()
    ensures reached { OfEachHost (λ p l h. (hosts : ℕ → Bool) → AreReached p l h hosts →
        TellsOnlyAssigned p l h (reads_result p l h) hosts) }
    ensures readable { OfEachHost (λ p l h. TellsOnlyAssigned p l h (becomes_readable_to p l h) (reads_host p h)) }
{}

/// Of a variable that is set under a guard, where copies stand at both hosts: the other host's registers hold the guard and
/// the word that is output to it.
pub fn example_registers()
    ensures { WorkedRegisters }
{}
