//! Laws of runs in which endorsed words are given. The functions here do nothing: the contract of each is a law.

ghost use Rattle.vd_noninter.specs.Trust.{OfEachTrust};
ghost use Rattle.vd_integrity_runs.specs.IntegrityEndorsedLaws.{DecidesWhatIsTrusted, OwnWordsMakeTheRun};

/// Where the words are those that the program itself endorses, the run is the program's own.
pub fn own_words_make_the_run()
    ensures { OwnWordsMakeTheRun }
{}

/// The outputs to trusted hosts follow from the words that become trusted and the inputs of trusted hosts alone.
pub fn words_decide_what_is_trusted()
    ensures { OfEachTrust (λ p l T. DecidesWhatIsTrusted p l T) }
{}
