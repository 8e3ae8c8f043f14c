//! In which file a fault is shown, and what is told of a secret file. The functions here do nothing: their contracts are laws.

ghost use Rattle.vd_diag_terminal.specs.Files.{FaultsAreShownInTheirFiles};
ghost use Rattle.vd_diag_terminal.specs.Secret.{NoSecretIsTold};

/// A fault of the text of a source, of inputs or of a schedule is shown in the file with this text, by the order in which a command
/// line names its files.
pub fn faults_are_shown_in_their_files()
    ensures { FaultsAreShownInTheirFiles }
{}

/// What is told of inputs whose text is refused depends on the place of the fault and on the token there, and on no other byte. Of a deal no
/// byte is told.
pub fn no_secret_is_told()
    ensures { NoSecretIsTold }
{}
