//! What is true of the lines that are printed. The function here does nothing: its contract is a law.

ghost use Rattle.vd_cmd_depends.specs.ReadBack.{LinesAreRead};

/// Each line, read as words, has the host's name, how many hosts there are, and their names: those on which it depends; or those
/// whose inputs bear on what it is told, and then those whose inputs do so through endorsements alone.
pub fn lines_name_hosts()
    ensures { LinesAreRead }
{}
