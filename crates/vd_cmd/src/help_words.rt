//! The words that the help says, read; nothing is computed.

ghost use Rattle.vd_cmd.specs.HelpRead.{HelpIsRead};

/// The words of each command of the help but those with a number are read as that command, with each name in its place.
pub fn help_is_read()
    ensures { HelpIsRead }
{}
