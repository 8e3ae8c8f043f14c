//! What is true of the line that is printed. The function here does nothing: its contract is a law.

ghost use Rattle.vd_cmd_excuse.specs.Named.{TalkNamesSender};

/// The printed line names the other host before its `>`, as the one that sends, and this host behind it. Then stand the number
/// of words that were sent, and these words.
pub fn talk_names_the_sender()
    ensures { TalkNamesSender }
{}
