//! What the reader of deal files is, as laws.

ghost use Rattle.std.specs.Prelude.{◌≡◌, ℕ, ◌≤◌, ◌<◌, List, Ok};
ghost use Rattle.vd_base.specs.Limits.{most_hosts};
ghost use Rattle.vd_deal_versions.specs.declared.dealt.Dealt.{Dealt};
ghost use Rattle.vd_deal_versions.specs.Text.{DealtTextsBegin, dealt_text, IsDealtOf};
ghost use Rattle.vd_deal_versions.specs.Reading.{dealt_read};
ghost use Rattle.vd_deal_versions.specs.Outcome.{ChangedDealsAreRefused, DealtFilesFollowGrammar};

/// All bytes either are the text of one deal of either version, or have one first offset at which they go on as no deal file does.
pub fn dealt_files_follow_the_grammar()
    ensures { (hosts me : ℕ) (bytes : List ℕ) → hosts ≤ most_hosts → me < hosts → DealtFilesFollowGrammar hosts me bytes }
{}

/// What is written is read.
pub fn written_secrets_are_read()
    ensures { (hosts me : ℕ) (dealt : Dealt) → hosts ≤ most_hosts → me < hosts → IsDealtOf hosts me dealt →
        dealt_read hosts me (dealt_text dealt) ≡ Ok dealt }
{}

/// By these first bytes a file is known to be a deal of either version.
pub fn dealt_texts_begin()
    ensures { DealtTextsBegin }
{}

/// A file of version 2 in which bytes were changed, but for its last line, is none, unless what was changed hashes as what stood there.
pub fn changed_deals_are_refused()
    ensures { ChangedDealsAreRefused }
{}
