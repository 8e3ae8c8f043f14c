//! Deal files that are computed along two runs: when they explain the second one, and when the lists of the first are too short. Nothing
//! is computed here: each function's clauses are laws.

ghost use Rattle.vd_excuse.specs.Excuses.{ExcusedFilesAreThese, ExcusedFilesExplain};
ghost use Rattle.vd_excuse.specs.Short.{ShortKindsAreExact};

/// No kind of items is short exactly where the run takes no item past the end of any list.
pub fn short_kinds_are_exact()
    ensures { ShortKindsAreExact }
{}

/// Of a program of two hosts at a valid list of protocols without commitments: files that have the deal to which both runs lead are
/// consistent, as long as the first ones and for the host that looks the same; they explain the second inputs to it; and there is one
/// such list of files.
pub fn excused_files_explain()
    ensures explain { ExcusedFilesExplain }
    ensures these { ExcusedFilesAreThese }
{}
