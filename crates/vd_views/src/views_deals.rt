//! What a host sees of a whole program of two hosts, by deal files. Nothing is computed here: the function's clauses are laws.

ghost use Rattle.vd_views.specs.Files.{FilesAreExplained, FilesShowEquallyMany};

/// Deal files that are long enough for a run are explained, where other inputs agree for a host, by files of the same lengths, of
/// which the host's own is the same. And of all files of these lengths by which the host sees what it sees, there are equally many
/// of both inputs.
pub fn deal_files_belong_to_each_other()
    ensures explained { FilesAreExplained }
    ensures equally_many { FilesShowEquallyMany }
{}
