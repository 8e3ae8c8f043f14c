//! What is true of every printed line. The functions here do nothing: their contracts are laws.

ghost use Rattle.vd_report.specs.LabelsRead.{LabelsAreWritten};
ghost use Rattle.vd_report.specs.LinksRead.{LinksAreRead};
ghost use Rattle.vd_report.specs.SectionLines.{SectionsAreRead};
ghost use Rattle.vd_report.specs.StatesTold.{StatesAreTold};

/// The line of a link, read as words, names the host that sends before its `>` and the one that receives behind it. Then stand
/// the number of words that were sent, and these words.
pub fn links_are_read()
    ensures { LinksAreRead }
{}

/// The report says `ended`, `ready`, `short input` or `short deal` of a host exactly where that is how it stands.
pub fn states_are_told()
    ensures { StatesAreTold }
{}

/// The line of a slot has its label as a source writes it: first its confidentiality and then its integrity, with `&` for both and
/// `|` for one of two.
pub fn labels_are_written()
    ensures { LabelsAreWritten }
{}

/// A printed section is read as an inputs file: whatever hosts there are, it gives the host of its name all its words in order, and the
/// others none.
pub fn sections_are_read()
    ensures { SectionsAreRead }
{}
