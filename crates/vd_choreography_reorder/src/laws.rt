//! Laws of the pass. Nothing is computed here.

ghost use Rattle.vd_choreography_reorder.specs.Examples.{DrawnWordsAreToldTogether, OpenedWordsStay, WordsGoSideBySide};
ghost use Rattle.vd_choreography_reorder.specs.Order.{CodeThatIsBroughtForwardRunsOn, OrderIsKept};
ghost use Rattle.vd_choreography_reorder.specs.Passing.{ArrangedLinesAreBroughtForward};
ghost use Rattle.vd_choreography_reorder.specs.Sorting.{AnswersComeFirst, LinesStandByRank, RanksAreApart, RoundsAreApart, SortedCodeIsBroughtForward};
ghost use Rattle.vd_choreography_reorder.specs.Testing.{TestIsSound};

/// The test by registers and lists says yes only where neighbours in joint code may be exchanged.
pub fn test_is_sound()
    ensures { TestIsSound }
{}

/// What a host compares, prints and opens stands in its order, wherever careful exchanges lead.
pub fn order_is_kept()
    ensures { OrderIsKept }
{}

/// Tidy code leads to tidy code that tells the same, however far each line goes behind its neighbours where it may; so does the order of
/// the pass. On any lists the new code runs well, and to its end, where the old one does.
pub fn passes_bring_forward()
    ensures forward { ArrangedLinesAreBroughtForward }
    ensures order { SortedCodeIsBroughtForward }
    ensures runs { CodeThatIsBroughtForwardRunsOn }
{}

/// In the order of the pass ranks ascend, and of each rank the lines stand in the order that they had.
pub fn order_is_sorted()
    ensures { LinesStandByRank }
{}

/// In tidy code what ranks lower than a line before it may pass it: so the pass makes no exchange that may not be made.
pub fn ranks_are_apart()
    ensures { RanksAreApart }
{}

/// In the order of the pass nothing that stands behind a packet in its round needs it: so a host may do and send all of a round before it
/// awaits any packet of it.
pub fn rounds_are_apart()
    ensures { RoundsAreApart }
{}

/// What a host compares, prints and opens ranks in a later round than what it awaited before in the text: so nothing of it is among what
/// goes first in a round.
pub fn answers_come_first()
    ensures { AnswersComeFirst }
{}

/// Worked lines: masked words of two gadgets go side by side, so do drawn words of two sharings, and a word that is opened stays
/// behind the answer that it stood behind.
pub fn worked_lines()
    ensures stays { OpenedWordsStay }
    ensures ahead { WordsGoSideBySide }
    ensures drawn { DrawnWordsAreToldTogether }
{}
