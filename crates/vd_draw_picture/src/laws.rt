//! What the marks of a drawing mean. The functions here do nothing: their contracts are laws.

ghost use Rattle.vd_draw_picture.specs.Drawn.{LinesEndWhereWordsGo, ShapesAreNamed};

/// Each line of an arrow begins where the word comes from, and its head stands before the lane to which the word goes.
pub fn lines_end_where_words_go()
    ensures { LinesEndWhereWordsGo }
{}

/// A word that is committed, or shared in sums or in bits, has the shape with the name that stands above its lane.
pub fn shapes_are_named()
    ensures { ShapesAreNamed }
{}
