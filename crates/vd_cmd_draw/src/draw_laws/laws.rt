//! Laws of drawings. The functions here do nothing: their contracts are laws.

ghost use Rattle.vd_cmd_draw.specs.Heading.{HeadingTellsCost};
ghost use Rattle.vd_cmd_draw.specs.Legends.{ArrowsAreToldApart};
ghost use Rattle.vd_cmd_draw.specs.Together.{DrawnCostsAddUp};
ghost use Rattle.vd_cmd_draw.specs.Showing.{ArrowsShow, ToldWordsCome};

/// The costs of the rows of a drawing, of which each stands for all rows that are drawn as one, add up to what all rows cost.
pub fn drawn_costs_add_up()
    ensures { DrawnCostsAddUp }
{}

/// A move of a word is drawn as an arrow to a host that is in clear, in clear from each copy, opened or revealed, exactly where
/// the host has the word in clear at the end of the move, and not where it begins.
pub fn arrows_show_what_is_told()
    ensures { ArrowsShow }
{}

/// Of the clear words that come to a host at a valid assignment, those that it did not have where they come from are exactly
/// the words that moves tell it. An arrow shows the host each of them.
pub fn told_words_come()
    ensures { ToldWordsCome }
{}

/// The legend says that the other host reads the word of just those arrows that bring a host the word in clear, and these alone
/// are drawn in its classes. Two kinds of arrows differ in how they look and in what the legend says.
pub fn arrows_are_told_apart()
    ensures { ArrowsAreToldApart }
{}

/// The words of the heading begin with `cost` and what all rows cost, and then tell how many slots there are.
pub fn heading_tells_the_cost()
    ensures { HeadingTellsCost }
{}
