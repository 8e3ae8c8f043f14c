//! How many items the hosts of a program take at most, by how often its statements are executed. Nothing is computed here: the
//! clauses of the function are laws.

ghost use Rattle.vd_deal_needs.specs.Items.{ItemsAreFew, SmallProgramsCanBeDealt};

/// At protocols over the program's hosts no host takes more than 1,024 items of one of its lists for each time that a statement is
/// executed. So where the statements of a program are executed at most 1,024 times altogether, a deal can be made of as much as its
/// hosts take: of no kind more than 1,048,576 items.
pub fn items_are_few()
    ensures items { ItemsAreFew }
    ensures dealt { SmallProgramsCanBeDealt }
{}
