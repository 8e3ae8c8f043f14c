//! What a key deals, as a law.

ghost use Rattle.vd_cmd_deal.specs.Laws.{KeyDealsAreRead};
ghost use Rattle.vd_cmd_deal.specs.Sources.{DrawnDealsAreOfTheDraw, KeysAreWhole};

/// The file of each host is read as its deal, with the name of the dealing and the keys of its links.
pub fn key_deals_are_read()
    ensures { KeyDealsAreRead }
{}

/// The key that a file has is its bytes, all 32 of them: no shorter file is taken for a key.
pub fn keys_are_whole()
    ensures { KeysAreWhole }
{}

/// The files of a deal whose key is drawn are made of the bytes that were drawn.
pub fn drawn_deals_are_of_the_draw()
    ensures { DrawnDealsAreOfTheDraw }
{}
