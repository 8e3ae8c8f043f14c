//! Packets that tell nothing: what may go ahead in a hastened code. Nothing is computed here: each function's clauses are laws.

ghost use Rattle.vd_reorder.specs.Blind.{BlindWordsHide, OnlyBlindPacketsGoAhead, PacketsThatGoAheadHide};

/// A word that counts as blind hangs on one own or dealt word, which shows in nothing that was told and in no other register, and with
/// which the word can be any word, whatever the peer was dealt; or it is a part of a digest of a nonce that nothing else has used.
pub fn blind_words_hide()
    ensures { BlindWordsHide }
{}

/// A packet of a code that need not stay in its order has none but blind words, and they hide what they were made of.
pub fn only_blind_packets_go_ahead()
    ensures blind { OnlyBlindPacketsGoAhead }
    ensures hidden { PacketsThatGoAheadHide }
{}
