//! What the files that `deal` stores hold, read back; nothing is computed.

ghost use Rattle.vd_cmd_laws.specs.Dealt.{DealTextsAreShort, DealsTell};
ghost use Rattle.vd_cmd_laws.specs.KeyedDealt.{KeyedDealsTell, SecretTextsAreShort};

/// The files that `deal` stores are read as the deals of all hosts, which are consistent, and `replay` refuses none of them.
/// No text of a deal is longer than one that is read may be.
pub fn dealt_files_are_taken()
    ensures deals { DealsTell }
    ensures short { DealTextsAreShort }
{}

/// So are those that it stores for a key of 32 bytes; each has besides the name of the dealing and the keys of its host's links. Their
/// items are made of a key that is hashed of other bytes than these. No text of such a deal is longer than one that is read may be.
pub fn keyed_dealt_files_are_taken()
    ensures deals { KeyedDealsTell }
    ensures short { SecretTextsAreShort }
{}
