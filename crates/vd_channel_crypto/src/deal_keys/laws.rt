//! What the keys of a dealing are, as laws.

ghost use Rattle.vd_channel_crypto.specs.DealKeysLaws.{LinksHaveOneKey, PurposesAreApart};

/// The public name of a dealing, the key of its items and the keys of its links are codes of different messages, as are those of two
/// dealings of one key with different counts, and the keys of the links of two pairs of hosts.
pub fn purposes_are_apart()
    ensures { PurposesAreApart }
{}

/// Both ends of a link are given one key.
pub fn links_have_one_key()
    ensures { LinksHaveOneKey }
{}
