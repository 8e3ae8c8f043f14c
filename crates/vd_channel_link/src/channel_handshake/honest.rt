//! What two ends of a link come to, as laws.

ghost use Rattle.vd_channel_link.specs.Ends.{HonestEndsMeet};

/// Two honest ends of a link meet, unless the link fails, and each reads what the other puts into records.
pub fn honest_ends_meet()
    ensures { HonestEndsMeet }
{}
