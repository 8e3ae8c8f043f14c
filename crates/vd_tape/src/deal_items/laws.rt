ghost use Rattle.std.specs.Prelude.{◌≡◌};
ghost use Rattle.vd_tape.specs.Identities.{MeetsMul, MeetsAnd, MeetsPair, zero_triple, zero_pair};

/// The items that follow each list meet the identities.
pub fn zero_items_meet()
    ensures mul { MeetsMul zero_triple zero_triple }
    ensures and { MeetsAnd zero_triple zero_triple }
    ensures pair { MeetsPair zero_pair zero_pair }
{}
