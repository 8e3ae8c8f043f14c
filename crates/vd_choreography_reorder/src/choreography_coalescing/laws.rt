//! Laws of joined packets. Nothing is computed here.

ghost use Rattle.vd_choreography_reorder.specs.Telling.{JoinedCodeRunsOn, JoinedCodeTellsTheSame};

/// Where packets of tidy joint code are joined, the hosts hold, have taken and have printed the same at its end, and have told the same
/// words on each link. Whoever could share a packet does, up to the most words. On any lists the new code runs well, and to its end, where
/// the old one does.
pub fn joined_code_tells_the_same()
    ensures same { JoinedCodeTellsTheSame }
    ensures runs { JoinedCodeRunsOn }
{}
