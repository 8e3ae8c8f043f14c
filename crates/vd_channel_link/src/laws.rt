//! What records give, as laws.

ghost use Rattle.vd_channel_link.specs.Opened.{OpenedIsCovered, OpenedIsFront, OpenedIsSent};
ghost use Rattle.vd_channel_link.specs.Session.{SentIsCarried};

/// What was sent in records is what is opened of them.
pub fn opened_is_sent()
    ensures { OpenedIsSent }
{}

/// Where only a prefix of records came, a prefix of what they carry is opened.
pub fn opened_is_front()
    ensures { OpenedIsFront }
{}

/// What is opened of any bytes was sent in records, each with the code of its direction and place.
pub fn opened_is_covered()
    ensures { OpenedIsCovered }
{}

/// What went out over the link below in a session is a prefix of records with numbers from 1 on, and what the session tells that it sent
/// is what they carry: each call keeps it so. Where no record behind the first was begun, no other went out.
pub fn sent_is_carried()
    ensures { SentIsCarried }
{}
