//! What seals a link, as laws: what a record gives back, and that what is hashed, and what a stream begins with, tells all apart.

ghost use Rattle.std.specs.Prelude.{◌≡◌, ℕ, List};
ghost use Rattle.vd_channel_crypto.specs.Streams.{under};
ghost use Rattle.vd_channel_crypto.specs.Laws.{
  CodesCoverAll,
  CodesCoverTheirKeys,
  DigestsCoverBothHellos,
  GivesBack,
  KeysHaveOnePurpose,
  NoncesAreApart,
  StreamsAreApart,
};

/// A second cover takes the first away, so that whoever opens a record has the bytes that were put into it.
#[tactic(auto, using(crate::proofs::Twice::twice))]
pub fn records_give_back_their_bytes()
    ensures twice { (bytes stream : List ℕ) → under (under bytes stream) stream ≡ bytes }
    ensures record { GivesBack }
{}

/// What a code hashes tells its key and its message: codes of two messages, or under two keys, hash different bytes. So do the two
/// hashes of one code, the inner and the outer.
pub fn codes_cover_their_keys()
    ensures { CodesCoverTheirKeys }
{}

/// The code of a record hashes its number and its bytes: the codes of two records that differ are those of different messages.
pub fn codes_cover_all()
    ensures { CodesCoverAll }
{}

/// The bytes that cover a record are two blocks of ChaCha20 of its key and number. The blocks of two numbers begin with different
/// states, as do two blocks of one number and those of two keys.
pub fn streams_are_apart()
    ensures { StreamsAreApart }
{}

/// The keys of two purposes, senders or digests are codes of different messages.
pub fn keys_have_one_purpose()
    ensures { KeysHaveOnePurpose }
{}

/// The nonces of two connections of a run are codes of different messages.
pub fn nonces_are_apart()
    ensures { NoncesAreApart }
{}

/// Both ends of a link have one digest of what both said, and what it hashes tells each part of both hellos.
pub fn digests_cover_both_hellos()
    ensures { DigestsCoverBothHellos }
{}
