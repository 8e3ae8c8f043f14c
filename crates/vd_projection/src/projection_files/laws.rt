ghost use Rattle.std.specs.Prelude.{ℕ, List};
ghost use Rattle.sha2.specs.Sha256.{sha256};
ghost use Rattle.vd_projection.specs.Stored.{IsDigest, StoredProgramsStandInFiles, StoredProgramsAreReadBack, StoredTextsAreShort};
ghost use Rattle.vd_hostcode.specs.HostTextOutcome.{digest};

/// The program of a host, with the names of all hosts and the digest of the plan, has a text of the grammar of host files, and no
/// instruction of it breaks a range: registers, peers, shifts, sizes of arrays, lengths of packets, open blocks and static steps
/// are within those of host code. So what is read of the text is that program. Where the names of the hosts take no more bytes
/// than a source may have, the text is not longer than a host's file may be. Nothing is computed here: the clauses are laws.
pub fn stored_programs_are_read_back()
    ensures files { StoredProgramsStandInFiles }
    ensures read { StoredProgramsAreReadBack }
    ensures short { StoredTextsAreShort }
{}

/// A digest is 32 bytes.
pub fn digests_are_bytes()
    ensures { (bytes : List ℕ) → IsDigest (digest (sha256 bytes)) }
{}
