//! The programs of one plan: the digest by which they know each other, and the file of each.

ghost use Rattle.std.specs.Prelude.{◌≡◌, ◌++◌, IfOk};
ghost use Rattle.sha2.specs.Sha256.{sha256};
ghost use Rattle.vd_hostcode.specs.Text.{program_text};

use crate::host_text::program::{Digest, HostProgram};
use crate::host_text::writing::print;
use sha2::{Digest as Hash, Sha256};
use std::alloc::{AllocError, Global};
use vd_base::{Bytes, HostId, Items, Names};
use vd_execution::Instr;

/// The digest by which the programs of one plan know each other: the SHA-256 of the source's bytes followed by the printed choice.
pub fn plan_of(source: &[u8], choice: &[u8]) -> Digest
    ensures { result.bytes ≡ sha256 (source.now ++ choice.now) }
{
    let mut hasher = Sha256::new();
    hasher.update(source);
    hasher.update(choice);
    Digest {
        bytes: hasher.finalize(),
    }
}

/// The file of a host from its code, where these are the names of all hosts.
pub fn host_file(
    alloc: Global,
    hosts: &Names,
    me: HostId,
    plan: Digest,
    code: Items<Instr>,
) -> Result<Bytes, AllocError>
    ensures { IfOk result (λ bytes. bytes ≡ program_text (record { hosts = hosts.now; me = me; plan = plan; code = code })) }
{
    let program = HostProgram {
        hosts: hosts.clone()?,
        me,
        plan,
        code,
    };
    print(alloc, &program)
}
