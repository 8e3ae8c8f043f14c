//! The last line of a deal file of version 2, by which a changed byte is noticed.

ghost use Rattle.std.specs.Prelude.{◌≡◌, IfOk};
ghost use Rattle.sha2.specs.Sha256.{sha256};
ghost use Rattle.vd_base_codec.specs.Reading.{GivesOrMemory, literal_at};
ghost use Rattle.vd_deal_versions.specs.Text.{sum_line};

use sha2::{Digest, Sha256};
use std::alloc::{AllocError, Global};
use vd_base::Bytes;
use vd_base_codec::{CodecFault, Cursor, push_key};

/// The digest of these bytes.
fn digest_of(bytes: &[u8]) -> [u8; 32]
    ensures { result ≡ sha256 bytes.now }
{
    let mut hasher = Sha256::new();
    hasher.update(bytes);
    hasher.finalize()
}

/// The line that stands behind these bytes: their digest.
pub(crate) fn sum_line(alloc: Global, body: &[u8]) -> Result<Bytes, AllocError>
    ensures { IfOk result (λ line. line ≡ sum_line body.now) }
{
    let mut line = Bytes::from_slice(alloc, b"sum ")?;
    push_key(&mut line, &digest_of(body))?;
    line.push(b'\n')?;
    Ok(line)
}

/// Takes the line that stands behind these bytes, as far as it is there.
pub(crate) fn read_sum(alloc: Global, cursor: &mut Cursor, body: &[u8]) -> Result<(), CodecFault>
    ensures { GivesOrMemory result cursor.new (literal_at (sum_line body.now) cursor.old) }
{
    let line = sum_line(alloc, body)?;
    cursor.literal(line.as_slice())?;
    Ok(())
}
