//! The certificate of a command.

ghost use Rattle.std.specs.Prelude.{◌≤◌, IfOk, length};
ghost use Rattle.vd_base.specs.Limits.{most_certificate_bytes};
ghost use Rattle.vd_cmd_plan.specs.Plans.{Checks};
ghost use Rattle.vd_cmd_choose.specs.Certifying.{IsFromFile, LoadsCertificate, certificate_of};
ghost use Rattle.vd_cmd_choice.specs.Outcomes.{CertificateOutcomes};

use std::alloc::Global;
use vd_base::FileFault;
use vd_base::limits::CERTIFICATE_BYTES;
use vd_cmd_plan::{Status, load};
use vd_outside::Files;
use vd_search_tree::Certificate;

/// The certificate whose text the bytes are, or why there is none.
fn read_certificate(alloc: Global, bytes: &[u8]) -> Result<Certificate, Status>
    requires { length bytes.now ≤ most_certificate_bytes }
    ensures reads { (certificates : CertificateOutcomes) → Checks (certificate_of certificates bytes.now) result }
    ensures from_file { IfOk result IsFromFile }
{
    match Certificate::read(alloc, bytes) {
        Ok(certificate) => Ok(certificate),
        Err(FileFault::Text(offset)) => Err(Status::CertificateText(offset)),
        Err(FileFault::Memory) => Err(Status::Memory),
    }
}

/// Fetches a certificate, and reads it.
pub(crate) fn load_certificate<F: Files>(
    alloc: Global,
    files: &mut F,
    name: &str,
) -> Result<Certificate, Status>
    ensures loads { LoadsCertificate name.now (F.view files.old) (F.view files.new) result }
    ensures from_file { IfOk result IsFromFile }
{
    let bytes = load(alloc, files, name, CERTIFICATE_BYTES)?;
    read_certificate(alloc, bytes.as_slice())
}
