//! Certificates in files.

ghost use Rattle.std.specs.Prelude.{◌≡◌, ◌≤◌, length, List, ℕ, IfOk, Ok};
ghost use Rattle.vd_base.specs.Limits.{most_certificate_bytes};
ghost use Rattle.vd_search_tree.specs.Outcomes.{Answers, HasOneOutcome, HasOutcome, Refuses};
ghost use Rattle.vd_search_tree.specs.Texts.{IsCertificate, IsTextOf, text_of};
ghost use Rattle.vd_search_tree.specs.declared.search_certificate.certificate.Certificate.{Certificate as Certificates};

use crate::search_certificate::certificate::Certificate;
use crate::search_certificate::reader::read_certificate;
use crate::search_certificate::writer::write_certificate;
use std::alloc::{AllocError, Global};
use vd_base::{Bytes, FileFault};

impl Certificate {
    /// The certificate whose text the bytes are. They are refused at the first offset at which no certificate goes on.
    pub fn read(alloc: Global, bytes: &[u8]) -> Result<Certificate, FileFault>
        requires few { length bytes.now ≤ most_certificate_bytes }
        ensures given { IfOk result (λ c. IsTextOf c bytes.now) }
        ensures refused { Refuses bytes.now result }
        ensures outcome { Answers bytes.now result }
    {
        read_certificate(alloc, bytes)
    }

    /// The text of the certificate, which has no other.
    pub fn write(&self, alloc: Global) -> Result<Bytes, AllocError>
        ensures { IfOk result (λ text. text ≡ text_of self.now) }
    {
        write_certificate(alloc, self)
    }
}

/// Each file is the text of a certificate or has a first offset at which none goes on; never both, nor two of one kind.
pub fn files_have_one_outcome()
    ensures { (bytes : List ℕ) → HasOneOutcome bytes }
{}

/// The text of a certificate is read back as that certificate.
pub fn texts_are_read_back()
    ensures { (c : Certificates) → IsCertificate c → HasOutcome (text_of c) (Ok c) }
{}
