//! Certificates in files.

use std::alloc::Global;
use std::test::Fail;
use vd_base::Bytes;
use vd_base::limits::CERTIFICATE_BYTES;
use vd_bound::first_bad_shift;
use vd_search_tree::{Certificate, Shift};

/// Of the comparison of two hosts' inputs.
const FIRST_FORM: &[u8] = b"viaduct-cert 1\ncost 222\nEEVEVVVVVVELBBVVBBVVVVVVVVVVV\n";

/// The same with a shift of a use that there is not.
const SECOND_FORM: &[u8] =
    b"viaduct-cert 2\ncost 222\nshifts 1\n3 0 0 + 1\nEEVEVVVVVVELBBVVBBVVVVVVVVVVV\n";

/// The same with a shift of an arc.
const THIRD_FORM: &[u8] =
    b"viaduct-cert 3\ncost 222\nshifts 1\n3 1 1 - 256\nEEVEVVVVVVELBBVVBBVVVVVVVVVVV\n";

/// The certificate of a text that is no longer than a file may be.
fn read(alloc: Global, bytes: &[u8]) -> Result<Certificate, Fail> {
    if bytes.len() > CERTIFICATE_BYTES as usize {
        return Err("too long".into());
    }
    match Certificate::read(alloc, bytes) {
        Ok(certificate) => Ok(certificate),
        Err(_) => Err("refused".into()),
    }
}

/// What is written of the certificate of a text.
fn written_again(alloc: Global, text: &[u8]) -> Result<Bytes, Fail> {
    let certificate = read(alloc, text)?;
    Ok(certificate.write(alloc)?)
}

/// The cost and the number of marks of the certificate of a text.
fn size_of(alloc: Global, text: &[u8]) -> Result<(Option<u32>, usize), Fail> {
    let certificate = read(alloc, text)?;
    Ok((certificate.cost, certificate.marks.as_slice().len()))
}

#[test]
fn certificates_are_read_and_written(rt: HostRuntime) -> Result<(), Fail> {
    for text in [FIRST_FORM, SECOND_FORM, THIRD_FORM] {
        assert_eq!(rt; written_again(rt.alloc(), text)?.as_slice(), text);
        assert_eq!(rt; size_of(rt.alloc(), text)?, (Some(222), 29));
    }
    Ok(())
}

/// The first shift that names nothing, of a few.
fn bad_shift(shifts: &[Shift], uses: u32) -> Option<u32> {
    if shifts.len() > 10 {
        return None;
    }
    first_bad_shift(shifts, uses, 7)
}

#[test]
fn shifts_name_uses_that_there_are(rt: HostRuntime) -> Result<(), Fail> {
    let second = read(rt.alloc(), SECOND_FORM)?;
    assert_eq!(rt; bad_shift(second.shifts.as_slice(), 3), Some(0));
    assert_eq!(rt; bad_shift(second.shifts.as_slice(), 4), None);
    Ok(())
}
