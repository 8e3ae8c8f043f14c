ghost use Rattle.std.specs.Prelude.{◌≡◌, ◌≢◌, ◌⊎◌, ℕ, List, IsTrue, IfOk, IfErr, OnOk, OnErr, None, Some, false, string_bytes};
ghost use Rattle.std.specs.Str.{bytes_eq};
ghost use Rattle.std_io.specs.IoError.{error_kind};
ghost use Rattle.vd_edge.specs.Store.{IsBeside, IsRefused, MayLeave, Same, SameElse, is_deal};

use crate::standing::{access_of, is_deal};
use crate::{Access, Directory};
use std::alloc::Global;
use std::io::{self, Error, ErrorKind};

/// How many files that other stores left over are passed over.
const MOST_PASSED: u32 = 8;

/// The error of a call that may have changed something: where memory ran out in it, that is a fault of the outside.
fn by_outside(error: Error) -> Error
    ensures { error_kind result ≢ ErrorKind.OutOfMemory }
{
    match error.kind() {
        ErrorKind::OutOfMemory => Error::from(ErrorKind::Other),
        _ => error,
    }
}

/// Puts these bytes at a name. What can be replaced is replaced whole by a new file or stays as it was; all else is written in
/// place, but for a deal, which is refused: it would go to whoever reads there.
pub(crate) fn put<D: Directory>(
    directory: &mut D,
    alloc: Global,
    name: &str,
    bytes: &[u8],
) -> io::Result<()>
    ensures all { OnOk result (IsTrue D.tells → D.holds directory.new name.now ≡ Some bytes.now) }
    ensures kept { OnErr result (IsTrue D.tells → IsTrue (D.replaces directory.old name.now) →
        D.holds directory.new name.now ≡ D.holds directory.old name.now) }
    ensures left { IsTrue D.tells → MayLeave name.now (D.holds directory.old) (D.holds directory.new) }
    ensures others { OnOk result (IsTrue D.tells → SameElse name.now (D.holds directory.old) (D.holds directory.new)) }
    ensures memory { IfErr result (λ error. (error_kind error ≢ ErrorKind.OutOfMemory)
        ⊎ (IsTrue D.tells → Same (D.holds directory.old) (D.holds directory.new))) }
    ensures refused { IsTrue D.tells → IsTrue (is_deal bytes.now) → D.replaces directory.old name.now ≡ false →
        IsRefused result (D.holds directory.old) (D.holds directory.new) }
    ensures begun { D.began directory.new ≡ D.began directory.old }
{
    let standing = directory.standing(name)?;
    match access_of(standing, bytes) {
        Some(access) => replace(directory, alloc, name, bytes, access),
        None => put_in_place(directory, name, bytes),
    }
}

/// Puts these bytes into what stands at a name, which no file can replace. A deal is never put there.
fn put_in_place<D: Directory>(directory: &mut D, name: &str, bytes: &[u8]) -> io::Result<()>
    ensures all { OnOk result (IsTrue D.tells → D.holds directory.new name.now ≡ Some bytes.now) }
    ensures others { IsTrue D.tells → SameElse name.now (D.holds directory.old) (D.holds directory.new) }
    ensures memory { IfErr result (λ error. error_kind error ≢ ErrorKind.OutOfMemory) }
    ensures refused { IsTrue (is_deal bytes.now) → IsRefused result (D.holds directory.old) (D.holds directory.new) }
    ensures begun { D.began directory.new ≡ D.began directory.old }
{
    if is_deal(bytes) {
        return Err(Error::from(ErrorKind::InvalidInput));
    }
    match directory.write(name, bytes) {
        Ok(()) => Ok(()),
        Err(error) => Err(by_outside(error)),
    }
}

/// Puts a new file with these bytes in place of what stands at a name.
fn replace<D: Directory>(
    directory: &mut D,
    alloc: Global,
    name: &str,
    bytes: &[u8],
    access: Access,
) -> io::Result<()>
    ensures all { OnOk result (IsTrue D.tells → D.holds directory.new name.now ≡ Some bytes.now) }
    ensures kept { OnErr result (IsTrue D.tells → D.holds directory.new name.now ≡ D.holds directory.old name.now) }
    ensures left { IsTrue D.tells → MayLeave name.now (D.holds directory.old) (D.holds directory.new) }
    ensures others { OnOk result (IsTrue D.tells → SameElse name.now (D.holds directory.old) (D.holds directory.new)) }
    ensures memory { IfErr result (λ error. (error_kind error ≢ ErrorKind.OutOfMemory)
        ⊎ (IsTrue D.tells → Same (D.holds directory.old) (D.holds directory.new))) }
    ensures begun { D.began directory.new ≡ D.began directory.old }
    ensures settled { OnOk result (D.settles directory.new name.now) }
{
    let Beside { new, file } = create_beside(directory, alloc, name, access)?;
    match fill_and_move(directory, file, new.as_str(), name, bytes, access) {
        Ok(()) => Ok(()),
        Err(error) => match directory.remove(new.as_str()) {
            Ok(()) => Err(error),
            // It is left over.
            Err(_) => Err(by_outside(error)),
        },
    }
}

/// A new file beside another one: its name, and the file that was made there.
#[derive(Drop)]
struct Beside<F: Drop> {
    new: String,
    file: F,
}

/// Makes a new file beside a name, and gives the new one's name, and the file. Names at which something stands are passed over.
fn create_beside<D: Directory>(
    directory: &mut D,
    alloc: Global,
    name: &str,
    access: Access,
) -> io::Result<Beside<D::File>>
    ensures beside { IfOk result (λ made. IsBeside name.now (string_bytes made.new)) }
    ensures made { IfOk result (λ made. D.is_made made.file (string_bytes made.new)) }
    ensures free { IfOk result (λ made. IsTrue D.tells → D.holds directory.old (string_bytes made.new) ≡ None) }
    ensures others { IfOk result (λ made. IsTrue D.tells →
        SameElse (string_bytes made.new) (D.holds directory.old) (D.holds directory.new)) }
    ensures kept { OnErr result (IsTrue D.tells → Same (D.holds directory.old) (D.holds directory.new)) }
    ensures begun { D.began directory.new ≡ D.began directory.old }
{
    let mark = directory.mark();
    for number in 0..MOST_PASSED {
        let new = format!(in alloc; "{name}.tmp-{mark}-{number}")?;
        match directory.create(new.as_str(), access) {
            Ok(file) => return Ok(Beside { new, file }),
            Err(error) if error.kind() == ErrorKind::AlreadyExists => {}
            Err(error) => return Err(error),
        }
    }
    Err(io::Error::from(ErrorKind::AlreadyExists))
}

/// Fills a new file, and puts it in place of what stands at a name.
fn fill_and_move<D: Directory>(
    directory: &mut D,
    file: D::File,
    new: &str,
    name: &str,
    bytes: &[u8],
    access: Access,
) -> io::Result<()>
    requires apart { bytes_eq new.now name.now ≡ false }
    requires made { D.is_made file new.now }
    ensures all { OnOk result (IsTrue D.tells → D.holds directory.new name.now ≡ Some bytes.now) }
    ensures moved { OnOk result (IsTrue D.tells → D.holds directory.new new.now ≡ None) }
    ensures others { OnOk result (IsTrue D.tells → (other : List ℕ) → bytes_eq new.now other ≡ false → bytes_eq name.now other ≡ false →
        D.holds directory.new other ≡ D.holds directory.old other) }
    ensures kept { OnErr result (IsTrue D.tells → SameElse new.now (D.holds directory.old) (D.holds directory.new)) }
    ensures begun { D.began directory.new ≡ D.began directory.old }
    ensures settled { OnOk result (D.settles directory.new name.now) }
{
    directory.fill(file, bytes, access)?;
    directory.rename(new, name)?;

    // A folder for which nobody can wait is as good.
    let _ = directory.settle(name);
    Ok(())
}
