//! Marks as files of a directory.

ghost use Rattle.std.specs.Prelude.{◌≡◌, IsTrue, None, OnErr, Some, false, IfOk, is_some, option_map, string_bytes};
ghost use Rattle.vd_edge.specs.Store.{Same, SameElse};
ghost use Rattle.vd_outside.specs.Marks.{Claims, Draws, Looks, Releases, Stays};
ghost use Rattle.vd_outside.specs.Places.{mark_at};
ghost use Rattle.vd_edge_marks.specs.Views.{ClaimsFiles, ReleasesFiles, far_of, is_marked, marks_view};

use crate::randomness::Randomness;
use std::alloc::Global;
use std::io::{self, Error, ErrorKind};
use vd_base::CallFault;
use vd_edge::{Access, Directory, Standing, count_fault, fault_of, reason_of};
use vd_outside::{Marks, mark_at};

/// Marks as files of a directory, which only their owner may read, and the random bytes that a source gives. A mark stands beside the
/// file for which it is asked and, where the user has a folder for all marks, a second one stands there.
#[derive(Drop)]
pub struct RealMarks<D: Directory + Drop, R: Randomness + Drop> {
    directory: D,
    source: R,
    alloc: Global,
    home: Option<String>,
    faults: u64,
    reason: Option<String>,
}

impl<D: Directory + Drop, R: Randomness + Drop> RealMarks<D, R> {
    /// Marks in this directory, which have not failed so far. The user's folder for all marks, if there is one, is given with its last slash.
    pub fn new(directory: D, source: R, alloc: Global, home: Option<String>) -> RealMarks<D, R>
        ensures directory { result.directory ≡ directory }
        ensures home { result.home ≡ home }
        ensures faults { result.faults ≡ 0 }
    {
        RealMarks {
            directory,
            source,
            alloc,
            home,
            faults: 0,
            reason: None,
        }
    }

    /// Why the last call failed, where one did.
    pub fn reason(&self) -> Option<&str> {
        self.reason.as_deref()
    }
}

/// Makes a new file with these bytes, and says whether it did: it does not where something stands there. One that cannot be filled is
/// removed.
fn make<D: Directory>(directory: &mut D, place: &str, bytes: &[u8]) -> io::Result<bool>
    ensures free { IfOk result (λ new. IsTrue new → IsTrue D.tells → D.holds directory.old place.now ≡ None) }
    ensures all { IfOk result (λ new. IsTrue new → IsTrue D.tells → D.holds directory.new place.now ≡ Some bytes.now) }
    ensures settled { IfOk result (λ new. IsTrue new → D.settles directory.new place.now) }
    ensures kept { IfOk result (λ new. new ≡ false → IsTrue D.tells → Same (D.holds directory.old) (D.holds directory.new)) }
    ensures others { IsTrue D.tells → SameElse place.now (D.holds directory.old) (D.holds directory.new) }
    ensures stays { OnErr result (IsTrue D.tells → Stays place.now (D.holds directory.old) (D.holds directory.new)) }
{
    let file = match directory.create(place, Access::Private) {
        Ok(file) => file,
        Err(error) if error.kind() == ErrorKind::AlreadyExists => return Ok(false),
        Err(error) => return Err(error),
    };
    if let Err(error) = directory.fill(file, bytes, Access::Private) {
        let _ = directory.remove(place);
        return Err(error);
    }

    // A folder for which nobody can wait is as good.
    let _ = directory.settle(place);
    Ok(true)
}

/// Makes two new files with these bytes, the far one first, and says whether it did: it does not where something stands at one of the two.
/// A far file that could not have its near one is removed, but where something stood at the near place it stays.
fn make_both<D: Directory>(
    directory: &mut D,
    far: &str,
    near: &str,
    bytes: &[u8],
) -> io::Result<bool>
    ensures claims { IsTrue D.tells →
        ClaimsFiles (Some far.now) near.now bytes.now (D.holds directory.old) (D.holds directory.new) result }
    ensures settled { IfOk result (λ new. IsTrue new → D.settles directory.new near.now) }
{
    directory.make_folder(far)?;
    if !make(directory, far, bytes)? {
        return Ok(false);
    }
    match make(directory, near, bytes) {
        Ok(new) => Ok(new),
        Err(error) => {
            let _ = directory.remove(far);
            Err(error)
        }
    }
}

/// The name of the file of a mark.
fn place_of(alloc: Global, beside: &str, name: &[u8]) -> io::Result<String>
    ensures { IfOk result (λ place. string_bytes place ≡ mark_at beside.now name.now) }
{
    let place = mark_at(alloc, beside, name)?;
    let text = std::str::from_utf8(place.as_slice()).map_err(|_| Error::from(
        ErrorKind::InvalidInput,
    ))?;
    Ok(String::from_str(alloc, text)?)
}

/// The name of the file of a mark in the user's folder for all marks, where there is one.
fn far_of(alloc: Global, home: &Option<String>, name: &[u8]) -> io::Result<Option<String>>
    ensures { IfOk result (λ far. option_map string_bytes far ≡ far_of (option_map string_bytes home.now) name.now) }
{
    match home {
        None => Ok(None),
        Some(home) => Ok(Some(place_of(alloc, home.as_str(), name)?)),
    }
}

/// Makes a mark beside a file, and in the user's folder for all marks, where there is one. It says whether the mark is new.
fn claim_files<D: Directory>(
    directory: &mut D,
    alloc: Global,
    home: &Option<String>,
    beside: &str,
    name: &[u8],
    bytes: &[u8],
) -> io::Result<bool>
    ensures claims { IsTrue D.tells → ClaimsFiles (far_of (option_map string_bytes home.now) name.now) (mark_at beside.now name.now) bytes.now
        (D.holds directory.old) (D.holds directory.new) result }
    ensures settled { IfOk result (λ new. IsTrue new → D.settles directory.new (mark_at beside.now name.now)) }
{
    let near = place_of(alloc, beside, name)?;
    match far_of(alloc, home, name)? {
        None => make(directory, near.as_str(), bytes),
        Some(far) => make_both(directory, far.as_str(), near.as_str(), bytes),
    }
}

/// Whether something stands at a place.
fn is_held<D: Directory>(directory: &D, place: &str) -> io::Result<bool>
    ensures { IfOk result (λ held. IsTrue D.tells → held ≡ is_some (D.holds directory.now place.now)) }
{
    match directory.standing(place)? {
        Standing::Nothing => Ok(false),
        Standing::Plain(_) | Standing::Special => Ok(true),
    }
}

/// Whether a mark stands beside a file, or in the user's folder for all marks, where there is one.
fn find_files<D: Directory>(
    directory: &D,
    alloc: Global,
    home: &Option<String>,
    beside: &str,
    name: &[u8],
) -> io::Result<bool>
    ensures { IfOk result (λ found. IsTrue D.tells →
        found ≡ is_marked (far_of (option_map string_bytes home.now) name.now) (mark_at beside.now name.now) (D.holds directory.now)) }
{
    let near = place_of(alloc, beside, name)?;
    match far_of(alloc, home, name)? {
        None => is_held(directory, near.as_str()),
        Some(far) => {
            if is_held(directory, far.as_str())? {
                return Ok(true);
            }
            is_held(directory, near.as_str())
        }
    }
}

/// Removes a mark, the one in the folder for all marks first.
fn release_files<D: Directory>(
    directory: &mut D,
    alloc: Global,
    home: &Option<String>,
    beside: &str,
    name: &[u8],
) -> io::Result<()>
    ensures { IsTrue D.tells → ReleasesFiles (far_of (option_map string_bytes home.now) name.now) (mark_at beside.now name.now)
        (D.holds directory.old) (D.holds directory.new) result }
{
    let near = place_of(alloc, beside, name)?;
    if let Some(far) = far_of(alloc, home, name)? {
        directory.remove(far.as_str())?;
    }
    directory.remove(near.as_str())
}

impl<D: Directory + Drop, R: Randomness + Drop> Marks for RealMarks<D, R> {
    ghost view = { λ marks. marks_view marks.faults };

    fn faults(&self) -> u64 {
        self.faults
    }

    fn draw(&mut self) -> Result<[u8; 32], CallFault>
        ensures draws { Draws (marks_view self.old.faults) (marks_view self.new.faults) result }
        ensures given { IfOk result (R.gave self.old.source) }
    {
        match self.source.give() {
            Ok(bytes) => Ok(bytes),
            Err(error) => {
                self.reason = reason_of(self.alloc, "draw", "random bytes", &error);
                let fault = fault_of(&error);
                count_fault(&mut self.faults, fault);
                Err(fault)
            }
        }
    }

    fn claim(&mut self, beside: &str, name: &[u8], bytes: &[u8]) -> Result<bool, CallFault>
        ensures claims { Claims beside.now name.now bytes.now (marks_view self.old.faults) (marks_view self.new.faults) result }
        ensures files { IsTrue D.tells → ClaimsFiles (far_of (option_map string_bytes self.old.home) name.now)
            (mark_at beside.now name.now) bytes.now (D.holds self.old.directory) (D.holds self.new.directory) result }
        ensures settled { IfOk result (λ new. IsTrue new → D.settles self.new.directory (mark_at beside.now name.now)) }
        ensures home { self.new.home ≡ self.old.home }
    {
        match claim_files(
            &mut self.directory,
            self.alloc,
            &self.home,
            beside,
            name,
            bytes,
        ) {
            Ok(new) => Ok(new),
            Err(error) => {
                self.reason = reason_of(self.alloc, "mark", beside, &error);
                let fault = fault_of(&error);
                count_fault(&mut self.faults, fault);
                Err(fault)
            }
        }
    }

    fn is_taken(&mut self, beside: &str, name: &[u8]) -> Result<bool, CallFault>
        ensures looks { Looks beside.now name.now (marks_view self.old.faults) (marks_view self.new.faults) result }
        ensures files { IfOk result (λ found. IsTrue D.tells → found ≡ is_marked (far_of (option_map string_bytes self.old.home) name.now)
            (mark_at beside.now name.now) (D.holds self.old.directory)) }
        ensures same { self.new.directory ≡ self.old.directory }
        ensures home { self.new.home ≡ self.old.home }
    {
        match find_files(&self.directory, self.alloc, &self.home, beside, name) {
            Ok(found) => Ok(found),
            Err(error) => {
                self.reason = reason_of(self.alloc, "look for the mark of", beside, &error);
                let fault = fault_of(&error);
                count_fault(&mut self.faults, fault);
                Err(fault)
            }
        }
    }

    fn release(&mut self, beside: &str, name: &[u8]) -> Result<(), CallFault>
        ensures releases { Releases beside.now name.now (marks_view self.old.faults) (marks_view self.new.faults) result }
        ensures files { IsTrue D.tells → ReleasesFiles (far_of (option_map string_bytes self.old.home) name.now)
            (mark_at beside.now name.now) (D.holds self.old.directory) (D.holds self.new.directory) result }
        ensures home { self.new.home ≡ self.old.home }
    {
        match release_files(&mut self.directory, self.alloc, &self.home, beside, name) {
            Ok(()) => Ok(()),
            Err(error) => {
                self.reason = reason_of(self.alloc, "unmark", beside, &error);
                count_fault(&mut self.faults, CallFault::Failed);
                Err(fault_of(&error))
            }
        }
    }
}
