//! A directory in memory, which tells what it holds.

ghost use Rattle.std.specs.Prelude.{◌≡◌, ◌≤◌, [], None, Some, true, drop, length, is_some, IfOk, OnOk, OnErr, ⊤};
ghost use Rattle.vd_outside.specs.Files.{with_content};
ghost use Rattle.vd_fakes.specs.Failing.{failures_at};
ghost use Rattle.vd_fakes.specs.MemDirectory.{held_by};

use crate::Failures;
use std::alloc::{AllocError, Global};
use std::io::{self, ErrorKind};
use vd_base::{Bytes, Items, Text};
use vd_edge::{Access, Directory, Standing};

/// A name, and the bytes that were put there, or none where the file was taken away.
#[derive(Drop)]
pub struct Entry {
    pub name: Text,
    pub content: Option<Bytes>,
}

impl Entry {
    /// The file with this name has copies of these bytes.
    pub fn file(alloc: Global, name: &str, bytes: &[u8]) -> Result<Entry, AllocError>
        ensures { IfOk result (λ entry. entry ≡ record { name = name.now; content = Some bytes.now }) }
    {
        let bytes = Bytes::from_slice(alloc, bytes)?;
        Entry::with(alloc, name, Some(bytes))
    }

    /// At this name stands what is given.
    fn with(alloc: Global, name: &str, content: Option<Bytes>) -> Result<Entry, AllocError>
        ensures { IfOk result (λ entry. entry ≡ record { name = name.now; content = content }) }
    {
        let name = Text::copy_of(alloc, name)?;
        Ok(Entry { name, content })
    }
}

/// A copy of what stands at a name.
fn find_held(alloc: Global, entries: &[Entry], name: &str) -> Result<Option<Bytes>, AllocError>
    ensures { IfOk result (λ held. held ≡ held_by entries.now name.now) }
{
    for entry in entries {
        if entry.name.as_str().as_bytes() == name.as_bytes() {
            return match &entry.content {
                Some(bytes) => {
                    let copy = Bytes::from_slice(alloc, bytes.as_slice())?;
                    Ok(Some(copy))
                }
                None => Ok(None),
            };
        }
    }
    Ok(None)
}

/// Whether a file stands at a name.
fn is_held(entries: &[Entry], name: &str) -> bool
    ensures { result ≡ is_some (held_by entries.now name.now) }
{
    for entry in entries {
        if entry.name.as_str().as_bytes() == name.as_bytes() {
            return entry.content.is_some();
        }
    }
    false
}

/// A directory in memory, which tells what it holds. The changes with the numbers that it is given fail, and change nothing. Of
/// entries with one name the first counts; so many of the first came since the run began.
#[derive(Drop)]
pub struct MemDirectory {
    alloc: Global,
    entries: Items<Entry>,
    since: usize,
    failures: Failures,
    ghost counted: { since ≤ length entries },
}

impl MemDirectory {
    /// A directory with these entries, in which the changes with these numbers fail.
    pub fn new(alloc: Global, entries: Items<Entry>, failing: Items<u64>) -> MemDirectory
        ensures entries { result.entries ≡ entries }
        ensures failures { result.failures ≡ failures_at failing }
    {
        MemDirectory {
            alloc,
            entries,
            since: 0,
            failures: Failures::new(failing),
        }
    }

    /// Counts a change, and refuses it if it is one that fails.
    fn next_change(&mut self) -> io::Result<()>
        ensures entries { self.new.entries ≡ self.old.entries }
        ensures since { self.new.since ≡ self.old.since }
    {
        if self.failures.next_fails() {
            self.failures.count_fault();
            return Err(io::Error::from(ErrorKind::Other));
        }
        Ok(())
    }

    /// Puts this at a name.
    #[tactic(auto, using(crate::proofs::Entries::one_more_since))]
    fn put(&mut self, name: &str, content: Option<Bytes>) -> Result<(), AllocError>
        ensures put { OnOk result (held_by self.new.entries ≡ with_content (held_by self.old.entries) name.now content) }
        ensures kept { OnErr result (self.new.entries ≡ self.old.entries) }
        ensures begun { held_by (drop self.new.since self.new.entries) ≡ held_by (drop self.old.since self.old.entries) }
    {
        let entry = Entry::with(self.alloc, name, content)?;
        self.entries.put_first(entry)?;
        let all = self.entries.as_slice().len();
        prove!(self.since < all);
        self.since += 1;
        Ok(())
    }

    /// Gives bytes from one name to another, where they stand alone.
    #[tactic(auto, using(crate::proofs::Entries::two_more_since))]
    fn give(&mut self, from: &str, to: &str, bytes: Bytes) -> Result<(), AllocError>
        ensures given { OnOk result (held_by self.new.entries ≡
            with_content (with_content (held_by self.old.entries) from.now None) to.now (Some bytes)) }
        ensures kept { OnErr result (self.new.entries ≡ self.old.entries) }
        ensures begun { held_by (drop self.new.since self.new.entries) ≡ held_by (drop self.old.since self.old.entries) }
    {
        let gone = Entry::with(self.alloc, from, None)?;
        let there = Entry::with(self.alloc, to, Some(bytes))?;
        self.entries.put_first(gone)?;
        if let Err(error) = self.entries.put_first(there) {
            self.entries.remove(0);
            return Err(error);
        }
        let all = self.entries.as_slice().len();
        prove!(self.since + 1 < all);
        self.since += 2;
        Ok(())
    }
}

impl Directory for MemDirectory {
    type File = Text;

    ghost is_made = { λ file name. file ≡ name };

    ghost tells = { true };

    ghost holds = { λ directory. held_by directory.entries };

    ghost began = { λ directory. held_by (drop directory.since directory.entries) };

    ghost replaces = { λ directory name. true };

    ghost settles = { λ directory name. ⊤ };

    ghost fails_at = { λ directory name. ⊤ };

    fn begin(&mut self) {
        self.since = 0;
    }

    fn mark(&self) -> u32 {
        7
    }

    fn read(&self, alloc: Global, name: &str, most: u64) -> io::Result<Vec<u8>> {
        match find_held(alloc, self.entries.as_slice(), name)? {
            Some(bytes) => {
                let mut bytes = bytes.into_vec();
                bytes.truncate(most as usize);
                Ok(bytes)
            }
            None => Err(io::Error::from(ErrorKind::NotFound)),
        }
    }

    fn standing(&self, name: &str) -> io::Result<Standing> {
        if is_held(self.entries.as_slice(), name) {
            Ok(Standing::Plain(0o644))
        } else {
            Ok(Standing::Nothing)
        }
    }

    fn write(&mut self, name: &str, bytes: &[u8]) -> io::Result<()> {
        self.next_change()?;
        let bytes = Bytes::from_slice(self.alloc, bytes)?;
        self.put(name, Some(bytes))?;
        Ok(())
    }

    fn create(&mut self, name: &str, _access: Access) -> io::Result<Text> {
        self.next_change()?;
        let file = Text::copy_of(self.alloc, name)?;
        if is_held(self.entries.as_slice(), name) {
            return Err(io::Error::from(ErrorKind::AlreadyExists));
        }
        self.put(name, Some(Bytes::new(self.alloc)))?;
        Ok(file)
    }

    fn fill(&mut self, file: Text, bytes: &[u8], _access: Access) -> io::Result<()> {
        self.write(file.as_str(), bytes)
    }

    fn rename(&mut self, from: &str, to: &str) -> io::Result<()> {
        self.next_change()?;
        let held = find_held(self.alloc, self.entries.as_slice(), from)?;
        match held {
            Some(bytes) => {
                self.give(from, to, bytes)?;
                Ok(())
            }
            None => Err(io::Error::from(ErrorKind::NotFound)),
        }
    }

    fn remove(&mut self, name: &str) -> io::Result<()> {
        self.next_change()?;
        self.put(name, None)?;
        Ok(())
    }

    fn make_folder(&mut self, _name: &str) -> io::Result<()> {
        Ok(())
    }

    fn settle(&mut self, _name: &str) -> io::Result<()> {
        self.next_change()
    }
}
