ghost use Rattle.std.specs.Prelude.{◌≡◌, []};
ghost use Rattle.vd_outside.specs.Files.{Fetches, Stores};
ghost use Rattle.vd_fakes.specs.MemFiles.{files_view};
ghost use Rattle.vd_fakes.specs.Failing.{failures_at, FetchFailsAsListed, StoreFailsAsListed};
ghost use Rattle.vd_fakes.specs.Found.{found};

use crate::Failures;
use crate::finding::{find, limited};
use std::alloc::Global;
use vd_base::{Bytes, CallFault, Items, Text};
use vd_outside::{FetchFault, Files, FilesCall, Stored};

/// Files in memory, which fail at the calls whose numbers they are given. Of files with one name the first counts.
#[derive(Drop)]
pub struct MemFiles {
    pub alloc: Global,
    pub files: Items<Stored>,
    pub asked: Items<FilesCall>,
    pub failures: Failures,
}

impl MemFiles {
    /// These files, which fail at the calls with these numbers.
    pub fn new(alloc: Global, files: Items<Stored>, failing: Items<u64>) -> MemFiles
        ensures { result ≡ record { alloc = alloc; files = files; asked = []; failures = failures_at failing } }
    {
        MemFiles {
            alloc,
            files,
            asked: Items::new(alloc),
            failures: Failures::new(failing),
        }
    }
}

impl Files for MemFiles {
    ghost view = { files_view };

    fn faults(&self) -> u64 {
        self.failures.faults
    }

    fn fetch(&mut self, name: &str, limit: u32) -> Result<Bytes, FetchFault>
        ensures fetch { Fetches name.now limit (files_view self.old) (files_view self.new) result }
        ensures listed { FetchFailsAsListed self.old.failures (found self.old.files name.now) result self.new.failures }
    {
        let fails = self.failures.next_fails();
        let call = FilesCall::Fetch(Text::copy_of(self.alloc, name)?);
        let content = find(self.alloc, self.files.as_slice(), name)?;
        self.asked.push(call)?;
        if fails || content.is_none() {
            self.failures.count_fault();
            return Err(FetchFault::Failed);
        }
        limited(content, limit)
    }

    fn store(&mut self, name: &str, bytes: &[u8]) -> Result<(), CallFault>
        ensures store { Stores name.now bytes.now (files_view self.old) (files_view self.new) result }
        ensures listed { StoreFailsAsListed self.old.failures result self.new.failures }
    {
        let fails = self.failures.next_fails();
        let call = FilesCall::Store(Text::copy_of(self.alloc, name)?);
        let file = Stored::copy_of(self.alloc, name, bytes)?;
        if fails {
            self.asked.push(call)?;
            self.failures.count_fault();
            return Err(CallFault::Failed);
        }
        self.files.put_first(file)?;
        if let Err(error) = self.asked.push(call) {
            self.files.remove(0);
            return Err(error.into());
        }
        Ok(())
    }
}
