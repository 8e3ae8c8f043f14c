//! Marks in memory.

ghost use Rattle.std.specs.Prelude.{◌≡◌, [], Some, None, IfOk, OnOk, OnErr, is_some};
ghost use Rattle.vd_outside.specs.Causes.{asked_after};
ghost use Rattle.vd_outside.specs.Files.{with_content};
ghost use Rattle.vd_fakes.specs.Failing.{FailsAsTold, ReleaseFailsAsListed, StoreFailsAsListed, failures_at};
ghost use Rattle.vd_outside.specs.Marks.{Claims, Draws, Looks, Releases};
ghost use Rattle.vd_fakes.specs.MemMarks.{DrawFailsAsListed, marks_view, taken_of};
ghost use Rattle.vd_outside.specs.Places.{mark_at};
ghost use Rattle.vd_outside.specs.declared.outside_marks.marks.MarksCall.TheVariants.{Release};

use crate::Failures;
use std::alloc::{AllocError, Global};
use vd_base::{Bytes, CallFault, Items};
use vd_outside::{Marks, MarksCall, mark_at};

/// A place that was taken, with the bytes that stand there, or that was made free again.
#[derive(Drop)]
pub struct Mark {
    pub place: Bytes,
    pub bytes: Option<Bytes>,
}

impl Mark {
    /// The name beside a file is taken, with copies of these bytes.
    pub fn taken(alloc: Global, beside: &str, name: &[u8], bytes: &[u8]) -> Result<Mark, AllocError>
        ensures { IfOk result (λ mark. mark ≡ record { place = mark_at beside.now name.now; bytes = Some bytes.now }) }
    {
        let place = mark_at(alloc, beside, name)?;
        let bytes = Bytes::from_slice(alloc, bytes)?;
        Ok(Mark {
            place,
            bytes: Some(bytes),
        })
    }

    /// The name beside a file is free.
    fn free(alloc: Global, beside: &str, name: &[u8]) -> Result<Mark, AllocError>
        ensures { IfOk result (λ mark. mark ≡ record { place = mark_at beside.now name.now; bytes = None }) }
    {
        let place = mark_at(alloc, beside, name)?;
        Ok(Mark { place, bytes: None })
    }
}

/// Marks in memory, which fail at the calls whose numbers they are given, and give the draws that they hold in their order. Of marks
/// with one name the first counts.
#[derive(Drop)]
pub struct MemMarks {
    pub alloc: Global,
    pub marks: Items<Mark>,
    pub draws: Items<[u8; 32]>,
    pub asked: Items<MarksCall>,
    pub failures: Failures,
}

impl MemMarks {
    /// These names are taken, these bytes will be drawn, and the calls with these numbers fail.
    pub fn new(
        alloc: Global,
        marks: Items<Mark>,
        draws: Items<[u8; 32]>,
        failing: Items<u64>,
    ) -> MemMarks
        ensures { result ≡ record { alloc = alloc; marks = marks; draws = draws; asked = []; failures = failures_at failing } }
    {
        MemMarks {
            alloc,
            marks,
            draws,
            asked: Items::new(alloc),
            failures: Failures::new(failing),
        }
    }
}

impl MemMarks {
    /// Makes a place free again, if that is not to fail. Nothing is counted.
    fn free(&mut self, beside: &str, name: &[u8], fails: bool) -> Result<(), CallFault>
        ensures counts { self.new.failures ≡ self.old.failures }
        ensures draws { self.new.draws ≡ self.old.draws }
        ensures asked { self.new.asked ≡ asked_after self.old.asked (Release (mark_at beside.now name.now)) result }
        ensures free { OnOk result (taken_of self.new.marks ≡ with_content (taken_of self.old.marks) (mark_at beside.now name.now) None) }
        ensures kept { OnErr result (self.new.marks ≡ self.old.marks) }
        ensures told { FailsAsTold fails result }
    {
        let call = MarksCall::Release(mark_at(self.alloc, beside, name)?);
        let mark = Mark::free(self.alloc, beside, name)?;
        if fails {
            self.asked.push(call)?;
            return Err(CallFault::Failed);
        }
        self.marks.put_first(mark)?;
        if let Err(error) = self.asked.push(call) {
            self.marks.remove(0);
            return Err(error.into());
        }
        Ok(())
    }
}

/// Whether a place is taken.
fn is_taken(marks: &[Mark], place: &[u8]) -> bool
    ensures { result ≡ is_some (taken_of marks.now place.now) }
{
    for mark in marks {
        if mark.place.as_slice() == place {
            return mark.bytes.is_some();
        }
    }
    false
}

impl Marks for MemMarks {
    ghost view = { marks_view };

    fn faults(&self) -> u64 {
        self.failures.faults
    }

    fn draw(&mut self) -> Result<[u8; 32], CallFault>
        ensures draws { Draws (marks_view self.old) (marks_view self.new) result }
        ensures listed { DrawFailsAsListed self.old.failures self.old.draws result self.new.failures }
    {
        let fails = self.failures.next_fails();
        self.asked.push(MarksCall::Draw)?;
        if fails || self.draws.as_slice().len() == 0 {
            self.failures.count_fault();
            return Err(CallFault::Failed);
        }
        Ok(self.draws.remove(0))
    }

    fn claim(&mut self, beside: &str, name: &[u8], bytes: &[u8]) -> Result<bool, CallFault>
        ensures claims { Claims beside.now name.now bytes.now (marks_view self.old) (marks_view self.new) result }
        ensures listed { StoreFailsAsListed self.old.failures result self.new.failures }
    {
        let fails = self.failures.next_fails();
        let call = MarksCall::Claim(mark_at(self.alloc, beside, name)?);
        let mark = Mark::taken(self.alloc, beside, name, bytes)?;
        if fails {
            self.asked.push(call)?;
            self.failures.count_fault();
            return Err(CallFault::Failed);
        }
        if is_taken(self.marks.as_slice(), mark.place.as_slice()) {
            self.asked.push(call)?;
            return Ok(false);
        }
        self.marks.put_first(mark)?;
        if let Err(error) = self.asked.push(call) {
            self.marks.remove(0);
            return Err(error.into());
        }
        Ok(true)
    }

    fn is_taken(&mut self, beside: &str, name: &[u8]) -> Result<bool, CallFault>
        ensures looks { Looks beside.now name.now (marks_view self.old) (marks_view self.new) result }
        ensures listed { StoreFailsAsListed self.old.failures result self.new.failures }
    {
        let fails = self.failures.next_fails();
        let place = mark_at(self.alloc, beside, name)?;
        let found = is_taken(self.marks.as_slice(), place.as_slice());
        self.asked.push(MarksCall::Look(place))?;
        if fails {
            self.failures.count_fault();
            return Err(CallFault::Failed);
        }
        Ok(found)
    }

    fn release(&mut self, beside: &str, name: &[u8]) -> Result<(), CallFault>
        ensures releases { Releases beside.now name.now (marks_view self.old) (marks_view self.new) result }
        ensures listed { ReleaseFailsAsListed self.old.failures result self.new.failures }
    {
        let fails = self.failures.next_fails();
        match self.free(beside, name, fails) {
            Ok(()) => Ok(()),
            Err(fault) => {
                self.failures.count_fault();
                Err(fault)
            }
        }
    }
}
