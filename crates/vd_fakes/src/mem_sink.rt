ghost use Rattle.std.specs.Prelude.{◌≡◌, ◌↔◌, [], true, ◌<◌, IsTrue, IsErr, IfOk, length};
ghost use Rattle.vd_fakes.specs.MemSink.{after_write, fresh_sink, limited_view, share_of};
ghost use Rattle.vd_fakes.specs.Failing.{fails_next};
ghost use Rattle.vd_outside.specs.Sink.{Writes};

use crate::Failures;
use std::alloc::{AllocError, Global};
use std::marker::Model;
use vd_base::{Failed, Items};
use vd_outside::{Recorder, Sink};

/// A sink in memory that takes so many bytes a call at most, though always one, and fails at the calls whose numbers
/// it is given. It tells its bytes while they fit its room.
#[derive(Drop)]
pub struct MemSink {
    recorder: Recorder,
    most: u32,
    failures: Failures,
}

impl Model for MemSink {
    ghost use Rattle.vd_fakes.specs.MemSink.{MemSinkState};

    ghost Value = { MemSinkState };

    ghost view = { λ sink. record { recorded = sink.recorder; most = sink.most; failures = sink.failures } };
}

impl MemSink {
    /// A sink with room for so many bytes, which takes at most `most` bytes a call and fails at the calls with these
    /// numbers.
    pub fn new(
        alloc: Global,
        room: usize,
        most: u32,
        failing: Items<u64>,
    ) -> Result<MemSink, AllocError>
        ensures { IfOk result (λ sink. sink ≡ fresh_sink room most failing) }
    {
        let recorder = Recorder::new(alloc, room)?;
        Ok(MemSink {
            recorder,
            most,
            failures: Failures::new(failing),
        })
    }

    /// The bytes that were kept.
    pub fn bytes(&self) -> &[u8]
        ensures { result.now ≡ self.now.recorded.bytes }
    {
        self.recorder.bytes()
    }

    /// Whether the bytes are all that were taken.
    pub fn tells(&self) -> bool
        ensures { result ≡ self.now.recorded.told }
    {
        self.recorder.tells()
    }
}

impl Sink for MemSink {
    ghost view = { limited_view };

    fn faults(&self) -> u64 {
        self.failures.faults
    }

    fn write(&mut self, bytes: &[u8]) -> Result<u32, Failed>
        requires { 0 < length bytes.now }
        ensures write { Writes bytes.now (limited_view self.old) (limited_view self.new) result }
        ensures fails { IsErr result ↔ IsTrue (fails_next self.old.failures) }
        ensures count { IfOk result (λ count. count ≡ share_of self.old (length bytes.now)) }
        ensures state { self.new ≡ after_write self.old bytes.now }
    {
        if self.failures.next_fails() {
            self.failures.count_fault();
            return Err(Failed);
        }
        let count = bytes.len().min(self.most.max(1) as usize);
        self.recorder.keep(&bytes[..count]);
        Ok(count as u32)
    }
}
