//! What a host knows of a link whose bytes go in records.

ghost use Rattle.std.specs.Prelude.{◌≡◌, ◌≤◌, ◌<◌, ℕ, IfOk, OnErr, IsTrue, List, Some, true, false, [], length, nat_lt};
ghost use Rattle.vd_outside.specs.Causes.{Rose};
ghost use Rattle.vd_outside.specs.Link.{Sends, Receives};
ghost use Rattle.vd_channel_link.specs.Session.{BeginsNone, FailsToSend, IsFresh, NumberGoesOn, SendsRecord, TakesNext, sealed_view};

use crate::fault::SealFault;
use crate::noted::Noted;
use crate::piece::Piece;
use crate::taking::take_record;
use std::snapshot::Snapshot;
use vd_base::Failed;
use vd_channel_crypto::{Frame, Keys, RECORD_BYTES};
use vd_outside::{Link, send_all};

/// The keys of both directions of a link, where each stands, and the bytes of the last record that are not given yet. Where it failed
/// to send it sends nothing any more, and where it failed to receive it receives nothing any more.
#[derive(Drop)]
pub struct Session {
    frame: Frame,
    ours: Keys,
    theirs: Keys,
    /// The number of the next record that goes out.
    next_out: u64,
    /// The number of the next record that comes.
    next_in: u64,
    /// What is left of the last record that came.
    piece: Piece,
    /// Whether the link below has told its end.
    ended: bool,
    /// Whether nothing is sent any more.
    silent: bool,
    /// Whether nothing is taken any more.
    closed: bool,
    faults: u64,
    fault: Option<SealFault>,
    /// The bytes that were sent.
    sent: Noted,
}

/// Counts a fault.
fn count(faults: &mut u64)
    ensures later { faults.old ≤ faults.new }
    ensures rose { Rose faults.old faults.new }
{
    *faults = faults.saturating_add(1);
}

impl Session {
    /// A session of a link whose two ends have met, by the keys of both directions, the own first.
    pub fn new(frame: Frame, keys: (Keys, Keys)) -> Session
        ensures keys { (result.ours, result.theirs) ≡ keys }
        ensures fresh { IsFresh result }
    {
        let (ours, theirs) = keys;
        Session {
            frame,
            ours,
            theirs,
            next_out: 1,
            next_in: 1,
            piece: Piece::none(),
            ended: false,
            silent: false,
            closed: false,
            faults: 0,
            fault: None,
            sent: Noted::new(),
        }
    }

    /// How often it has failed.
    pub fn faults(&self) -> u64
        ensures { result ≡ self.now.faults }
    {
        self.faults
    }

    /// Why it takes nothing any more, if so.
    pub fn fault(&self) -> Option<SealFault>
        ensures { result ≡ self.now.fault }
    {
        self.fault
    }

    /// Whether a record behind the first was begun.
    pub fn has_sent(&self) -> bool
        ensures { result ≡ nat_lt 2 self.now.next_out }
    {
        self.next_out > 2
    }

    /// Sends a prefix of some bytes over the link below, in a record of its own.
    pub(crate) fn send<L: Link>(&mut self, link: &mut L, bytes: &[u8]) -> Result<u32, Failed>
        requires { 0 < length bytes.now }
        ensures sends { (rest : List ℕ) →
            Sends bytes.now (sealed_view self.old rest (L.view link.old)) (sealed_view self.new rest (L.view link.new)) result }
        ensures out { IfOk result (SendsRecord bytes.now self.old self.new (L.view link.old) (L.view link.new)) }
        ensures cut { OnErr result (FailsToSend bytes.now self.old self.new (L.view link.old) (L.view link.new)) }
        ensures number { NumberGoesOn self.old self.new (L.view link.old) (L.view link.new) }
    {
        let most = bytes.len().min(RECORD_BYTES);
        if self.silent || self.next_out == u64::MAX {
            count(&mut self.faults);
            return Err(Failed);
        }
        let front = &bytes[..most];
        self.frame.set_record(&self.ours, self.next_out, front);
        self.next_out += 1;
        if send_all(link, self.frame.as_slice()).is_err() {
            self.silent = true;
            count(&mut self.faults);
            return Err(Failed);
        }
        self.sent.note(front);
        Ok(most as u32)
    }

    /// Takes nothing any more, for this reason.
    fn close(&mut self, fault: SealFault)
        ensures closed { self.new ≡ record self.old { closed = true; fault = Some fault; faults = self.new.faults } }
        ensures later { self.old.faults ≤ self.new.faults }
        ensures rose { Rose self.old.faults self.new.faults }
    {
        self.closed = true;
        self.fault = Some(fault);
        count(&mut self.faults);
    }

    /// Takes the record with the next number, where it has the code of its direction and number and carries some bytes. Says whether
    /// there is one: none where the link below ends first. `before` is the link as it was when this was last begun.
    fn take_next<L: Link>(&mut self, link: &mut L, before: &mut Snapshot<L>) -> Result<bool, Failed>
        requires none_left { self.old.piece ≡ [] }
        requires goes_on { self.old.ended ≡ false }
        requires open { self.old.closed ≡ false }
        ensures takes { TakesNext
            (sealed_view self.old (L.view before.old.value).coming (L.view link.old))
            (sealed_view self.new (L.view before.new.value).coming (L.view link.new)) result }
        ensures some { IfOk result (λ more. IsTrue more → 0 < length self.new.piece) }
        ensures open { IfOk result (λ more. self.new.closed ≡ false) }
        ensures none_out { BeginsNone self.old self.new (L.view link.old) (L.view link.new) }
    {
        if self.next_in == u64::MAX {
            count(&mut self.faults);
            return Err(Failed);
        }
        *before = Snapshot::of(link);
        match take_record(link, &self.theirs, self.next_in) {
            Ok(piece) => {
                if piece.is_empty() {
                    self.close(SealFault::Head);
                    return Err(Failed);
                }
                self.next_in += 1;
                self.piece = piece;
                Ok(true)
            }
            Err(SealFault::End) => {
                self.ended = true;
                Ok(false)
            }
            Err(fault) => {
                self.close(fault);
                Err(Failed)
            }
        }
    }

    /// Gives the next bytes that came over the link below in records with the codes of their direction and places. `before` is the
    /// link as it was when a record was last begun.
    pub(crate) fn receive<L: Link>(
        &mut self,
        link: &mut L,
        before: &mut Snapshot<L>,
        into: &mut [u8],
    ) -> Result<u32, Failed>
        requires { 0 < length into.old }
        ensures receives { Receives into.new
            (sealed_view self.old (L.view before.old.value).coming (L.view link.old))
            (sealed_view self.new (L.view before.new.value).coming (L.view link.new)) result }
        ensures none_out { BeginsNone self.old self.new (L.view link.old) (L.view link.new) }
    {
        if self.ended {
            return Ok(0);
        }
        if self.closed {
            count(&mut self.faults);
            return Err(Failed);
        }
        if self.piece.is_empty() {
            let more = self.take_next(link, before)?;
            if !more {
                return Ok(0);
            }
        }
        Ok(self.piece.give(into) as u32)
    }
}
