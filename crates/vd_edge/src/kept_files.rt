ghost use Rattle.std.specs.Prelude.{◌≡◌, ◌≤◌, ℕ, [], false, Some, None, OnOk, OnErr, ◌||◌, IsTrue, IfSome, IfOk, IfErr, IsErrOf, is_some};
ghost use Rattle.vd_edge.specs.KeptFiles.{AreFailed, AreFaults, AreHeldOf, AreTried, IsHeldOf, IsReadAhead, NotesUnread, StandAlone, StandWhole, StillTried, after_stores, are_held_at, as_read, content, is_tried, is_unanswered, is_unknown, kept_view, stood, stores_at, were_asked};
ghost use Rattle.std.proofs.Props.{props};
ghost use Rattle.vd_outside.specs.Causes.{Rose};
ghost use Rattle.vd_edge.specs.Store.{IsRefused, MayLeave, SameElse, is_deal};
ghost use Rattle.vd_outside.specs.Files.{Fetches, Stores as StoresAt, fetched};
ghost use Rattle.vd_outside.specs.declared.faults.FetchFault.TheVariants as fetch_fault;

use crate::kept::{Reading, Unread};
use crate::stores::Stores;
use crate::{Directory, Held, Kept, RealFiles, Wanted};
use std::alloc::{AllocError, Global};
use vd_base::{Bytes, CallFault, Items, Text};
use vd_outside::{FetchFault, Files, FilesCall};

/// Files that are read once, ahead of a run, and then tell what they held. A fetch is answered by what was read, so two
/// fetches of one name give the same bytes; a name that was not read, or at which bytes were put since, cannot be fetched.
/// Stores go to the files below.
#[derive(Drop)]
pub struct KeptFiles<D: Directory + Drop> {
    files: RealFiles<D>,
    alloc: Global,
    kept: Items<Kept>,
    unread: Items<Unread>,
    asked: Items<FilesCall>,
    stores: Stores,
    faults: u64,
    reason: Option<Text>,
    ghost known: { IsTrue (were_asked asked stores.pairs) },

    // Where the directory tells what it holds, what was read is what stood there, and what is told is what stands there now.
    ghost held: { IsTrue D.tells → IsTrue (are_held_at kept (D.began files.directory)) },
    ghost whole: { IsTrue D.tells →
        StandWhole (after_stores stores.pairs (stood D.tells (D.began files.directory) kept))
        (D.holds files.directory) } by { Prim.hlevel props },
    ghost alone: { IsTrue D.tells →
        StandAlone stores.pairs (after_stores stores.pairs (stood D.tells (D.began files.directory) kept))
        (D.holds files.directory) } by { Prim.hlevel props },
}

/// The bytes of a file that was read, if they are no more than the limit. Of one that is longer than was asked when it was
/// read, the bytes are not known.
fn bytes_within(alloc: Global, held: &Held, limit: u32) -> Result<Bytes, FetchFault>
    ensures gives { IfOk result (λ bytes. fetched (Some (content held.now)) limit ≡ Ok bytes) }
    ensures too_long { IsErrOf result fetch_fault.TooLong → fetched (Some (content held.now)) limit ≡ Err fetch_fault.TooLong }
    ensures unknown { IsErrOf result fetch_fault.Failed → IsTrue (is_unknown held.now limit) }
    ensures known { OnOk result (is_unknown held.now limit ≡ false) }
    ensures known_long { IsErrOf result fetch_fault.TooLong → is_unknown held.now limit ≡ false }
{
    match held {
        Held::Whole(bytes) if bytes.as_slice().len() <= limit as usize => {
            let copy = Bytes::from_slice(alloc, bytes.as_slice())?;
            Ok(copy)
        }
        Held::Whole(_) => Err(FetchFault::TooLong),
        Held::Longer(most) if limit <= *most => Err(FetchFault::TooLong),
        Held::Longer(_) => Err(FetchFault::Failed),
    }
}

/// The bytes that were read at a name, if they are no more than the limit.
fn fetch_kept(alloc: Global, kept: &[Kept], name: &str, limit: u32) -> Result<Bytes, FetchFault>
    ensures gives { IfOk result (λ bytes. fetched (as_read kept.now name.now) limit ≡ Ok bytes) }
    ensures too_long { IsErrOf result fetch_fault.TooLong → fetched (as_read kept.now name.now) limit ≡ Err fetch_fault.TooLong }
    ensures unanswered { IsErrOf result fetch_fault.Failed → IsTrue (is_unanswered kept.now name.now limit) }
    ensures answered { OnOk result (is_unanswered kept.now name.now limit ≡ false) }
    ensures answered_long { IsErrOf result fetch_fault.TooLong → is_unanswered kept.now name.now limit ≡ false }
{
    for file in kept {
        if file.name.as_str().as_bytes() == name.as_bytes() {
            return bytes_within(alloc, &file.held, limit);
        }
    }
    Err(FetchFault::Failed)
}

/// Whether a file with this name was read.
fn is_kept(kept: &[Kept], name: &str) -> bool
    ensures { result ≡ is_some (as_read kept.now name.now) }
{
    for file in kept {
        if file.name.as_str().as_bytes() == name.as_bytes() {
            return true;
        }
    }
    false
}

/// Whether one of these calls stores at a name.
fn stores_at(name: &str, calls: &[FilesCall]) -> bool
    ensures { result ≡ stores_at name.now calls.now }
{
    for call in calls {
        if let FilesCall::Store(other) = call
            && other.as_str().as_bytes() == name.as_bytes()
        {
            return true;
        }
    }
    false
}

/// What a file holds.
fn held_of<D: Directory + Drop>(
    files: &mut RealFiles<D>,
    name: &str,
    most: u32,
) -> Result<Option<Held>, FetchFault>
    ensures held { IfOk result (λ came. IfSome came (λ held. IsHeldOf D.tells held (D.holds files.old.directory name.now))) }
    ensures later { files.old.faults ≤ files.new.faults }
    ensures rose { IfOk result (λ came. came ≡ None → Rose files.old.faults files.new.faults) }
    ensures failed { IfOk result (λ came. came ≡ None → D.fails_at files.old.directory name.now) }
    ensures same { files.new.directory ≡ files.old.directory }
    ensures memory { IfErr result (λ fault. fault ≡ fetch_fault.Memory) }
{
    match files.fetch(name, most) {
        Ok(bytes) => Ok(Some(Held::Whole(bytes))),
        Err(FetchFault::TooLong) => Ok(Some(Held::Longer(most))),
        Err(FetchFault::Failed) => Ok(None),
        Err(FetchFault::Memory) => Err(FetchFault::Memory),
    }
}

/// A copy of a reason.
fn copied(alloc: Global, reason: Option<&str>) -> Option<Text> {
    match reason {
        Some(reason) => Text::copy_of(alloc, reason).ok(),
        None => None,
    }
}

/// Notes that a file could not be read, and why, where that is known.
fn note_unread(
    alloc: Global,
    unread: &mut Items<Unread>,
    file: &Wanted,
    reason: Option<&str>,
) -> Result<(), AllocError>
    ensures { OnOk result (NotesUnread file.now.name unread.old unread.new) }
{
    let name = Text::copy_of(alloc, file.name.as_str())?;
    let reason = copied(alloc, reason);
    unread.push(Unread { name, reason })
}

/// Why the file with this name could not be read, where that is known.
fn reason_for(alloc: Global, unread: &[Unread], name: &str) -> Option<Text> {
    for file in unread {
        if file.name.as_str().as_bytes() == name.as_bytes() {
            return match &file.reason {
                Some(reason) => Text::copy_of(alloc, reason.as_str()).ok(),
                None => None,
            };
        }
    }
    None
}

/// Reads a file, unless one with its name was read, and keeps what it holds.
fn keep<D: Directory + Drop>(
    alloc: Global,
    files: &mut RealFiles<D>,
    reading: &mut Reading,
    file: &Wanted,
) -> Result<(), FetchFault>
    ensures held { AreHeldOf D.tells reading.old.kept (D.holds files.old.directory) →
        AreHeldOf D.tells reading.new.kept (D.holds files.old.directory) }
    ensures tried { OnOk result (IsTrue (is_tried reading.new.kept reading.new.unread file.now.name)) }
    ensures before { OnOk result (StillTried reading.old reading.new) }
    ensures counted { OnOk result ((first : ℕ) → AreFaults reading.old.unread first files.old.faults →
        AreFaults reading.new.unread first files.new.faults) }
    ensures failed { OnOk result (AreFailed (D.fails_at files.old.directory) reading.old.unread →
        AreFailed (D.fails_at files.old.directory) reading.new.unread) }
    ensures same { files.new.directory ≡ files.old.directory }
    ensures memory { IfErr result (λ fault. fault ≡ fetch_fault.Memory) }
{
    if is_kept(reading.kept.as_slice(), file.name.as_str()) {
        return Ok(());
    }
    if let Some(held) = held_of(files, file.name.as_str(), file.most)? {
        let name = Text::copy_of(alloc, file.name.as_str())?;
        reading.kept.push(Kept { name, held })?;
    } else {
        note_unread(alloc, &mut reading.unread, file, files.reason())?;
    }
    Ok(())
}

/// Reads these files, each at most once.
fn read_all<D: Directory + Drop>(
    alloc: Global,
    files: &mut RealFiles<D>,
    wanted: &[Wanted],
) -> Result<Reading, FetchFault>
    ensures held { IfOk result (λ reading. AreHeldOf D.tells reading.kept (D.holds files.old.directory)) }
    ensures tried { IfOk result (λ reading. AreTried wanted.now reading.kept reading.unread) }
    ensures counted { IfOk result (λ reading. AreFaults reading.unread files.old.faults files.new.faults) }
    ensures failed { IfOk result (λ reading. AreFailed (D.fails_at files.old.directory) reading.unread) }
    ensures same { OnOk result (files.new.directory ≡ files.old.directory) }
    ensures memory { IfErr result (λ fault. fault ≡ fetch_fault.Memory) }
{
    let mut reading = Reading {
        kept: Items::new(alloc),
        unread: Items::new(alloc),
    };
    for file in wanted {
        keep(alloc, files, &mut reading, file)?;
    }
    Ok(reading)
}

impl<D: Directory + Drop> KeptFiles<D> {
    /// Reads these files, each at most once. One that cannot be read is not kept; its fetch fails. It is refused only where
    /// there is no memory for what is read.
    pub fn read(
        files: RealFiles<D>,
        alloc: Global,
        wanted: &[Wanted],
    ) -> Result<KeptFiles<D>, FetchFault>
        ensures read { IfOk result (λ it. IsReadAhead wanted.now (D.fails_at files.directory) (files.faults, it.files.faults)
            D.tells (D.holds files.directory)
            (kept_view D.tells (D.began it.files.directory) it.kept it.asked it.stores.pairs it.faults)) }
        ensures memory { IfErr result (λ fault. fault ≡ fetch_fault.Memory) }
    {
        let mut files = files;
        files.begin();
        let Reading { kept, unread } = read_all(alloc, &mut files, wanted)?;
        Ok(KeptFiles {
            files,
            alloc,
            kept,
            unread,
            asked: Items::new(alloc),
            stores: Stores::new(),
            faults: 0,
            reason: None,
        })
    }

    /// Why the last call failed, where one did and it is known.
    pub fn reason(&self) -> Option<&str> {
        match &self.reason {
            Some(reason) => Some(reason.as_str()),
            None => None,
        }
    }

    /// The files below, with all that was stored.
    pub fn into_inner(self) -> RealFiles<D>
        ensures { result ≡ self.files }
    {
        self.files
    }

    /// The answer to a fetch.
    fn answer(&self, name: &str, limit: u32) -> Result<Bytes, FetchFault>
        ensures gives { IfOk result (λ bytes.
            fetched (after_stores self.now.stores.pairs (stood D.tells (D.began self.now.files.directory) self.now.kept) name.now)
            limit ≡ Ok bytes) }
        ensures too_long { IsErrOf result fetch_fault.TooLong →
            fetched (after_stores self.now.stores.pairs (stood D.tells (D.began self.now.files.directory) self.now.kept) name.now)
            limit ≡ Err fetch_fault.TooLong }
        ensures unanswered { IsErrOf result fetch_fault.Failed →
            IsTrue (stores_at name.now self.now.asked || is_unanswered self.now.kept name.now limit) }
    {
        if stores_at(name, self.asked.as_slice()) {
            return Err(FetchFault::Failed);
        }
        fetch_kept(self.alloc, self.kept.as_slice(), name, limit)
    }
}

impl<D: Directory + Drop> Files for KeptFiles<D> {
    ghost view = { λ files.
        kept_view D.tells (D.began files.files.directory) files.kept files.asked files.stores.pairs files.faults };

    fn faults(&self) -> u64 {
        self.faults
    }

    #[tactic(auto, using(crate::proofs::Ahead::asked_more))]
    fn fetch(&mut self, name: &str, limit: u32) -> Result<Bytes, FetchFault>
        ensures fetches { Fetches name.now limit
            (kept_view D.tells (D.began self.old.files.directory) self.old.kept self.old.asked self.old.stores.pairs self.old.faults)
            (kept_view D.tells (D.began self.new.files.directory) self.new.kept self.new.asked self.new.stores.pairs self.new.faults)
            result }
        ensures unanswered { IsErrOf result fetch_fault.Failed →
            IsTrue (stores_at name.now self.old.asked || is_unanswered self.old.kept name.now limit) }
    {
        let call = FilesCall::Fetch(Text::copy_of(self.alloc, name)?);
        let answer = self.answer(name, limit);
        if matches!(answer, Err(FetchFault::Memory)) {
            return answer;
        }
        self.asked.push(call)?;
        if matches!(answer, Err(FetchFault::Failed)) {
            self.faults = self.faults.saturating_add(1);
            self.reason = reason_for(self.alloc, self.unread.as_slice(), name);
        }
        answer
    }

    #[tactic(auto, using(crate::proofs::Ahead::asked_store, crate::proofs::Disk::held_still, crate::proofs::Disk::whole_same, crate::proofs::Disk::alone_same))]
    fn store(&mut self, name: &str, bytes: &[u8]) -> Result<(), CallFault>
        ensures stores { StoresAt name.now bytes.now
            (kept_view D.tells (D.began self.old.files.directory) self.old.kept self.old.asked self.old.stores.pairs self.old.faults)
            (kept_view D.tells (D.began self.new.files.directory) self.new.kept self.new.asked self.new.stores.pairs self.new.faults)
            result }
        ensures all { OnOk result (IsTrue D.tells → D.holds self.new.files.directory name.now ≡ Some bytes.now) }
        ensures kept { OnErr result (IsTrue D.tells → IsTrue (D.replaces self.old.files.directory name.now) →
            D.holds self.new.files.directory name.now ≡ D.holds self.old.files.directory name.now) }
        ensures left { IsTrue D.tells →
            MayLeave name.now (D.holds self.old.files.directory) (D.holds self.new.files.directory) }
        ensures others { OnOk result (IsTrue D.tells →
            SameElse name.now (D.holds self.old.files.directory) (D.holds self.new.files.directory)) }
        ensures refused { IsTrue D.tells → IsTrue (is_deal bytes.now) → D.replaces self.old.files.directory name.now ≡ false →
            IsRefused result (D.holds self.old.files.directory) (D.holds self.new.files.directory) }
    {
        let call = FilesCall::Store(Text::copy_of(self.alloc, name)?);
        let before = self.asked.as_slice().len();
        self.asked.push(call)?;
        match self.files.store(name, bytes) {
            Ok(()) => {
                self.stores.note(name.as_bytes(), bytes);
                Ok(())
            }
            Err(CallFault::Failed) => {
                self.stores.fail(name.as_bytes());
                self.faults = self.faults.saturating_add(1);
                self.reason = copied(self.alloc, self.files.reason());
                Err(CallFault::Failed)
            }
            Err(CallFault::Memory) => {
                self.asked.truncate(before);
                Err(CallFault::Memory)
            }
        }
    }
}
