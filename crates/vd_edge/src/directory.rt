ghost use Rattle.std.specs.Prelude.{◌≡◌, ℕ, Bool, IsTrue, List, Option, None, Some, false, take, IfOk, OnOk, OnErr, IfSome, is_some, ⊤};
ghost use Rattle.vd_edge.specs.Store.{Moves, Same, SameElse, is_replaced, stands};

use crate::files::read_front;
use crate::standing::made_mode;
use crate::{Access, Standing};
use std::alloc::Global;
use std::fs::{self, DirBuilder, OpenFile, OpenOptions, Permissions};
use std::io::{self, ErrorKind, Write};
use std::os::unix::fs::{DirBuilderExt, OpenOptionsExt, PermissionsExt};
use std::rt::Files as Disk;

/// Files by name, as a system has them.
pub trait Directory {
    /// A file that was made, open to be filled.
    type File: Drop;

    /// This open file was made at this name.
    ghost is_made: { Self.File → List ℕ → Type 0 };

    /// Whether what stands at each name is known.
    ghost tells: { Bool };

    /// What stands at a name, where that is known.
    ghost holds: { Self → List ℕ → Option (List ℕ) };

    /// What stood at a name when the run began.
    ghost began: { Self → List ℕ → Option (List ℕ) };

    /// Whether nothing or a plain file stands at a name, so that another file can take its place.
    ghost replaces: { Self → List ℕ → Bool };

    /// The disk was asked to keep the names in the folder of this one.
    ghost settles: { Self → List ℕ → Type 0 };

    /// The file at a name was to be read, and that failed.
    ghost fails_at: { Self → List ℕ → Type 0 };

    /// The run begins, as clauses read it: what stands now is what stood then.
    fn begin(&mut self)
        ensures begun { began self.new ≡ holds self.old }
        ensures same { holds self.new ≡ holds self.old }
        ensures failures { (name : List ℕ) → fails_at self.new name → fails_at self.old name };

    /// A number that no other process has while this one runs.
    fn mark(&self) -> u32;

    /// A prefix of the file with this name: so many bytes of it, or all where it has no more.
    fn read(&self, alloc: Global, name: &str, most: u64) -> io::Result<Vec<u8>>
        ensures front { IfOk result (λ bytes. IfSome (holds self.now name.now) (λ all. bytes.items ≡ take most all)) }
        ensures found { OnOk result (IsTrue tells → IsTrue (is_some (holds self.now name.now))) }
        ensures failed { OnErr result (fails_at self.now name.now) };

    /// What stands at a name. A plain file that may not be written is an error.
    fn standing(&self, name: &str) -> io::Result<Standing>
        ensures replaced { IfOk result (λ standing. IsTrue tells → replaces self.now name.now ≡ is_replaced standing) }
        ensures held { IfOk result (λ standing. IsTrue tells → is_some (holds self.now name.now) ≡ stands standing) };

    /// Puts all these bytes at a name, in place of what stood there.
    fn write(&mut self, name: &str, bytes: &[u8]) -> io::Result<()>
        ensures all { OnOk result (IsTrue tells → holds self.new name.now ≡ Some bytes.now) }
        ensures others { IsTrue tells → SameElse name.now (holds self.old) (holds self.new) }
        ensures begun { began self.new ≡ began self.old };

    /// Makes a file at a name at which nothing stands, and gives it open. Where something stands there, that is an error.
    fn create(&mut self, name: &str, access: Access) -> io::Result<Self::File>
        ensures made { IfOk result (λ file. is_made file name.now) }
        ensures free { OnOk result (IsTrue tells → holds self.old name.now ≡ None) }
        ensures others { OnOk result (IsTrue tells → SameElse name.now (holds self.old) (holds self.new)) }
        ensures kept { OnErr result (IsTrue tells → Same (holds self.old) (holds self.new)) }
        ensures begun { began self.new ≡ began self.old };

    /// Puts all these bytes into a file that was made, whatever stands at its name by now, and waits until the disk has them.
    fn fill(&mut self, file: Self::File, bytes: &[u8], access: Access) -> io::Result<()>
        ensures all { OnOk result ((name : List ℕ) → is_made file name → IsTrue tells → holds self.new name ≡ Some bytes.now) }
        ensures others { (name : List ℕ) → is_made file name → IsTrue tells → SameElse name (holds self.old) (holds self.new) }
        ensures begun { began self.new ≡ began self.old };

    /// Gives the file at a name another one, in place of what stood there. It is done in one step or not at all.
    fn rename(&mut self, from: &str, to: &str) -> io::Result<()>
        ensures moves { OnOk result (IsTrue tells → Moves from.now to.now (holds self.old) (holds self.new)) }
        ensures kept { OnErr result (IsTrue tells → Same (holds self.old) (holds self.new)) }
        ensures begun { began self.new ≡ began self.old };

    /// Removes the file at a name.
    fn remove(&mut self, name: &str) -> io::Result<()>
        ensures gone { OnOk result (IsTrue tells → holds self.new name.now ≡ None) }
        ensures others { IsTrue tells → SameElse name.now (holds self.old) (holds self.new) }
        ensures begun { began self.new ≡ began self.old };

    /// Makes the folder in which this name stands, and those above it, where there are none.
    fn make_folder(&mut self, name: &str) -> io::Result<()>
        ensures same { IsTrue tells → Same (holds self.old) (holds self.new) }
        ensures begun { began self.new ≡ began self.old };

    /// Waits until the disk has the names in the folder of this one.
    fn settle(&mut self, name: &str) -> io::Result<()>
        ensures same { IsTrue tells → Same (holds self.old) (holds self.new) }
        ensures asked { settles self.new name.now }
        ensures begun { began self.new ≡ began self.old };
}

/// The files of a runtime. What they hold is not known.
#[derive(Drop)]
pub struct SystemDirectory<R: Disk + Drop> {
    rt: R,
    mark: u32,
}

impl<R: Disk + Drop> SystemDirectory<R> {
    /// The files of this runtime, for the process with this number.
    pub fn new(rt: R, mark: u32) -> SystemDirectory<R> {
        SystemDirectory { rt, mark }
    }
}

/// The bits of a mode that say who may do what.
const ACCESS_BITS: u32 = 0o777;

/// How a new file is made.
fn new_options(access: Access) -> OpenOptions {
    let mut options = OpenOptions::new();
    options.write(true);
    options.create_new(true);
    if let Some(mode) = made_mode(access) {
        options.mode(mode);
    }
    options
}

/// How often a write is made again that was interrupted.
const MOST_TRIES: u32 = 64;

/// Writes all these bytes by one call. Where they do not all go in, that is an error: a further call, where files may be no longer, would end
/// the program by a signal, and leave the file.
fn write_at_once<W: Write>(file: &mut W, bytes: &[u8]) -> io::Result<()> {
    for _ in 0..MOST_TRIES {
        match file.write(bytes) {
            Ok(count) if count == bytes.len() => return Ok(()),
            Ok(_) => return Err(io::Error::from(ErrorKind::WriteZero)),
            Err(error) if error.kind() == ErrorKind::Interrupted => {}
            Err(error) => return Err(error),
        }
    }
    Err(io::Error::from(ErrorKind::Interrupted))
}

/// The folder in which a name stands.
fn folder_of(name: &str) -> &str {
    match name.rsplit_once('/') {
        Some(("", _)) => "/",
        Some((folder, _)) => folder,
        None => ".",
    }
}

impl<R: Disk + Drop> Directory for SystemDirectory<R> {
    type File = R::File;

    ghost is_made = { λ file name. ⊤ };

    ghost tells = { false };

    ghost holds = { λ directory name. None };

    ghost began = { λ directory name. None };

    ghost replaces = { λ directory name. false };

    ghost settles = { λ directory name. ⊤ };

    ghost fails_at = { λ directory name. ⊤ };

    fn begin(&mut self) {}

    fn mark(&self) -> u32 {
        self.mark
    }

    fn read(&self, alloc: Global, name: &str, most: u64) -> io::Result<Vec<u8>> {
        read_front(alloc, fs::open(&self.rt, name)?, most)
    }

    fn standing(&self, name: &str) -> io::Result<Standing> {
        match fs::metadata(&self.rt, name) {
            Ok(found) if found.is_file() => {
                OpenOptions::new().write(true).open(&self.rt, name)?;
                Ok(Standing::Plain(found.permissions().mode() & ACCESS_BITS))
            }
            Ok(_) => Ok(Standing::Special),
            Err(error) if error.kind() == ErrorKind::NotFound => Ok(Standing::Nothing),
            Err(error) => Err(error),
        }
    }

    fn write(&mut self, name: &str, bytes: &[u8]) -> io::Result<()> {
        fs::write(&self.rt, name, bytes)
    }

    fn create(&mut self, name: &str, access: Access) -> io::Result<R::File> {
        new_options(access).open(&self.rt, name)
    }

    fn fill(&mut self, file: R::File, bytes: &[u8], access: Access) -> io::Result<()> {
        let mut file = file;
        write_at_once(&mut file, bytes)?;
        if let Access::Mode(mode) = access {
            file.set_permissions(Permissions::from_mode(mode))?;
        }
        file.sync_all()
    }

    fn rename(&mut self, from: &str, to: &str) -> io::Result<()> {
        fs::rename(&self.rt, from, to)
    }

    fn remove(&mut self, name: &str) -> io::Result<()> {
        fs::remove_file(&self.rt, name)
    }

    fn make_folder(&mut self, name: &str) -> io::Result<()> {
        let mut builder = DirBuilder::new();
        builder.recursive(true);
        builder.mode(0o700);
        builder.create(&self.rt, folder_of(name))
    }

    fn settle(&mut self, name: &str) -> io::Result<()> {
        fs::open(&self.rt, folder_of(name))?.sync_all()
    }
}
