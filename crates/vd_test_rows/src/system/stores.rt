ghost use Rattle.std.specs.Prelude.{None, false, ⊤};

use std::alloc::Global;
use std::io::{self, ErrorKind, Write};
use vd_edge::{Access, Directory, RealFiles, Standing};
use vd_outside::Files;

/// What stands at a place.
#[derive(Clone, Copy, Debug)]
enum Held {
    Nothing,
    Old,
    Part,
    New,
}

/// A step of a store.
#[derive(Clone, Copy, Debug, PartialEq, Eq)]
enum Step {
    Standing,
    Create,
    Fill,
    Rename,
    Remove,
}

/// A directory with two places: a name, and a new file beside it. Some steps of a store are refused.
#[derive(Drop)]
struct Shelf {
    kept: Held,
    beside: Held,
    refused: &'static [Step],
}

impl Shelf {
    /// Refuses a step if it is one that is to be refused.
    fn ask(&self, step: Step) -> io::Result<()> {
        if self.refused.contains(&step) {
            return Err(io::Error::from(ErrorKind::Other));
        }
        Ok(())
    }
}

impl Directory for Shelf {
    type File = Held;

    ghost is_made = { λ file name. ⊤ };

    ghost tells = { false };

    ghost holds = { λ shelf name. None };

    ghost began = { λ shelf name. None };

    ghost replaces = { λ shelf name. false };

    ghost settles = { λ shelf name. ⊤ };

    ghost fails_at = { λ shelf name. ⊤ };

    fn begin(&mut self) {}

    fn mark(&self) -> u32 {
        7
    }

    fn read(&self, alloc: Global, _name: &str, _most: u64) -> io::Result<Vec<u8>> {
        Ok(Vec::new(alloc))
    }

    fn standing(&self, _name: &str) -> io::Result<Standing> {
        self.ask(Step::Standing)?;
        match self.kept {
            Held::Nothing => Ok(Standing::Nothing),
            _ => Ok(Standing::Plain(0o644)),
        }
    }

    fn write(&mut self, _name: &str, _bytes: &[u8]) -> io::Result<()> {
        self.kept = Held::New;
        Ok(())
    }

    fn create(&mut self, _name: &str, _access: Access) -> io::Result<Held> {
        self.ask(Step::Create)?;
        self.beside = Held::Part;
        Ok(Held::Part)
    }

    fn fill(&mut self, _file: Held, _bytes: &[u8], _access: Access) -> io::Result<()> {
        self.ask(Step::Fill)?;
        self.beside = Held::New;
        Ok(())
    }

    fn rename(&mut self, _from: &str, _to: &str) -> io::Result<()> {
        self.ask(Step::Rename)?;
        self.kept = self.beside;
        self.beside = Held::Nothing;
        Ok(())
    }

    fn remove(&mut self, _name: &str) -> io::Result<()> {
        self.ask(Step::Remove)?;
        self.beside = Held::Nothing;
        Ok(())
    }

    fn make_folder(&mut self, _name: &str) -> io::Result<()> {
        Ok(())
    }

    fn settle(&mut self, _name: &str) -> io::Result<()> {
        Ok(())
    }
}

/// Prints how a store ends of which these steps are refused, and what stands then.
fn print_store<W: Write>(
    to: &mut W,
    alloc: Global,
    stood: Held,
    refused: &'static [Step],
) -> io::Result<()> {
    let shelf = Shelf {
        kept: stood,
        beside: Held::Nothing,
        refused,
    };
    let mut files = RealFiles::new(shelf, alloc);
    let stored = files.store("name", b"bytes");
    let faults = files.faults();
    let Shelf { kept, beside, .. } = files.into_inner();
    writeln!(
        to,
        "{stood:?} stands, {refused:?} refused: {stored:?}, {faults} faults, {kept:?} stands, beside it {beside:?}"
    )
}

/// The steps that are refused of one store after the other: each once, and the removal of the new file behind those that ask for it.
const REFUSED: [&[Step]; 7] = [
    &[],
    &[Step::Standing],
    &[Step::Create],
    &[Step::Fill],
    &[Step::Rename],
    &[Step::Fill, Step::Remove],
    &[Step::Rename, Step::Remove],
];

/// Prints what stands after stores of which some steps are refused.
pub(crate) fn print_stores<W: Write>(to: &mut W, alloc: Global) -> io::Result<()> {
    for stood in [Held::Nothing, Held::Old] {
        for refused in REFUSED {
            print_store(to, alloc, stood, refused)?;
        }
    }
    Ok(())
}
