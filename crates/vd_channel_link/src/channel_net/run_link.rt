//! By what one run seals, and the links that it gives.

ghost use Rattle.std.specs.Prelude.{◌≡◌, ℕ};
ghost use Rattle.vd_outside.specs.Net.{NetView};
ghost use Rattle.vd_channel_link.specs.Outgoing.{Sealer, SealsSession, nobody, nothing};

use crate::SealedLink;
use std::marker::{Brand, PhantomData};
use vd_base::Failed;
use vd_outside::Link;

/// One run of a host that seals its links. Only clauses read it: by what the run seals, the net over which it began, and the borrow of
/// the net that seals.
pub trait SealedRun {
    /// By what all links of the run are sealed.
    ghost by: { Sealer };

    /// What the net below told when the run began.
    ghost start: { NetView };

    /// The name of the borrow of the net that seals.
    ghost held: { ℕ };
}

impl SealedRun for Brand {
    ghost by = { nobody };

    ghost start = { nothing };

    ghost held = { 0 };
}

/// A link that a run gave. Whatever is done with it, what goes out over the link below is sealed by what the run seals by.
#[derive(Drop)]
pub struct RunLink<R: SealedRun, L: Link + Drop> {
    pub link: SealedLink<L>,
    run: PhantomData<R>,
    pub ghost sealed: { ∥ SealsSession R.by R.start link.session (L.view link.link) ∥₁ },
}

impl<R: SealedRun, L: Link + Drop> Link for RunLink<R, L> {
    ghost view = { λ run. ⟦<SealedLink<L> as Link>⟧.view run.link };

    fn faults(&self) -> u64 {
        self.link.faults()
    }

    fn send(&mut self, bytes: &[u8]) -> Result<u32, Failed> {
        self.link.send(bytes)
    }

    fn receive(&mut self, into: &mut [u8]) -> Result<u32, Failed> {
        self.link.receive(into)
    }
}

/// A link as one of the run.
pub(crate) fn as_run_link<R: SealedRun, L: Link + Drop>(link: SealedLink<L>) -> RunLink<R, L>
    requires { ∥ SealsSession R.by R.start link.session (L.view link.link) ∥₁ }
    ensures { result.link ≡ link }
{
    RunLink {
        link,
        run: PhantomData,
    }
}
