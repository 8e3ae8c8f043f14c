//! A net that seals its links by what one run seals by.

ghost use Rattle.std.specs.Prelude.{◌≡◌};
ghost use Rattle.vd_channel_link.specs.Outgoing.{HasSealed};

use crate::channel_net::run_link::{RunLink, SealedRun, as_run_link};
use crate::channel_net::sealed_net::SealedNet;
use std::marker::PhantomData;
use vd_base::CallFault;
use vd_outside::Net;

/// A net that seals its links by what one run seals by. From the begin of the run on only what is sealed by it went out over the links
/// of the net below. It is made where the run is played, since each call that a borrow is passed to borrows again.
#[derive(Drop)]
pub struct RunNet<'a, R: SealedRun, N: Net + Drop> {
    pub net: &'a mut SealedNet<N>,
    pub run: PhantomData<R>,
    pub ghost held: { net.ghost_name ≡ R.held },
    pub ghost sealed: { ∥ HasSealed R.by R.start net.now.seal (N.view net.now.net) ∥₁ },
}

impl<'a, R: SealedRun, N: Net + Drop> Net for RunNet<'a, R, N> {
    type Link = RunLink<R, N::Link>;

    ghost use Rattle.std.specs.Prelude.{⊤};
    ghost use Rattle.vd_channel_link.specs.Views.{sealing};

    ghost view = { λ run. sealing (N.view run.net.now.net) run.net.now.faults };

    // Who a peer is, is known by its proof.
    ghost greets = { λ link greeting. ⊤ };

    ghost at_hand = { λ link count. ⊤ };

    fn faults(&self) -> u64 {
        self.net.faults()
    }

    fn wait_at_most(&mut self, seconds: Option<u32>) {
        self.net.wait_at_most(seconds);
    }

    fn listen(&mut self, address: &str) -> Result<u32, CallFault> {
        self.net.listen(address)
    }

    fn accept(&mut self, listener: u32, greeting: &[u8]) -> Result<RunLink<R, N::Link>, CallFault> {
        match self.net.accept(listener, greeting) {
            Ok(link) => Ok(as_run_link(link)),
            Err(fault) => Err(fault),
        }
    }

    // A link is given when its peer has proved who it is.
    fn next_comer(
        &mut self,
        listener: u32,
        front: &[u8],
        _count: u32,
    ) -> Result<Option<RunLink<R, N::Link>>, CallFault> {
        match self.accept(listener, front) {
            Ok(link) => Ok(Some(link)),
            Err(fault) => Err(fault),
        }
    }

    fn has_come(&mut self, _link: &mut RunLink<R, N::Link>, _count: u32) -> bool {
        true
    }

    fn await_bytes(&mut self, _link: &mut RunLink<R, N::Link>, _count: u32) {}

    fn connect(&mut self, address: &str) -> Result<RunLink<R, N::Link>, CallFault> {
        match self.net.connect(address) {
            Ok(link) => Ok(as_run_link(link)),
            Err(fault) => Err(fault),
        }
    }

    fn hang_up(&mut self, link: RunLink<R, N::Link>) {
        let RunLink { link, .. } = link;
        self.net.hang_up(link);
    }
}
