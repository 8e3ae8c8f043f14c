ghost use Rattle.std.specs.Prelude.{◌≡◌};
ghost use Rattle.vd_lsp.specs.States as states;

use std::alloc::Global;
use vd_base::Items;
use vd_lsp_messages::Document;

/// Where a server stands in its life.
#[derive(Clone, Copy)]
pub enum Phase {
    /// It was not initialized.
    Fresh,
    Running,
    /// It was asked to shut down.
    Ended,
}

/// What a server keeps from one message to the next.
#[derive(Drop)]
pub struct Server {
    pub phase: Phase,
    /// The documents that are open, the last changed one last.
    pub documents: Items<Document>,
    /// Whether the faults of the last document are still to be published.
    pub due: bool,
}

impl Server {
    /// A server that was not initialized.
    pub fn new(alloc: Global) -> Server
        ensures { result ≡ states.fresh }
    {
        Server {
            phase: Phase::Fresh,
            documents: Items::new(alloc),
            due: false,
        }
    }
}
