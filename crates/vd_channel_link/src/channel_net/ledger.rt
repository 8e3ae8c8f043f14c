//! What a net keeps of the links that it gave.

ghost use Rattle.std.specs.Prelude.{◌≡◌};
ghost use Rattle.vd_channel_link.specs.Ledgers.{has_sent, nothing_given, with_given, with_returned};

/// How many links that were given are out, and whether a link came back over which a record behind the greeting was begun.
#[derive(Drop)]
pub struct Ledger {
    out: u64,
    sent: bool,
}

impl Ledger {
    /// No link was given.
    pub fn new() -> Ledger
        ensures { result ≡ nothing_given }
    {
        Ledger {
            out: 0,
            sent: false,
        }
    }

    /// Notes that a link is given.
    pub fn gives(&mut self)
        ensures { self.new ≡ with_given self.old }
    {
        self.out = self.out.saturating_add(1);
    }

    /// Notes that a link came back, and whether a record behind the greeting was begun over it.
    pub(crate) fn takes_back(&mut self, sent: bool)
        ensures { self.new ≡ with_returned sent self.old }
    {
        self.out = self.out.saturating_sub(1);
        self.sent |= sent;
    }

    /// Whether more than greetings may have gone out: a link is out, or one came back over which a record behind the greeting was begun.
    pub fn has_sent(&self) -> bool
        ensures { result ≡ has_sent self.now }
    {
        self.sent || self.out > 0
    }
}
