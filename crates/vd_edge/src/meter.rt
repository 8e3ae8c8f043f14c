//! How many packets pass in one direction of a link, by its bytes.

ghost use Rattle.std.specs.Prelude.{◌≡◌};
ghost use Rattle.vd_edge.specs.Meters.{after_body, after_bytes, after_part, behind_record, body_of, counted, head_of, unused, whole};

/// What a link carries, by the second byte of its head.
#[derive(Clone, Copy, Debug, PartialEq, Eq)]
pub(crate) enum Carried {
    /// Packets behind a greeting.
    Plain,
    /// Records behind a hello, of which so many are still to come that carry no packet: the proof of the key, and the greeting.
    Sealed(u8),
}

/// What the next byte is part of.
#[derive(Clone, Copy, Debug, PartialEq, Eq)]
pub(crate) enum Part {
    /// The head of a link, whose first byte it is.
    First,
    /// The head of a link, whose version it is.
    Version,
    /// The head of a link, of which so many bytes are still to come.
    Head(u8),
    /// A packet or a record, whose tag it is.
    Tag,
    /// A packet or a record, by which its length is known.
    Count,
    /// A packet or a record, of which so many bytes are still to come.
    Body(u16),
}

/// How many packets have passed. Behind a greeting each has its tag, the number of its words, and four bytes a word. Behind a hello each
/// goes in a record: its tag, the number of its bytes, these and 32 more.
#[derive(Clone, Copy)]
pub(crate) struct Meter {
    packets: u64,
    carried: Carried,
    part: Part,
}

/// What a link carries whose head has this version, and how many bytes of that head are still to come.
fn head_of(version: u8) -> (Carried, u8)
    ensures { result ≡ head_of version }
{
    if version == 2 {
        (Carried::Sealed(2), 66)
    } else {
        (Carried::Plain, 34)
    }
}

/// How many bytes of a packet or a record follow this number.
fn body_of(carried: Carried, count: u8) -> u16
    ensures { result ≡ body_of carried count }
{
    match carried {
        Carried::Plain => 4 * u16::from(count),
        Carried::Sealed(_) => u16::from(count) + 32,
    }
}

impl Meter {
    /// No byte has passed so far.
    pub fn new() -> Meter
        ensures { result ≡ unused }
    {
        Meter {
            packets: 0,
            carried: Carried::Plain,
            part: Part::First,
        }
    }

    /// How many packets have passed whole.
    pub fn packets(self) -> u64
        ensures { result ≡ self.packets }
    {
        self.packets
    }

    /// The same with one packet more, as far as can be counted.
    fn counted(self) -> Meter
        ensures { result ≡ counted self.packets self.carried }
    {
        Meter {
            packets: self.packets.saturating_add(1),
            part: Part::Tag,
            ..self
        }
    }

    /// The same behind a whole record, where so many are still to come that carry no packet.
    fn behind_record(self, left: u8) -> Meter
        ensures { result ≡ behind_record self.packets self.carried left }
    {
        if left == 0 {
            self.counted()
        } else {
            Meter {
                carried: Carried::Sealed(left - 1),
                part: Part::Tag,
                ..self
            }
        }
    }

    /// The same behind a whole packet or record.
    fn whole(self) -> Meter
        ensures { result ≡ whole self.packets self.carried }
    {
        match self.carried {
            Carried::Plain => self.counted(),
            Carried::Sealed(left) => self.behind_record(left),
        }
    }

    /// The same where so many bytes of a packet or a record are still to come.
    fn after_body(self, left: u16) -> Meter
        ensures { result ≡ after_body self.packets self.carried left }
    {
        if left == 0 {
            self.whole()
        } else {
            Meter {
                part: Part::Body(left),
                ..self
            }
        }
    }

    /// The same behind one byte more.
    fn after(self, byte: u8) -> Meter
        ensures { result ≡ after_part self.packets self.carried self.part byte }
    {
        match self.part {
            Part::First => Meter {
                part: Part::Version,
                ..self
            },
            Part::Version => {
                let (carried, left) = head_of(byte);
                Meter {
                    carried,
                    part: Part::Head(left),
                    ..self
                }
            }
            Part::Head(left) => {
                let left = left.saturating_sub(1);
                let part = if left == 0 {
                    Part::Tag
                } else {
                    Part::Head(left)
                };
                Meter { part, ..self }
            }
            Part::Tag => Meter {
                part: Part::Count,
                ..self
            },
            Part::Count => self.after_body(body_of(self.carried, byte)),
            Part::Body(left) => self.after_body(left.saturating_sub(1)),
        }
    }

    /// Counts these bytes, which have passed.
    pub(crate) fn pass(&mut self, bytes: &[u8])
        ensures { self.new ≡ after_bytes self.old bytes.now }
    {
        for byte in bytes {
            *self = self.after(*byte);
        }
    }
}
