//! The items of dealt lists, as a file spells them.

ghost use Rattle.std.specs.Prelude.{◌≡◌, ◌++◌, List, ℕ, OnOk};
ghost use Rattle.vd_base_codec.specs.Reading.{Reading, Gives, field};
ghost use Rattle.vd_tape.specs.Text.{triple_text, pair_text};
ghost use Rattle.vd_tape.specs.Reading.{word_at, triple_at, pair_at};

use crate::deal_items::{PairItem, Triple};
use std::alloc::AllocError;
use vd_base::Bytes;
use vd_base_codec::{Cursor, Stopped, push_field};

/// What stands in a dealt list: words, each behind a space.
pub trait Item: Copy + Drop {
    ghost reading: { List ℕ → Reading Self };

    ghost text: { Self → List ℕ };

    /// Takes an item.
    fn read(cursor: &mut Cursor) -> Result<Self, Stopped>
        ensures { Gives result cursor.new (reading cursor.old) };

    /// Puts an item at the end.
    fn push(self, bytes: &mut Bytes) -> Result<(), AllocError>
        ensures { OnOk result (bytes.new ≡ bytes.old ++ text self) };
}

impl Item for u32 {
    ghost reading = { word_at };

    ghost text = { field };

    fn read(cursor: &mut Cursor) -> Result<u32, Stopped> {
        cursor.field(u32::MAX)
    }

    fn push(self, bytes: &mut Bytes) -> Result<(), AllocError> {
        push_field(bytes, u64::from(self))
    }
}

impl Item for Triple {
    ghost reading = { triple_at };

    ghost text = { triple_text };

    #[tactic(auto, unfolding(crate::specs::Reading::triple_at))]
    fn read(cursor: &mut Cursor) -> Result<Triple, Stopped> {
        let a = u32::read(cursor)?;
        let b = u32::read(cursor)?;
        let c = u32::read(cursor)?;
        Ok(Triple { a, b, c })
    }

    fn push(self, bytes: &mut Bytes) -> Result<(), AllocError> {
        self.a.push(bytes)?;
        self.b.push(bytes)?;
        self.c.push(bytes)
    }
}

impl Item for PairItem {
    ghost reading = { pair_at };

    ghost text = { pair_text };

    #[tactic(auto, unfolding(crate::specs::Reading::pair_at))]
    fn read(cursor: &mut Cursor) -> Result<PairItem, Stopped> {
        let s = u32::read(cursor)?;
        let x = u32::read(cursor)?;
        Ok(PairItem { s, x })
    }

    fn push(self, bytes: &mut Bytes) -> Result<(), AllocError> {
        self.s.push(bytes)?;
        self.x.push(bytes)
    }
}
