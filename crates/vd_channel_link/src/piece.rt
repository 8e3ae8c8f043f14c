//! What is left of the bytes of a record.

ghost use Rattle.std.specs.Prelude.{◌≡◌, ◌≤◌, ◌<◌, ◌↔◌, ◌++◌, [], IsTrue, length, take};

use std::marker::Model;

/// The bytes of a record that are not given yet.
#[derive(Drop)]
pub struct Piece {
    bytes: [u8; 128],
    given: usize,
    filled: usize,
}

impl Model for Piece {
    ghost use Rattle.std.specs.Prelude.{◌≤◌, ◌-◌, List, ℕ, take, drop};

    ghost Value = { List ℕ };

    ghost view = { λ piece. take (piece.filled - piece.given) (drop piece.given piece.bytes) };

    ghost invariant = { λ piece. (piece.given ≤ piece.filled) × (piece.filled ≤ 128) };
}

impl Piece {
    /// No bytes.
    pub fn none() -> Piece
        ensures { result ≡ [] }
    {
        Piece {
            bytes: [0; 128],
            given: 0,
            filled: 0,
        }
    }

    /// The first of these bytes.
    pub fn front(bytes: [u8; 128], count: usize) -> Piece
        requires { count ≤ 128 }
        ensures { result ≡ take count bytes }
    {
        Piece {
            bytes,
            given: 0,
            filled: count,
        }
    }

    /// Whether no bytes are left.
    pub fn is_empty(&self) -> bool
        ensures { IsTrue result ↔ (self.now ≡ []) }
    {
        self.given == self.filled
    }

    /// Gives the next bytes, and says how many: at least one where there is one and there is room for it.
    pub(crate) fn give(&mut self, into: &mut [u8]) -> usize
        ensures given { self.old ≡ take result into.new ++ self.new }
        ensures within { result ≤ length into.old }
        ensures few { result ≤ 128 }
        ensures same { length into.new ≡ length into.old }
        ensures some { 0 < length self.old → 0 < length into.old → 0 < result }
    {
        let left = &self.bytes[self.given..self.filled];
        let count = left.len().min(into.len());
        into[..count].copy_from_slice(&left[..count]);
        self.given += count;
        count
    }
}
