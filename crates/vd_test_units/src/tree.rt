//! A tree of all lists of so many bits, on which a search and a checker run.
ghost use Rattle.std.specs.Prelude.{◌≡◌, ◌<◌, ◌≤◌, length, take};
ghost use Rattle.vd_test_units.specs.Words.{words};

use std::alloc::{AllocError, Global};
use vd_base::Items;
use vd_search_tree::Prefixes;

/// A list of bits that grows within its room.
#[derive(Drop)]
pub struct Words {
    room: Vec<u32>,
    depth: usize,
    ghost short: { depth ≤ length room.items },
    ghost few: { length room.items < 4294967296 },
}

impl Prefixes for Words {
    ghost tree = { λ w. words (length w.room.items) };

    ghost path = { λ w. take w.depth w.room.items };

    fn slots(&self) -> u32 {
        self.room.len() as u32
    }

    fn choices(&self) -> u32 {
        2
    }

    fn depth(&self) -> u32 {
        self.depth as u32
    }

    fn is_valid(&self) -> bool {
        for choice in &self.room[..self.depth] {
            if *choice >= 2 {
                return false;
            }
        }
        true
    }

    fn bound(&self) -> i64 {
        0
    }

    fn list(&self, alloc: Global) -> Result<Items<u32>, AllocError> {
        Items::from_slice(alloc, &self.room[..self.depth])
    }

    fn enter(&mut self, choice: u32) {
        self.room[self.depth] = choice;
        self.depth += 1;
    }

    fn leave(&mut self) {
        self.depth -= 1;
    }
}

impl Words {
    /// No bits yet, with room for as many as the list has.
    pub(crate) fn new(room: Vec<u32>) -> Words
        requires { length room.items < 4294967296 }
        ensures room { result.room.items ≡ room.items }
        ensures depth { result.depth ≡ 0 }
    {
        Words { room, depth: 0 }
    }
}
