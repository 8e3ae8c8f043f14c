//! What one host sends to another.

ghost use Rattle.std.specs.Prelude.{◌≡◌, ◌++◌, ◌∷◌, [], All, OnOk, OnErr, slice_get, IfSome, ◌+◌, ◌-◌, ◌^◌, ◌<◌, ◌≤◌, length, take, drop, vec_capacity};
ghost use Rattle.vd_execution.specs.Step.{words_in};
ghost use Rattle.vd_execution.specs.World.{words_of};
ghost use Rattle.vd_machine.specs.Machines.{held};
ghost use Rattle.vd_world.specs.Links.{IsPlace, begin};

use std::alloc::{AllocError, Global};
use std::marker::Model;
use vd_execution::Reg;

/// All packets that were ever sent from one host to another, in order. The words of all of them stand in one list.
#[derive(Drop)]
pub(crate) struct Link {
    words: Vec<u32>,
    /// Where each packet ends among the words, as long as 32 bits can tell it.
    ends: Vec<u32>,
    /// Where each later packet ends.
    far_ends: Vec<usize>,
}

impl Model for Link {
    ghost use Rattle.std.specs.Prelude.{ℕ, List, length, ◌++◌};
    ghost use Rattle.vd_world.specs.Links.{cut, Rises};

    ghost Value = { List (List ℕ) };

    ghost view = { λ l. cut 0 (l.ends.items ++ l.far_ends.items) l.words.items };

    ghost invariant = { λ l. Rises 0 (l.ends.items ++ l.far_ends.items) (length l.words.items) };
}

/// Where the packet at a place ends, if so many were sent.
fn end_of(near: &[u32], far: &[usize], place: usize) -> Option<usize>
    ensures { result ≡ slice_get (near.now ++ far.now) place }
{
    match near.get(place) {
        Some(end) => Some(*end as usize),
        None => far.get(place - near.len()).copied(),
    }
}

/// Where the packet at a place begins.
fn start_of(near: &[u32], far: &[usize], place: usize) -> usize
    ensures { result ≡ begin 0 (near.now ++ far.now) place }
{
    if place == 0 {
        return 0;
    }
    end_of(near, far, place - 1).unwrap_or(0)
}

fn between(words: &[u32], start: usize, end: usize) -> &[u32]
    requires order { start ≤ end }
    requires within { end ≤ length words.now }
    ensures { result.now ≡ take (end - start) (drop start words.now) }
{
    &words[start..end]
}

/// The words of registers, at the end of words that have room for them.
fn push_each(words: &mut Vec<u32>, registers: &[u32], from: &[Reg])
    requires within { All (λ r. r.0 < length registers.now) from.now }
    requires room { length words.old.items + length from.now ≤ vec_capacity words.old }
    ensures { words.new.items ≡ words.old.items ++ words_in (held registers.now) from.now }
{
    for register in from {
        words.push_reserved(registers[register.0 as usize]);
    }
}

/// One more end, behind all others. Out of memory changes nothing.
fn push_end(near: &mut Vec<u32>, far: &mut Vec<usize>, end: usize) -> Result<(), AllocError>
    ensures ok { OnOk result (near.new.items ++ far.new.items ≡ (near.old.items ++ far.old.items) ++ end ∷ []) }
    ensures err { OnErr result (near.new.items ++ far.new.items ≡ near.old.items ++ far.old.items) }
{
    if far.is_empty() && end <= u32::MAX as usize {
        near.push(end as u32)?;
    } else {
        far.push(end)?;
    }
    Ok(())
}

impl Link {
    /// Nothing was sent.
    pub fn new(alloc: Global) -> Link
        ensures { result ≡ [] }
    {
        Link {
            words: Vec::new(alloc),
            ends: Vec::new(alloc),
            far_ends: Vec::new(alloc),
        }
    }

    /// One more packet, of the words of registers, at the end. Out of memory changes nothing.
    pub(crate) fn send_registers(
        &mut self,
        registers: &[u32],
        from: &[Reg],
    ) -> Result<(), AllocError>
        requires { All (λ r. r.0 < length registers.now) from.now }
        ensures ok { OnOk result (self.new ≡ self.old ++ words_in (held registers.now) from.now ∷ []) }
        ensures err { OnErr result (self.new ≡ self.old) }
    {
        self.words.reserve(from.len())?;
        let end = self.words.len() + from.len();
        push_end(&mut self.ends, &mut self.far_ends, end)?;
        push_each(&mut self.words, registers, from);
        Ok(())
    }

    /// The packet at a place, if so many were sent.
    pub fn packet(&self, place: usize) -> Option<&[u32]>
        ensures packet { IsPlace result (slice_get self.now place) }
        ensures room { IfSome result (λ _. place + 1 < 2 ^ 64) }
    {
        match end_of(&self.ends, &self.far_ends, place) {
            None => None,
            Some(end) => {
                let start = start_of(&self.ends, &self.far_ends, place);
                Some(between(&self.words, start, end))
            }
        }
    }

    /// How many packets were sent.
    pub fn count(&self) -> usize
        ensures { result ≡ length self.now }
    {
        self.ends.len() + self.far_ends.len()
    }

    /// The words of all packets.
    pub fn words(&self) -> &[u32]
        ensures { result.now ≡ words_of self.now }
    {
        &self.words
    }
}
