//! The rules that have to be visited.

ghost use Rattle.std.specs.Prelude.{◌≡◌, ℕ, ◌+◌, ◌^◌, ◌<◌, ◌≤◌, [], All, IfOk, IsTrue, MatchOption, OnOk, false, length, slice_set};
ghost use Rattle.std.specs.VecDeque.{deque_len};

use std::alloc::{AllocError, Global};
use std::collections::VecDeque;

/// The rules that have to be visited, each once, in the order in which they are to be visited.
#[derive(Drop)]
pub(crate) struct Waiting {
    /// Whether a rule is in the queue.
    flags: Vec<bool>,
    queue: VecDeque<u32>,
}

impl Waiting {
    ghost use Rattle.vd_solver.specs.Visits.{IsQueue, IsWaiting, AddsRules, TakesRule};

    /// All of so many rules.
    pub(crate) fn all(alloc: Global, count: u32) -> Result<Waiting, AllocError>
        ensures count { IfOk result (λ waiting. length waiting.flags.items ≡ count) }
        ensures queue { IfOk result IsQueue }
        ensures all { IfOk result (λ waiting. (rule : ℕ) → rule < count → IsWaiting waiting rule) }
    {
        let flags = vec![in alloc; true; count as usize]?;
        let mut queue = VecDeque::with_capacity(alloc, count as usize)?;
        for rule in 0..count {
            queue.push_back(rule)?;
        }
        Ok(Waiting { flags, queue })
    }

    /// Takes the rule that is to be visited next.
    pub(crate) fn take(&mut self) -> Option<u32>
        requires { IsQueue self.old }
        ensures { MatchOption result (self.old.queue.items ≡ []) (λ rule. TakesRule self.old rule self.new) }
    {
        let rule = self.queue.pop_front()?;
        self.flags[rule as usize] = false;
        Some(rule)
    }

    /// Has these rules visited, where they do not wait already.
    pub(crate) fn add(&mut self, rules: &[u32]) -> Result<(), AllocError>
        requires queue { IsQueue self.old }
        requires rules { All (λ rule. rule < length self.old.flags.items) rules.now }
        ensures { OnOk result (AddsRules self.old rules.now self.new) }
    {
        for rule in rules {
            if !self.flags[*rule as usize] {
                self.queue.push_back(*rule)?;
                self.flags[*rule as usize] = true;
            }
        }
        Ok(())
    }
}
