ghost use Rattle.std.specs.Prelude.{◌≡◌, ◌<◌, None, Some, drop, length, false, nat_lt};
ghost use Rattle.vd_fakes.specs.MemSpawner.{FailsAsListed, listed_spawner_view, no_child_left, with_children};
ghost use Rattle.vd_outside.specs.Spawner.{Finishes, ReadsLine, Starts, next_child};

use crate::Failures;
use crate::starting::start_call;
use std::alloc::Global;
use std::marker::Model;
use vd_base::{CallFault, Items, Texts};
use vd_outside::{Child, Line, Spawner, SpawnerCall};

/// A spawner in memory that starts the children that it holds in their order. It fails at a start where none is left, and
/// at the calls whose numbers it is given.
#[derive(Drop)]
pub struct MemSpawner {
    alloc: Global,
    children: Vec<Child>,
    waiting: Items<Child>,
    asked: Items<SpawnerCall>,
    failures: Failures,
}

impl Model for MemSpawner {
    ghost use Rattle.vd_fakes.specs.MemSpawner.{MemSpawnerState};

    ghost Value = { MemSpawnerState };

    ghost view = { λ spawner. record { children = spawner.children.items; waiting = spawner.waiting; asked = spawner.asked; failures = spawner.failures } };
}

impl MemSpawner {
    /// A spawner that will start these children, and fails at the calls with these numbers.
    pub fn new(alloc: Global, waiting: Items<Child>, failing: Items<u64>) -> MemSpawner
        ensures { result ≡ with_children waiting failing }
    {
        MemSpawner {
            alloc,
            children: Vec::new(alloc),
            waiting,
            asked: Items::new(alloc),
            failures: Failures::new(failing),
        }
    }

    /// The children that were started, with the lines that are left of each.
    pub fn children(&self) -> &[Child]
        ensures { result.now ≡ self.now.children }
    {
        self.children.as_slice()
    }

    /// The calls that were asked.
    pub fn asked(&self) -> &[SpawnerCall]
        ensures { result.now ≡ self.now.asked }
    {
        self.asked.as_slice()
    }

    // Whether a child waits.
    fn has_next(&self) -> bool
        ensures { result ≡ nat_lt 0 (length self.now.waiting) }
    {
        !self.waiting.is_empty()
    }
}

/// Takes the first child that waits.
#[tactic(auto, using(crate::proofs::Children::first_is_next))]
fn take_child(waiting: &mut Items<Child>) -> Child
    requires { 0 < length waiting.old }
    ensures child { next_child waiting.old None ≡ Some result }
    ensures rest { waiting.new ≡ drop 1 waiting.old }
{
    waiting.remove(0)
}

impl Spawner for MemSpawner {
    ghost view = { listed_spawner_view };

    fn faults(&self) -> u64 {
        self.failures.faults
    }

    #[tactic(auto, using(crate::proofs::Children::status_stays))]
    fn start(&mut self, program: &str, words: &Texts) -> Result<u32, CallFault>
        requires { (listed_spawner_view self.old).given < u32.MAX }
        ensures start { Starts program.now words.now (listed_spawner_view self.old) (listed_spawner_view self.new) result }
        ensures listed { FailsAsListed self.old.failures (no_child_left self.old) result self.new.failures }
    {
        let fails = self.failures.next_fails();
        let call = start_call(self.alloc, program, words)?;
        self.children.reserve(1)?;
        self.asked.push(call)?;
        if fails || !self.has_next() {
            self.failures.count_fault();
            return Err(CallFault::Failed);
        }
        let number = self.children.len() as u32;
        let child = take_child(&mut self.waiting);
        self.children.push_reserved(child);
        Ok(number)
    }

    #[tactic(auto, using(crate::proofs::Children::same_status))]
    fn line(&mut self, child: u32) -> Result<Option<Line>, CallFault>
        requires { child < (listed_spawner_view self.old).given }
        ensures line { ReadsLine child (listed_spawner_view self.old) (listed_spawner_view self.new) result }
        ensures listed { FailsAsListed self.old.failures false result self.new.failures }
    {
        let fails = self.failures.next_fails();
        self.asked.push(SpawnerCall::Line(child))?;
        if fails {
            self.failures.count_fault();
            return Err(CallFault::Failed);
        }
        Ok(self.children[child as usize].next_line())
    }

    fn finish(&mut self, child: u32) -> Result<u32, CallFault>
        requires { child < (listed_spawner_view self.old).given }
        ensures finish { Finishes child (listed_spawner_view self.old) (listed_spawner_view self.new) result }
        ensures listed { FailsAsListed self.old.failures false result self.new.failures }
    {
        let fails = self.failures.next_fails();
        self.asked.push(SpawnerCall::Finish(child))?;
        if fails {
            self.failures.count_fault();
            return Err(CallFault::Failed);
        }
        Ok(self.children[child as usize].status)
    }
}
