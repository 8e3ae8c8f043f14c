ghost use Rattle.std.specs.Prelude.{◌≡◌, ◌<◌, ◌+◌, ◌-◌, ◌^◌, [], OnOk, IfOk, length, replicate, slice_index};
ghost use Rattle.vd_duet.specs.Builder.{added, marked, reserved, HasRoom, register_bound};

use std::alloc::{AllocError, Global};
use std::marker::Model;
use vd_base::{HostId, Items};
use vd_execution::{Act, Line, Reg};

/// Joint code that is being made: its lines so far, and the next free register of each host.
#[derive(Drop)]
pub struct Duet {
    lines: Items<Line>,
    next: Items<u32>,
}

impl Model for Duet {
    ghost use Rattle.vd_duet.specs.Builder.{Builder};
    ghost use Rattle.std.specs.Coded.{codes};

    ghost Value = { Builder };

    ghost view = { λ duet. record { lines = duet.lines; next = duet.next } };
}

impl Duet {
    /// No lines yet, of so many hosts, which have all their registers.
    #[tactic(auto, using(crate::proofs::Rooms::all_room))]
    pub fn new(alloc: Global, hosts: u8) -> Result<Duet, AllocError>
        ensures exact { IfOk result (λ duet. duet ≡ record { lines = []; next = replicate hosts 0 }) }
        ensures room { IfOk result (λ duet. HasRoom (register_bound - 1) duet.next) }
    {
        let mut next = Items::new(alloc);
        for _ in 0..hosts {
            next.push(0)?;
        }
        Ok(Duet {
            lines: Items::new(alloc),
            next,
        })
    }

    /// Puts an act at the end.
    pub fn add(&mut self, act: Act) -> Result<(), AllocError>
        ensures { OnOk result (self.new ≡ added act self.old) }
    {
        self.lines.push(Line::Act(act))
    }

    /// Puts a line at the end: a mark of a block at one host.
    pub fn mark(&mut self, line: Line) -> Result<(), AllocError>
        ensures { OnOk result (self.new ≡ marked line self.old) }
    {
        self.lines.push(line)
    }

    /// The first of `count` fresh registers of a host.
    pub fn reserve(&mut self, host: HostId, count: u32) -> Reg
        requires known { host.0 < length self.old.next }
        requires room { slice_index self.old.next host.0 + count < 2 ^ 32 }
        ensures { (result, self.new) ≡ reserved host count self.old }
    {
        let at = usize::from(host.0);
        let first = self.next.as_slice()[at];
        self.next.set(at, first + count);
        Reg(first)
    }

    /// The lines so far.
    pub fn lines(&self) -> &[Line]
        ensures { result.now ≡ self.now.lines }
    {
        self.lines.as_slice()
    }

    /// The lines, given up to the caller.
    pub fn into_lines(self) -> Items<Line>
        ensures { result ≡ self.lines }
    {
        self.lines
    }

    /// The next free register of each host.
    pub fn next(&self) -> &[u32]
        ensures { result.now ≡ self.now.next }
    {
        self.next.as_slice()
    }

    /// The allocator of the code.
    pub fn alloc(&self) -> Global {
        *self.next.as_vec().allocator()
    }
}
