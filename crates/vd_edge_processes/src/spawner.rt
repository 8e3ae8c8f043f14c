ghost use Rattle.std.specs.Prelude.{◌≡◌, ◌<◌, [], length, IfSome};

use crate::running::Running;
use crate::turns::{first_failure, next_line};
use std::alloc::Global;
use std::marker::Model;
use std::process::{Processes, SystemProcess};
use std::time::Clock;
use vd_base::{CallFault, Items, Texts};
use vd_edge::{count_fault, fault_of, reason_of};
use vd_outside::{Line, Spawner};

/// The programs that a runtime starts. Contracts see the statuses that are known, and how often it has failed.
#[derive(Drop)]
pub struct RealSpawner<R: Processes<Started = SystemProcess> + Clock + Drop> {
    rt: R,
    alloc: Global,
    process: u32,
    children: Vec<Running>,
    statuses: Items<Option<u32>>,
    faults: u64,
    reason: Option<String>,
}

impl<R: Processes<Started = SystemProcess> + Clock + Drop> Model for RealSpawner<R> {
    ghost use Rattle.std.specs.Prelude.{◌≡◌, length, vec_len};
    ghost use Rattle.vd_edge_processes.specs.RealSpawner.{RealSpawnerState};

    ghost Value = { RealSpawnerState };

    ghost view = { λ spawner. record { statuses = spawner.statuses; faults = spawner.faults } };

    ghost invariant = { λ spawner. vec_len spawner.children ≡ length spawner.statuses };
}

impl<R: Processes<Started = SystemProcess> + Clock + Drop> RealSpawner<R> {
    /// The programs of this runtime, none of which was started, and which have not failed so far. The process that starts them has
    /// this number.
    pub fn new(rt: R, alloc: Global, process: u32) -> RealSpawner<R>
        ensures { result ≡ record { statuses = []; faults = 0 } }
    {
        RealSpawner {
            rt,
            alloc,
            process,
            children: Vec::new(alloc),
            statuses: Items::new(alloc),
            faults: 0,
            reason: None,
        }
    }

    /// Why a program could not be started, where that is so.
    pub fn reason(&self) -> Option<&str> {
        self.reason.as_deref()
    }

    /// The number of the child that most likely was the first to end with a fault, and its status. All children have a moment to end.
    pub fn first_failure(&mut self) -> Option<(usize, u32)>
        ensures found { IfSome result (λ found. found.0 < length self.new.statuses) }
        ensures same { self.new ≡ self.old }
    {
        first_failure(&self.rt, self.children.as_mut_slice())
    }
}

impl<R: Processes<Started = SystemProcess> + Clock + Drop> Spawner for RealSpawner<R> {
    ghost use Rattle.vd_edge_processes.specs.RealSpawner.{spawner_view};

    ghost view = { spawner_view };

    fn faults(&self) -> u64 {
        self.faults
    }

    #[tactic(auto, using(crate::proofs::Known::stays))]
    fn start(&mut self, program: &str, words: &Texts) -> Result<u32, CallFault> {
        let number = self.statuses.as_slice().len() as u32;
        self.children.reserve(1)?;
        match Running::start(&self.rt, self.alloc, self.process, program, words) {
            Ok(child) => {
                self.statuses.push(None)?;
                self.children.push_reserved(child);
                Ok(number)
            }
            Err(error) => {
                self.reason = reason_of(self.alloc, "start", program, &error);
                let fault = fault_of(&error);
                count_fault(&mut self.faults, fault);
                Err(fault)
            }
        }
    }

    fn line(&mut self, child: u32) -> Result<Option<Line>, CallFault> {
        match next_line(&self.rt, self.children.as_mut_slice(), child as usize) {
            Ok(line) => Ok(line),
            Err(fault) => {
                count_fault(&mut self.faults, fault);
                Err(fault)
            }
        }
    }

    #[tactic(auto, using(crate::proofs::Known::stays_at, crate::proofs::Known::is_put))]
    fn finish(&mut self, child: u32) -> Result<u32, CallFault> {
        let number = child as usize;
        match self.statuses.as_slice()[number] {
            Some(status) => Ok(status),
            None => match self.children[number].finish() {
                Ok(status) => {
                    self.statuses.set(number, Some(status));
                    Ok(status)
                }
                Err(fault) => {
                    count_fault(&mut self.faults, fault);
                    Err(fault)
                }
            },
        }
    }
}
