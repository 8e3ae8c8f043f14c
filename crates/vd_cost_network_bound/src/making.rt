//! The making of what does not depend on shifts.

ghost use Rattle.std.specs.Prelude.{◌≡◌, ◌<◌, ◌++◌, ◌∷◌, ℕ, [], IfOk, OnOk, if◌then◌else◌, length, map, slice_index_or};
ghost use Rattle.vd_cost_network_bound.specs.Bounds.{IsBoundOf};
ghost use Rattle.vd_cost_network_bound.specs.Least.{passing};
ghost use Rattle.vd_space.specs.WellFormed.{IsWellFormed};

use crate::made::NetworkBound;
use crate::values::point_values;
use std::alloc::{AllocError, Global};
use vd_base::Items;
use vd_cost_network_tables::{all_arcs, settings, switch_tables};
use vd_space::Problem;
use vd_space_tables::{all_protocols, candidates};

/// Puts the setting at the end, where the test passes.
fn push_if(settings: &mut Items<u32>, setting: u32, test: bool) -> Result<(), AllocError>
    ensures { OnOk result (settings.new ≡ settings.old ++ (if test then setting ∷ [] else [])) }
{
    if test { settings.push(setting) } else { Ok(()) }
}

/// The settings that pass.
fn passing(alloc: Global, tests: &[bool]) -> Result<Items<u32>, AllocError>
    requires { length tests.now < 4294967296 }
    ensures { IfOk result (λ settings. settings ≡ passing tests.now) }
{
    let mut settings = Items::new(alloc);
    for setting in 0..tests.len() {
        push_if(&mut settings, setting as u32, tests[setting])?;
    }
    Ok(settings)
}

/// Of each point the settings that pass.
fn all_passing(alloc: Global, settings: &[Items<bool>]) -> Result<Items<Items<u32>>, AllocError>
    requires { (point : ℕ) → length (slice_index_or settings.now point []) < 4294967296 }
    ensures { IfOk result (λ free. free ≡ map passing settings.now) }
{
    let mut free = Items::new(alloc);
    for point in 0..settings.len() {
        free.push(passing(alloc, settings[point].as_slice())?)?;
    }
    Ok(free)
}

impl NetworkBound {
    /// What the bounds of a problem's prefixes are made of.
    pub fn new(alloc: Global, problem: &Problem) -> Result<NetworkBound, AllocError>
        requires { IsWellFormed problem.now }
        ensures { IfOk result (IsBoundOf problem.now) }
    {
        let list = all_protocols(alloc, problem)?;
        let candidates = candidates(alloc, problem, list.as_slice())?;
        let switches = switch_tables(alloc, problem, list.as_slice(), candidates.as_slice())?;
        let arcs = all_arcs(alloc, problem, list.as_slice(), switches.as_slice())?;
        let settings = settings(alloc, candidates, switches.as_slice().len())?;
        let free = all_passing(alloc, settings.as_slice())?;
        let values = point_values(alloc, problem, list.as_slice(), switches.as_slice())?;
        Ok(NetworkBound {
            list,
            switches,
            arcs,
            free,
            values,
        })
    }
}
