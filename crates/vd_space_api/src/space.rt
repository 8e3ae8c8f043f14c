//! The space of lists of protocols.

ghost use Rattle.std.specs.Prelude.{◌≡◌, ◌≤◌, IfOk, IsTrue, length, pos};
ghost use Rattle.vd_base.specs.Limits.{most_certificate_shifts};
ghost use Rattle.vd_space_prefix.specs.Tables.{AreTables};
ghost use Rattle.vd_space.specs.Bounds.{high, low};
ghost use Rattle.vd_space.specs.Costs.{cost};
ghost use Rattle.vd_space.specs.Labelled.{HasLabels};
ghost use Rattle.vd_space.specs.Reading.{problem_of};
ghost use Rattle.vd_space.specs.Usual.{usual};
ghost use Rattle.vd_space.specs.Validity.{is_valid};
ghost use Rattle.vd_space.specs.WellFormed.{AreProtocols, IsWellFormed};
ghost use Rattle.vd_space_api.specs.Places.{places_in};
ghost use Rattle.vd_space.specs.Cheapest.{IsAssignment};

use crate::places::{bound_of_prefix, high_of_prefix, is_valid_prefix};
use crate::space_shifts::usual;
use std::alloc::{AllocError, Global};
use std::marker::Model;
use vd_base::{Items, Proto};
use vd_constraints::Labels;
use vd_core::Program;
use vd_protocol::protocols;
use vd_search_tree::Shift;
use vd_space::Problem;
use vd_space_prefix::Tables;
use vd_space_tables::tables;

/// The lists of protocols for the slots of a program, with the labels of its slots.
#[derive(Drop)]
pub struct Space {
    problem: Problem,
    list: Items<Proto>,
}

impl Model for Space {
    ghost use Rattle.vd_space.specs.declared.problem.Problem.{Problem as Problems};
    ghost use Rattle.vd_space.specs.contracts.problem.Problem as problem_contract;
    ghost use Rattle.vd_space_api.specs.Places.{IsSpace as Holds};

    ghost Value = { Problems };

    ghost coded = { problem_contract.the_row.coded };

    ghost view = { λ space. space.problem };

    ghost invariant = { λ space. ∥ Holds space.problem space.list ∥₁ };
}

impl Space {
    /// The space of a program, with a label for each of its slots.
    pub fn of(alloc: Global, program: &Program, labels: &Labels) -> Result<Space, AllocError>
        requires { HasLabels program.now labels.now }
        ensures { IfOk result (λ space. space ≡ problem_of program.now labels.now) }
    {
        let hosts = program.form().labels.as_slice().len() as u8;
        let problem = Problem::of(alloc, program, labels)?;
        let list = protocols(alloc, hosts)?;
        Ok(Space { problem, list })
    }

    /// What the choice must know of the program.
    pub fn problem(&self) -> &Problem
        ensures same { result.now ≡ self.now }
        ensures well_formed { IsWellFormed self.now }
    {
        &self.problem
    }

    /// The protocols, in order.
    pub fn list(&self) -> &[Proto]
        ensures { AreProtocols self.now result.now }
    {
        self.list.as_slice()
    }

    /// How many slots there are.
    pub fn slots(&self) -> u32
        ensures { result ≡ length self.now.slots }
    {
        self.problem().slots.as_slice().len() as u32
    }

    /// How many uses there are.
    pub fn uses(&self) -> u32
        ensures { result ≡ length self.now.uses }
    {
        self.problem().uses.as_slice().len() as u32
    }

    /// Whether a list of protocols for the first slots is valid. Of the slots behind it only that each has a candidate is asked.
    pub fn prefix_valid(&self, prefix: &[Proto]) -> bool
        ensures { result ≡ is_valid self.now (places_in self.now prefix.now) }
    {
        is_valid_prefix(self.problem(), self.list(), prefix)
    }

    /// Whether a list has a protocol for each slot and is valid.
    pub fn valid(&self, list: &[Proto]) -> bool
        ensures sound { IsTrue result → IsAssignment self.now list.now }
        ensures complete { IsAssignment self.now list.now → IsTrue result }
    {
        let slots = self.problem().slots.as_slice();
        list.len() == slots.len() && self.prefix_valid(list)
    }

    /// The bound of a valid prefix: the sum of the least that each term can cost over the candidates of the slots behind it.
    pub fn lower_bound(&self, prefix: &[Proto]) -> u64
        requires { IsTrue (is_valid self.now (places_in self.now prefix.now)) }
        ensures { pos result ≡ low self.now (places_in self.now prefix.now) }
    {
        bound_of_prefix(self.problem(), self.list(), prefix)
    }

    /// The cost of a valid list.
    pub fn cost(&self, list: &[Proto]) -> u64
        requires { IsAssignment self.now list.now }
        ensures { pos result ≡ cost self.now (places_in self.now list.now) }
    {
        bound_of_prefix(self.problem(), self.list(), list)
    }

    /// The usual shifts.
    pub fn usual(&self, alloc: Global) -> Result<Items<Shift>, AllocError>
        ensures usual { IfOk result (λ shifts. shifts ≡ usual self.now) }
        ensures few { IfOk result (λ shifts. length shifts ≤ most_certificate_shifts) }
    {
        usual(alloc, self.problem())
    }

    /// The terms after shifts, in tables: by them the bound of a prefix grows with each choice.
    pub fn terms(&self, alloc: Global, shifts: Items<Shift>) -> Result<Tables, AllocError>
        requires { length shifts ≤ most_certificate_shifts }
        ensures tables { IfOk result (AreTables self.now) }
        ensures shifts { IfOk result (λ terms. terms.shifts ≡ shifts) }
    {
        tables(alloc, self.problem(), shifts)
    }

    /// The bound of a valid prefix under the shifts of these terms: the greater of the sums of least terms without and with
    /// them.
    pub fn high(&self, prefix: &[Proto], terms: &Tables) -> i64
        requires valid { IsTrue (is_valid self.now (places_in self.now prefix.now)) }
        requires terms { AreTables self.now terms.now }
        ensures { result ≡ high self.now terms.now.shifts (places_in self.now prefix.now) }
    {
        high_of_prefix(self.problem(), self.list(), terms, prefix)
    }
}
