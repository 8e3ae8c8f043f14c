//! What the steps of a program ask of the labels around them.

ghost use Rattle.std.specs.Prelude.{◌≡◌, IfOk, OnOk};
ghost use Rattle.vd_constraints.specs.Rules.{with_branch, with_declassified, with_endorsed, with_flow, with_input, with_label, with_output};
ghost use Rattle.vd_constraints.specs.Systems.{AreOfStep, IsFormulaOf, IsLabelOf, IsPlaceOf, IsSmall};
ghost use Rattle.vd_constraints.specs.declared.system.Place.TheVariants as place;

use crate::system::{Bound, Check, Lower, Part, Place, System};
use std::alloc::AllocError;
use vd_formula::{Formula, Label};

impl System {
    /// What is at the one place may go to the other.
    pub(crate) fn add_flow(&mut self, from: Place, to: Place) -> Result<(), AllocError>
        requires from { IsPlaceOf self.old from }
        requires to { IsPlaceOf self.old to }
        requires small { IsSmall (with_flow from to self.old) }
        ensures { OnOk result (self.new ≡ with_flow from to self.old) }
    {
        self.add_rules(&[
            Lower::new(Part::conf(to), Bound::Same(Part::conf(from))),
            Lower::new(Part::integ(from), Bound::Same(Part::integ(to))),
        ])
    }

    /// Adds the block of an If, and gives its place.
    pub(crate) fn add_branch(&mut self, guard: Place, pc: Place) -> Result<Place, AllocError>
        requires guard { IsPlaceOf self.old guard }
        requires pc { IsPlaceOf self.old pc }
        requires small { IsSmall (with_branch guard pc self.old) }
        ensures place { IfOk result (λ branch. branch ≡ place.Block self.old.blocks) }
        ensures added { OnOk result (self.new ≡ with_branch guard pc self.old) }
    {
        let branch = Place::Block(self.add_block());
        self.add_flow(guard, branch)?;
        self.add_flow(pc, branch)?;
        Ok(branch)
    }

    /// An input from a host with this label, in the block whose label is at `pc`.
    pub(crate) fn add_input(
        &mut self,
        host: Label,
        pc: Place,
        x: Place,
        offset: u32,
    ) -> Result<(), AllocError>
        requires host { IsLabelOf self.old host }
        requires pc { IsPlaceOf self.old pc }
        requires x { IsPlaceOf self.old x }
        requires small { IsSmall (with_input host pc x offset self.old) }
        ensures { OnOk result (self.new ≡ with_input host pc x offset self.old) }
    {
        self.add_rules(&[
            Lower::new(Part::conf(x), Bound::Constant(host.conf)),
            Lower::new(Part::integ(pc), Bound::Constant(host.integ)),
        ])?;
        self.add_checks(&[
            Check::new(host.integ, Part::integ(x), offset),
            Check::new(host.conf, Part::conf(pc), offset),
        ])
    }

    /// What is at `y`, with the confidentiality `to`.
    pub(crate) fn add_declassified(
        &mut self,
        to: Formula,
        pc: Place,
        x: Place,
        y: Place,
    ) -> Result<(), AllocError>
        requires to { IsFormulaOf self.old to }
        requires places { AreOfStep self.old pc x y }
        requires small { IsSmall (with_declassified to pc x y self.old) }
        ensures { OnOk result (self.new ≡ with_declassified to pc x y self.old) }
    {
        self.add_rules(&[
            Lower::new(Part::conf(x), Bound::Constant(to)),
            Lower::new(Part::integ(y), Bound::Same(Part::integ(x))),
            Lower::new(Part::integ(y), Bound::Given(to, Part::conf(y))),
            Lower::new(Part::conf(x), Bound::Same(Part::conf(pc))),
            Lower::new(Part::integ(pc), Bound::Same(Part::integ(x))),
            Lower::new(Part::integ(pc), Bound::Given(to, Part::conf(y))),
        ])
    }

    /// What is at `y`, with the integrity `to`.
    pub(crate) fn add_endorsed(
        &mut self,
        to: Formula,
        pc: Place,
        x: Place,
        y: Place,
        offset: u32,
    ) -> Result<(), AllocError>
        requires to { IsFormulaOf self.old to }
        requires places { AreOfStep self.old pc x y }
        requires small { IsSmall (with_endorsed to pc x y offset self.old) }
        ensures { OnOk result (self.new ≡ with_endorsed to pc x y offset self.old) }
    {
        self.add_rules(&[
            Lower::new(Part::conf(x), Bound::Same(Part::conf(y))),
            Lower::new(Part::integ(y), Bound::Or(to, Part::conf(y))),
            Lower::new(Part::conf(x), Bound::Same(Part::conf(pc))),
            Lower::new(Part::integ(pc), Bound::Same(Part::integ(x))),
        ])?;
        self.add_checks(&[Check::new(to, Part::integ(x), offset)])
    }

    /// A host with this label is told what is at `y`.
    pub(crate) fn add_output(
        &mut self,
        host: Label,
        pc: Place,
        y: Place,
        offset: u32,
    ) -> Result<(), AllocError>
        requires host { IsLabelOf self.old host }
        requires pc { IsPlaceOf self.old pc }
        requires y { IsPlaceOf self.old y }
        requires small { IsSmall (with_output host pc y offset self.old) }
        ensures { OnOk result (self.new ≡ with_output host pc y offset self.old) }
    {
        self.add_rules(&[
            Lower::new(Part::integ(y), Bound::Constant(host.integ)),
            Lower::new(Part::integ(pc), Bound::Constant(host.integ)),
        ])?;
        self.add_checks(&[
            Check::new(host.conf, Part::conf(y), offset),
            Check::new(host.conf, Part::conf(pc), offset),
        ])
    }

    /// The source writes this label at `x`.
    pub(crate) fn add_written(
        &mut self,
        written: Label,
        x: Place,
        offset: u32,
    ) -> Result<(), AllocError>
        requires written { IsLabelOf self.old written }
        requires x { IsPlaceOf self.old x }
        requires small { IsSmall (with_label written x offset self.old) }
        ensures { OnOk result (self.new ≡ with_label written x offset self.old) }
    {
        self.add_rules(&[
            Lower::new(Part::conf(x), Bound::Constant(written.conf)),
            Lower::new(Part::integ(x), Bound::Constant(written.integ)),
        ])?;
        self.add_checks(&[
            Check::new(written.conf, Part::conf(x), offset),
            Check::new(written.integ, Part::integ(x), offset),
        ])
    }
}
