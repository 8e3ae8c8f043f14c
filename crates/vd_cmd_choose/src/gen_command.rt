//! The command `gen`.

ghost use Rattle.std.specs.Prelude.{◌≤◌};
ghost use Rattle.vd_cmd_plan.specs.Plans.{Computes};
ghost use Rattle.vd_cmd_choose.specs.Generating.{gen_answer};

use std::alloc::Global;
use vd_base::Items;
use vd_cmd_plan::{Answer, Status};
use vd_gen::generate;

/// The command `gen`: prints the source of so many coordinates.
pub fn generate_source(alloc: Global, coordinates: u32) -> Result<Answer, Status>
    requires { 1 ≤ coordinates }
    ensures { Computes (gen_answer coordinates) result }
{
    let printed = generate(alloc, coordinates)?;
    Ok(Answer {
        status: Status::Ended,
        stores: Items::new(alloc),
        printed,
    })
}
