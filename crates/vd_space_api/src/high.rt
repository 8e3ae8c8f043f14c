//! The bound of a prefix under shifts.

ghost use Rattle.std.specs.Prelude.{◌≡◌, IsTrue};
ghost use Rattle.vd_space_prefix.specs.Tables.{AreTables};
ghost use Rattle.vd_space.specs.Bounds.{high};
ghost use Rattle.vd_space.specs.Validity.{is_valid};

use vd_space::Problem;
use vd_space_prefix::{Tables, grown};

/// The bound of a valid prefix under shifts, by their tables.
pub(crate) fn high_bound(problem: &Problem, tables: &Tables, prefix: &[u32]) -> i64
    requires tables { AreTables problem.now tables.now }
    requires valid { IsTrue (is_valid problem.now prefix.now) }
    ensures { result ≡ high problem.now tables.now.shifts prefix.now }
{
    let mut sums = tables.start;
    for slot in 0..prefix.len() {
        let before = &prefix[..slot];
        let after = &prefix[..slot + 1];
        sums = grown(problem, tables, &sums, prefix[slot], before, after);
    }
    sums.low.max(sums.shifted) + sums.common
}
