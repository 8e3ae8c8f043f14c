//! Whether a budget does not do.

ghost use Rattle.std.specs.Prelude.{◌≡◌, ◌<◌, ◌-ℤ◌, [], pos, true};
ghost use Rattle.vd_search.specs.Answers.{Exceeds, IsFloor};

use crate::Limits;
use crate::search_budget::counting::count_on;
use vd_search_tree::Prefixes;

/// Prefixes of so many choices are counted at first, and then of twice as many.
const FIRST_DEPTH: u32 = 8;

/// So often at most.
const ROUNDS: u32 = 4;

/// One less.
fn less_one(floor: u32) -> i64
    ensures { result ≡ pos floor -ℤ pos 1 }
{
    i64::from(floor) - 1
}

/// Whether it is seen in the first levels of a tree that a budget cannot suffice, where no whole list costs less than the floor: more
/// prefixes than it has are there with bounds below the floor, and each search opens these. No choice is left made.
pub fn is_exceeded<P: Prefixes>(prefix: &mut P, floor: u32, budget: u32) -> bool
    requires root { P.path prefix.old ≡ [] }
    requires floor { IsFloor (P.tree prefix.old) floor }
    requires budget { budget < 4294967295 }
    ensures exceeds { result ≡ true → Exceeds (P.tree prefix.old) budget }
    ensures tree { P.tree prefix.new ≡ P.tree prefix.old }
    ensures root { P.path prefix.new ≡ [] }
{
    let slots = prefix.slots();
    let limits = Limits {
        most: less_one(floor),
        budget,
    };
    for round in 0..ROUNDS {
        let deepest = FIRST_DEPTH.wrapping_shl(round);
        let counted = count_on(prefix, &limits, deepest, 0);
        if counted > budget {
            return true;
        }
        if deepest >= slots {
            return false;
        }
    }
    false
}
