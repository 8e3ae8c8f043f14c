//! The search with prefixes that are passed over.

ghost use Rattle.std.specs.Prelude.{◌≡◌, ◌<◌, suc, pos, [], IfOk, IsErrOf};
ghost use Rattle.std.specs.List.{All};
ghost use Rattle.vd_search_tree.specs.Trees.{AtLeast};
ghost use Rattle.vd_search.specs.Answers.{Answers};
ghost use Rattle.vd_search.specs.declared.writing.SearchFault.TheVariants.{Spent};
ghost use Rattle.vd_search.specs.Untied.{WhySpent, is_at_cost};

use crate::search_nogoods::untied::Untied;
use crate::{Answer, SearchFault, search};
use std::alloc::Global;
use vd_base::Items;
use vd_search_tree::Prefixes;

/// The choice of a tree, or that there is none, where ties are broken by prefixes that begin no list of that cost. The search
/// counts as spent also where the least cost is another.
pub fn search_untied<P: Prefixes + Drop>(
    alloc: Global,
    prefix: P,
    passed: Items<Items<u32>>,
    most: u32,
    budget: u32,
) -> Result<Answer, SearchFault>
    requires root { P.path prefix ≡ [] }
    requires passed { All (AtLeast (P.tree prefix) (pos (suc most))) passed }
    requires budget { budget < 4294967295 }
    ensures answers { IfOk result (Answers (P.tree prefix) budget) }
    ensures spent { IsErrOf result Spent → WhySpent (P.tree prefix) most passed budget }
{
    let mut untied = Untied::new(alloc, prefix, most, passed)?;
    let answer = search(alloc, &mut untied, budget)?;
    if !is_at_cost(&answer, most) {
        return Err(SearchFault::Spent);
    }
    Ok(answer)
}

/// Whether the answer says of no other least cost than that.
fn is_at_cost(answer: &Answer, most: u32) -> bool
    ensures { result ≡ is_at_cost most answer.now }
{
    match answer {
        Answer::Found(_, cost, _) => *cost == most,
        Answer::Empty(_) => true,
    }
}
