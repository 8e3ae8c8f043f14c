//! What the reader of deals is, as laws.

ghost use Rattle.std.specs.Prelude.{◌≡◌, ℕ, ◌≤◌, ◌<◌, List, [], ◌∷◌, ◌++◌, length, Ok};
ghost use Rattle.vd_base.specs.Limits.{most_hosts};
ghost use Rattle.vd_tape.specs.declared.deal_items.deal.Deal.{Deal};
ghost use Rattle.vd_tape.specs.Validity.{AreDeals};
ghost use Rattle.vd_tape.specs.Made.{StreamsAreApart};
ghost use Rattle.vd_tape.specs.Text.{deal_text, IsDealOf, AreDealsOf};
ghost use Rattle.vd_tape.specs.Reading.{deal_read};
ghost use Rattle.vd_tape.specs.Outcome.{DealsFollowGrammar};

/// All bytes either are the text of one deal, or have one first offset at which they go on as no deal file does.
pub fn deals_follow_the_grammar()
    ensures { (hosts me : ℕ) (bytes : List ℕ) → hosts ≤ most_hosts → me < hosts → DealsFollowGrammar hosts me bytes }
{}

/// What is written is read.
pub fn written_deals_are_read()
    ensures { (hosts me : ℕ) (deal : Deal) → IsDealOf hosts me deal → deal_read hosts me (deal_text deal) ≡ Ok deal }
{}

/// The deals of as many hosts as there are, each from its own file, are the deals of all hosts.
pub fn deals_of_each_host_are_deals()
    ensures none { (hosts : ℕ) → AreDealsOf hosts [] }
    ensures more { (hosts : ℕ) (deals : List Deal) (deal : Deal) → AreDealsOf hosts deals → IsDealOf hosts (length deals) deal →
        AreDealsOf hosts (deals ++ deal ∷ []) }
    ensures all { (deals : List Deal) → length deals ≤ most_hosts → AreDealsOf (length deals) deals → AreDeals deals }
{}

/// No two kinds of items and no two pairs of hosts have one stream, and none is the stream of a host's own words.
pub fn streams_are_apart()
    ensures { StreamsAreApart }
{}
