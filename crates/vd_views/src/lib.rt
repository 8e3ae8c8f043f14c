//! Two joint runs that look alike to hosts that put together what they see. Nothing is computed here: each function's clauses are laws.
#![tactic(auto)]

ghost use Rattle.std.specs.Prelude.{◌≡◌, ◌≢◌, ℕ, List, [], ◌∷◌};
ghost use Rattle.vd_execution.specs.declared.instructions.Act.{Act};
ghost use Rattle.vd_execution.specs.World.{Tape};
ghost use Rattle.vd_execution.specs.Joint.{Joint, Hosts, IsTidy};
ghost use Rattle.vd_execution.specs.Acts.{ActsAreTidy};
ghost use Rattle.vd_execution.specs.Gadgets.{Sharing, BySums, Masking, Gadget, GadgetsAreTidy};
ghost use Rattle.vd_execution.specs.Plans.{Plan, PlanIsTidy};
ghost use Rattle.vd_views.specs.Claims.{AreSound, JointKeepsAlike, ActsKeepAlike, TellsFirst, GadgetsKeepAlike, GadgetsHideBack};
ghost use Rattle.vd_views.specs.Claims.{HasExcuse, AllowsExcuse, HasViewExcuse, PlanHidesBack, IsOnlyItem, AreOnlyItems};
ghost use Rattle.vd_views.specs.Views.{Coalition, IsIn};
ghost use Rattle.vd_views.specs.Back.{AreAlternatives};
ghost use Rattle.vd_views.specs.Contract.{InputWords, CanBeExcused, IsExplained, GoesBack};
ghost use Rattle.vd_views.specs.Items.{item_for};
ghost use Rattle.vd_views.specs.Moved.{MovesWell};
ghost use Rattle.vd_views.specs.MovedExample.{WorkedBranch};

/// A host that has the same inputs and dealt items in two runs, and is told the same words, is the same in both.
pub fn what_a_host_sees()
    ensures blocks { (h : ℕ) (t u : Tape) (j : Joint) → IsTidy j → JointKeepsAlike h t u j }
    ensures acts { (h : ℕ) (t u : Tape) (acts : List Act) → ActsAreTidy acts → ActsKeepAlike h t u acts }
    ensures acts_first { (h : ℕ) (t u : Tape) (acts : List Act) (j : Joint) → TellsFirst h t u acts j }
{}

/// Gadgets that hide alike what items hide, and tell a coalition the same openly, leave its hosts the same; exchanged, they hide
/// alike too.
pub fn gadgets_hide()
    ensures alike { (K : Coalition) (t u : Tape) (gs : List Gadget) → GadgetsAreTidy gs → GadgetsKeepAlike K t u gs }
    ensures back { (K : Coalition) (t u : Tape) (gs : List Gadget) → GadgetsHideBack K t u gs }
{}

/// For every coalition and second run there is one valid deal with the same parts for its hosts, the same own words and inputs, and
/// the same items among hosts outside, by which what items hide is hidden alike. It is computed gadget by gadget, along both
/// runs. Where the coalition then reads the same guards and is told the same openly, it sees the same as in the first run. From
/// the start own words are moved first, to where the second run gives them to the coalition.
pub fn every_run_has_an_excuse()
    ensures gadgets { (K : Coalition) (t u : Tape) (gs : List Gadget) (w v : Hosts) → GadgetsAreTidy gs → AreSound t u w v →
        HasExcuse K t u gs w v }
    ensures views { (K : Coalition) (t u : Tape) (plan : Plan Gadget) (w v : Hosts) → PlanIsTidy plan → AllowsExcuse K t u plan w v →
        HasViewExcuse K t u plan w v }
    ensures from_the_start { (K : Coalition) (plan : Plan Gadget) (t : Tape) (second : InputWords) → CanBeExcused K plan t second →
        IsExplained K plan t second }
{}

/// Own words can be moved so that those at some places stand at others, in the same order. Moved back, each stands where it stood.
pub fn own_words_can_be_moved()
    ensures { MovesWell }
{}

/// Alice shares a word with bob in a branch that carol does not see, and one with carol after it: carol gets another own word where
/// the branch is not taken. So the second deal has alice's first two own words exchanged.
pub fn worked_branch()
    ensures { WorkedBranch }
{}

/// Exchanged, the second deal explains the first run by the second just so, and the items that do so are the only ones. So what
/// explains back is the first deal again.
pub fn the_way_back()
    ensures plan { (K : Coalition) (t u : Tape) (plan : Plan Gadget) → PlanHidesBack K t u plan }
    ensures item { (K : Coalition) (h : ℕ) (t y z : Tape) (s : Sharing) (m : Masking) → IsIn K h → m.host.0 ≢ h → AreAlternatives K y z →
        IsOnlyItem h t y z s m }
    ensures gadgets { (K : Coalition) (t y z : Tape) (gs : List Gadget) → GadgetsAreTidy gs → AreAlternatives K y z →
        AreOnlyItems K t y z gs }
    ensures deal { (K : Coalition) (plan : Plan Gadget) → PlanIsTidy plan → GoesBack K plan }
{}

/// The item that hides 2147483658 as the triple 1, 4, 5 hid 10, beside 2, 0, 7: the first part rises by half the words, and
/// the rest stays.
pub fn worked_item()
    ensures { item_for BySums (1 ∷ 4 ∷ 5 ∷ []) (2 ∷ 0 ∷ 7 ∷ []) 10 2147483658 1 1 ≡ 2147483649 ∷ 4 ∷ 5 ∷ [] }
{}

mod equivocation_pairs;
mod views_backends;
mod views_deals;
mod views_lengths;
mod views_products;
mod views_programs;

pub use equivocation_pairs::pairs_are_read_off;
pub use views_backends::quiet_gadgets_tell_the_same;
pub use views_deals::deal_files_belong_to_each_other;
pub use views_lengths::lengths_tell_ways_alone;
pub use views_products::{a_product_can_be_excused, worked_product};
pub use views_programs::{
    any_order_looks_alike, deals_belong_to_each_other, inputs_choose_the_branches,
    other_inputs_have_an_excuse, what_may_not_be_read_stays_open, worked_excuse,
};
