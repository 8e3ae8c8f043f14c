//! Laws of the let-normal form of a source. Nothing is computed.

ghost use Rattle.std.specs.Prelude.{◌≡◌, ◌+◌, ◌≤◌, Ok};
ghost use Rattle.vd_core.specs.Facts.{SlotsInOrder, SlotsMadeBefore, OperandsFit, ShiftsFit, TurnsInLoops, AreNames, HostsDeclared, PrincipalsDeclared, LabelForEachHost, WithinLimits, IsWellMade, statement_count, weight_sum, nesting, cell_count};
ghost use Rattle.vd_core.specs.declared.source.Source.{Source as Tree};
ghost use Rattle.vd_core.specs.Named.{HasNames};
ghost use Rattle.vd_elaborate.specs.Normal.{main_made, normal_form};
ghost use Rattle.vd_elaborate.specs.Calls.{counted_statements};
ghost use Rattle.vd_resolve.specs.Limits.{IsResolved};
ghost use Rattle.vd_resolve.specs.Rules.{source_check};
ghost use Rattle.vd_resolve.specs.Sizes.{source_size};

/// Each slot is made once, and they are numbered in program order. Holds of every tree.
pub fn slots_are_in_order()
    ensures { (source : Tree) → SlotsInOrder (normal_form source) }
{}

/// A slot that is named is made before, in the same list of statements or in one around it. Holds of every tree.
pub fn slots_are_made_before()
    ensures { (source : Tree) → SlotsMadeBefore (normal_form source) }
{}

/// Each operation has as many operands as it takes. Holds of every tree.
pub fn operands_fit()
    ensures { (source : Tree) → OperandsFit (normal_form source) }
{}

/// The number of a turn is asked for in a loop. Holds of every tree.
pub fn turns_stand_in_loops()
    ensures { (source : Tree) → TurnsInLoops (normal_form source) }
{}

/// There is one label for each host. Holds of every tree.
pub fn each_host_has_a_label()
    ensures { (source : Tree) → LabelForEachHost (normal_form source) }
{}

/// Shifts are by at most 31 bits.
pub fn shifts_fit()
    ensures { (source : Tree) → IsResolved source → ShiftsFit (normal_form source) }
{}

/// The hosts of inputs and outputs are declared.
pub fn hosts_are_declared()
    ensures { (source : Tree) → IsResolved source → HostsDeclared (normal_form source) }
{}

/// The principals in right sides and in labels are declared.
pub fn principals_are_declared()
    ensures { (source : Tree) → IsResolved source → PrincipalsDeclared (normal_form source) }
{}

/// Principals and hosts have names, and no two of either have the same.
pub fn names_are_distinct()
    ensures principals { (source : Tree) → IsResolved source → HasNames source → AreNames (normal_form source).principals }
    ensures hosts { (source : Tree) → IsResolved source → HasNames source → AreNames (normal_form source).hosts }
{}

/// What a source without faults on names and kinds counts is what its let-normal form has; each inlined call counts as
/// one statement more.
pub fn counts_are_exact()
    ensures statements { (source : Tree) → source_check source ≡ Ok tt → (source_size source).statements ≡ counted_statements source }
    ensures weights { (source : Tree) → source_check source ≡ Ok tt → (source_size source).weights ≡ weight_sum (normal_form source).body }
    ensures nesting { (source : Tree) → source_check source ≡ Ok tt → (source_size source).nesting ≡ nesting (normal_form source).body }
    ensures cells { (source : Tree) → source_check source ≡ Ok tt → (source_size source).cells ≡ cell_count (normal_form source).body }
{}

/// The slots, and the blocks other than that of main, are together at most as many as the statements. Holds of every
/// tree.
pub fn slots_and_blocks_are_few()
    ensures { (source : Tree) → let made = main_made source in made.next + made.blocks ≤ statement_count made.body + 1 }
{}

/// All that is counted is within its limit.
pub fn limits_are_kept()
    ensures { (source : Tree) → IsResolved source → HasNames source → WithinLimits (normal_form source) }
{}

/// All facts together.
pub fn normal_form_is_well_made()
    ensures { (source : Tree) → IsResolved source → HasNames source → IsWellMade (normal_form source) }
{}
