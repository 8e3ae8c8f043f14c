//! What is true of long divisions. Nothing is computed.

ghost use Rattle.std.specs.Prelude.{◌≡◌, ◌<◌, ◌≤◌, ◌^◌, ℕ, List, Bool};
ghost use Rattle.vd_base.specs.declared.ids.SlotId.{SlotId};
ghost use Rattle.vd_core.specs.declared.normal.NormalForm.{NormalForm};
ghost use Rattle.vd_core.specs.Facts.{IsWellMade};
ghost use Rattle.vd_semantics.specs.ProgramMeaning.{program_outputs};
ghost use Rattle.vd_base.specs.Words.{InputsAreWords};
ghost use Rattle.vd_core.specs.Numbers.{NumbersFit};
ghost use Rattle.vd_long.specs.DivisionsLeft.{AllDivisionsGo};
ghost use Rattle.vd_long.specs.Lengthened.{lengthened};
ghost use Rattle.vd_long.specs.LongDivision.{divided, IsDividedSoFar};

/// Whichever divisions become loops, the outputs to each host are the same, in every program that is well made and whose numbers are words,
/// and for all inputs that are words.
pub fn long_divisions_keep_outputs()
    ensures { (lengthens : SlotId → Bool) (program : NormalForm) → IsWellMade program → NumbersFit program →
        (inputs : List (List ℕ)) → InputsAreWords inputs →
        program_outputs (lengthened lengthens program) inputs ≡ program_outputs program inputs }
{}

/// A program with loops in the place of divisions is well made.
pub fn long_divisions_are_well_made()
    ensures { (lengthens : SlotId → Bool) (program : NormalForm) → IsWellMade program → IsWellMade (lengthened lengthens program) }
{}

/// Before each of the 32 turns the remainder and the quotient are those of the bits of the dividend so far; by a divisor of 0 the
/// remainder is these bits.
pub fn each_turn_divides_the_bits_so_far()
    ensures { (dividend divisor turn : ℕ) → dividend < 2 ^ 32 → turn ≤ 32 →
        IsDividedSoFar dividend divisor turn (divided dividend divisor turn) }
{}

/// A division for which no protocol is a candidate is gone after lengthening, where the new program keeps to the limits and to the
/// depth of loops. The divisions that are left are the others, in their order.
pub fn divisions_without_a_candidate_go()
    ensures { AllDivisionsGo }
{}
