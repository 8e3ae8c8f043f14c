//! What holds of all hosts under any schedule. Nothing is computed here: each function's clauses are laws.

ghost use Rattle.std.specs.Prelude.{◌≡◌, ◌↔◌, ℕ, List, [], ◌∷◌, ◌++◌, Some};
ghost use Rattle.vd_execution.specs.declared.instructions.Act.{Act};
ghost use Rattle.vd_execution.specs.declared.instructions.Line.{Line};
ghost use Rattle.vd_execution.specs.declared.instructions.Instr.{Instr};
ghost use Rattle.vd_execution.specs.Code.{Code, Finished};
ghost use Rattle.vd_execution.specs.Schedule.{HasDiamond};
ghost use Rattle.vd_execution.specs.World.{World, Supply, Tape, step, run, IsStuck, AllEnded, EndedFrom, IsShort, CanStep, all_rounds};
ghost use Rattle.vd_execution.specs.Joint.{Part, Joint, Hosts, joint, TakesPart, Within, IsTidy, IsSmooth, code_of, started, at_end};
ghost use Rattle.vd_execution.specs.Acts.{do_then, run_acts, ActsAreTidy, ActsAgree, ActsAreWithin, lines_of};
ghost use Rattle.vd_execution.specs.Gadgets.{Gadget, acts_of_gadget, acts_of_gadgets, GadgetIsTidy, GadgetsAreTidy};
ghost use Rattle.vd_execution.specs.Plans.{Plan, joint_of, PlanIsTidy};
ghost use Rattle.vd_execution.specs.Text.{text, IsCodeOf, flat, pick};
ghost use Rattle.vd_execution.specs.Queues.{QueuesStep};
ghost use Rattle.vd_execution.specs.Example.{example, one_input};
ghost use Rattle.vd_execution.specs.Claims.{RunsWell, RunsToItsEnd, IsOnTheWay, Suffices, last_of, order_of, work_of};
ghost use Rattle.vd_execution.specs.Claims.{reached, steps_of, IsWhole, HasOneEnd, then_all, IsReady, IsOf, KeepsSmooth, Stays, KeepsSound};

/// The steps of two different hosts commute, so every schedule that leaves no host able to step ends in one world, after
/// equally many steps.
pub fn order_is_free()
    ensures commute { (s : Supply) → HasDiamond (step s) }
    ensures one_end { (s : Supply) (w : World) → HasOneEnd s w }
{}

/// Where the lists suffice, program order leads all hosts to the end of the joint run, and each turn is a step.
pub fn program_order()
    ensures { (s : Supply) (j : Joint) → RunsToItsEnd s j → IsWhole s j (order_of s j) }
{}

/// Every world that some schedule reaches is on the way to the end of the joint run. Where the lists suffice, no host is
/// ever short, and a schedule that leaves no host able to step ends in the end of the joint run.
pub fn every_schedule()
    ensures on_the_way { (s : Supply) (j : Joint) (b : List ℕ) → RunsWell s j → IsOnTheWay s (reached s j b) (last_of s j) }
    ensures counted { (s : Supply) (j : Joint) (b : List ℕ) → RunsWell s j → AllEnded (reached s j b) → steps_of s j b ≡ work_of s j }
    ensures never_short { (s : Supply) (j : Joint) (b : List ℕ) → RunsToItsEnd s j → (h : ℕ) → IsShort s (reached s j b) h → ⊥ }
    ensures whole { (s : Supply) (j : Joint) (b : List ℕ) → RunsToItsEnd s j → IsStuck s (reached s j b) → IsWhole s j b }
{}

/// Rounds over the hosts end where none of them can step. After any schedule they lead, where the lists suffice, to the end
/// of the joint run.
pub fn rounds_end()
    ensures stuck { (s : Supply) (n : ℕ) (w : World) → EndedFrom n w → IsStuck s (then_all s n w) }
    ensures whole { (s : Supply) (j : Joint) (n : ℕ) (b : List ℕ) → RunsToItsEnd s j → IsOf n j → then_all s n (reached s j b) ≡
        at_end (last_of s j) }
{}

/// In every world that some schedule reaches, the hosts that are ready are those that can step.
pub fn ready_hosts_step()
    ensures { (s : Supply) (j : Joint) (b : List ℕ) (h : ℕ) → RunsWell s j → IsReady s (reached s j b) h ↔ CanStep s (reached s j b) h }
{}

/// A host's code is its acts in the flat list, in order; it is read back from its text, and each list of instructions
/// that is read as a code is its text.
pub fn code_is_text()
    ensures picked { (j : Joint) (h : ℕ) → IsTidy j → pick h (flat j []) ≡ text (code_of h j) [] }
    ensures read_back { (j : Joint) (h : ℕ) → IsCodeOf (text (code_of h j) []) (code_of h j) }
    ensures written_back { (is : List Instr) (c : Code) → IsCodeOf is c → text c [] ≡ is }
{}

/// Acts in a row before a joint code: it runs from where they lead, keeps what both keep, and its lines are theirs first.
pub fn acts_come_first()
    ensures runs { (t : Tape) (acts : List Act) (j : Joint) (w : Hosts) → joint t (do_then acts j) w ≡ joint t j (run_acts t acts w) }
    ensures tidy { (acts : List Act) (j : Joint) → ActsAreTidy acts → IsTidy j → IsTidy (do_then acts j) }
    ensures smooth { (t : Tape) (acts : List Act) (j : Joint) → KeepsSmooth t acts j }
    ensures within { (ps : List Part) (acts : List Act) (j : Joint) → ActsAreWithin ps acts → Within ps j → Within ps (do_then acts j) }
    ensures lines { (acts : List Act) (j : Joint) (behind : List Line) → flat (do_then acts j) behind ≡ lines_of acts ++ flat j behind }
{}

/// A host that takes no part in a joint code has no code of it, and is afterwards what it was. Where each host that has
/// code takes part, all that act do.
pub fn parts_are_those_that_act()
    ensures no_code { (ps : List Part) (h : ℕ) (j : Joint) → Within ps j → (TakesPart ps h → ⊥) → code_of h j ≡ Finished }
    ensures stays { (t : Tape) (ps : List Part) (h : ℕ) (j : Joint) → IsTidy j → Within ps j → (TakesPart ps h → ⊥) → Stays t j h }
    ensures all_act { (ps : List Part) (j : Joint) → ((h : ℕ) → (code_of h j ≡ Finished → ⊥) → TakesPart ps h) → Within ps j }
{}

/// Each link is a queue: what a host sends goes to its end, and what a host receives was at its front.
pub fn first_in_first_out()
    ensures { (s : Supply) (j : Joint) (b : List ℕ) (h : ℕ) (u : World) → step s h (reached s j b) ≡ Some u →
        QueuesStep (reached s j b) u h }
{}

/// A tidy gadget leads sound states to sound states, for every valid deal; so do tidy gadgets in a row, and a tidy plan.
pub fn tidy_gadgets_keep_states_sound()
    ensures one { (g : Gadget) → GadgetIsTidy g → KeepsSound (λ t w. run_acts t (acts_of_gadget g) w) }
    ensures many { (gs : List Gadget) → GadgetsAreTidy gs → KeepsSound (λ t w. run_acts t (acts_of_gadgets gs) w) }
    ensures whole { (plan : Plan Gadget) → PlanIsTidy plan → KeepsSound (λ t w. joint t (joint_of plan) w) }
{}

/// The joint code of a tidy plan is tidy.
pub fn tidy_plans_are_tidy()
    ensures { (plan : Plan Gadget) → PlanIsTidy plan → IsTidy (joint_of plan) }
{}

/// Two hosts under any schedule that leaves none able to step: host 0 has printed three times the input, and 2.
pub fn small_example()
    ensures { (b : List ℕ) → IsStuck one_input (reached one_input example b) → (reached one_input example b 0).printed ≡ 9 ∷ 2 ∷ [] }
{}
