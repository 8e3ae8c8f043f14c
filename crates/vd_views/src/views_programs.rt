//! What hosts see together of a whole program: other inputs that agree on their own inputs, and on the clear words that come to
//! each of them, are explained to them by another deal. Nothing is computed here: each function's clauses are laws.

ghost use Rattle.std.specs.Prelude.{ℕ, ◌<◌, Bool, length};
ghost use Rattle.vd_noninter.specs.NoninterLawsDependence.{AreReached};
ghost use Rattle.vd_noninter.specs.Reading.{becomes_readable_to, reads_host, reads_result};
ghost use Rattle.vd_views.specs.Promise.{ExplainsOthers, OfEachProgram};
ghost use Rattle.vd_base.specs.HostSets.{host};
ghost use Rattle.vd_views.specs.Explained.{InputsChooseBranches, OthersAreExplained, ExplainedBack, OwnWordsStay, AllButOneLook, OneOfTwoLooks};
ghost use Rattle.vd_views.specs.PairUp.{DealsPairUp, ThereAreAsMany};
ghost use Rattle.vd_views.specs.Lengths.{ExcusesAreAsLong, ShowEquallyMany};
ghost use Rattle.vd_views.specs.ViewsProgramsExample.{WorkedExcuse, WorkedConversion};
ghost use Rattle.vd_views.specs.AnyOrder.{SeesFrontsInAnyOrder};

/// Of a program at a valid assignment of protocols, and hosts of it that look together, to none of which a host outside is bound by a
/// commitment: other inputs may agree on their own inputs, and on each word that comes to one of them in clear. Then there is one other valid deal, with the same parts
/// for all of them and the same own words, under which they see of the other inputs what they saw of the first. Own words of hosts
/// outside that are given to them stand where the second run gives some. It is computed gadget by gadget, along both runs.
/// Explained back, the first deal comes again. Where own words are taken in sight of those that look, none moves. So it is
/// where one host alone is outside, and where one of two looks.
pub fn other_inputs_have_an_excuse()
    ensures explained { OthersAreExplained }
    ensures back { ExplainedBack }
    ensures stay { OwnWordsStay }
    ensures all_but_one { AllButOneLook }
    ensures one_of_two { OneOfTwoLooks }
{}

/// Whatever is dealt, two runs on the same inputs take the same branches: dealt items choose none.
pub fn inputs_choose_the_branches()
    ensures { InputsChooseBranches }
{}

/// The deals of both families of inputs belong to each other one to one, and each keeps the items that are not taken. So of any
/// number of different deals by which a coalition sees something of the first inputs, there are equally many by which it sees the
/// same of the second. A deal that is long enough is explained by one of the same lengths, if own words reach for both runs; and of
/// all that are of given lengths, and by which the coalition sees something, there are equally many of both: what it sees tells it
/// nothing of the inputs.
pub fn deals_belong_to_each_other()
    ensures pair_up { DealsPairUp }
    ensures as_many { ThereAreAsMany }
    ensures as_long { ExcusesAreAsLong }
    ensures equally_many { ShowEquallyMany }
{}

/// Under whatever schedules the two runs go, what a host of the coalition prints and is told in either is a prefix of the same
/// lists, and at the end it is the same in both.
pub fn any_order_looks_alike()
    ensures { SeesFrontsInAnyOrder }
{}

/// Whatever hosts see together could have come from any inputs that agree, for each of them, on its own, on those of the hosts that
/// it may read, and on the words that become readable to it by a declassification; and so where they agree on the hosts whose
/// inputs are reached from its outputs, and on all that is declassified to it. It holds at every valid assignment in which no host
/// outside is bound by a commitment to one of them.
pub fn what_may_not_be_read_stays_open()
    ensures readable { OfEachProgram (λ p l. ExplainsOthers p l (λ h. becomes_readable_to p l (host h)) (λ h. reads_host p (host h))) }
    ensures reached { OfEachProgram (λ p l. (hosts : ℕ → ℕ → Bool) →
        ((h : ℕ) → h < length p.hosts → AreReached p l (host h) (hosts h)) → ExplainsOthers p l (λ h. reads_result p l (host h)) hosts) }
{}

/// Of the product of two inputs, and of a word that is converted: which item of the other host the deal that is computed
/// changes, and how.
pub fn worked_excuse()
    ensures product { WorkedExcuse }
    ensures conversion { WorkedConversion }
{}
