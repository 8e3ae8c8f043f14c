//! What hosts see together of the product of two shared inputs. Nothing is computed here: each function's clauses are laws.

ghost use Rattle.vd_execution.specs.World.{Tape};
ghost use Rattle.vd_execution.specs.Deals.{IsValidDeal};
ghost use Rattle.vd_views.specs.Views.{Coalition};
ghost use Rattle.vd_views.specs.Contract.{InputWords, CanBeExcused, IsExplained, GoesBackTo};
ghost use Rattle.vd_views.specs.Product.{product_plan, HaveSameProduct};
ghost use Rattle.vd_views.specs.Example.{WorkedProduct};

/// Two hosts share their inputs, multiply them, and open the product to both. Where other inputs have the same product, and the
/// hosts that look have their own again, the deal that is computed explains them to these; explained back, the first deal comes
/// again.
pub fn a_product_can_be_excused()
    ensures condition { (K : Coalition) (t : Tape) (second : InputWords) → IsValidDeal t → HaveSameProduct K t second →
        CanBeExcused K product_plan t second }
    ensures explained { (K : Coalition) (t : Tape) (second : InputWords) → IsValidDeal t → HaveSameProduct K t second →
        IsExplained K product_plan t second }
    ensures back { (K : Coalition) (first : InputWords) → GoesBackTo K product_plan first }
{}

/// The product of 7 and 6, and of 2147483655 and 6: a second deal, in which the first host's triple is another, explains these
/// inputs to the second host, which prints 42 in both runs.
pub fn worked_product()
    ensures { WorkedProduct }
{}
