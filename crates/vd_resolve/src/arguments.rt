//! The kinds of arguments.

ghost use Rattle.std.specs.Prelude.{◌≡◌, length, true, false, OnErr, OnOk, IfErr};
ghost use Rattle.vd_resolve.specs.Causes.{argument_met, if_met};
ghost use Rattle.vd_resolve.specs.Faults as faults;
ghost use Rattle.vd_resolve.specs.Rules.{kinds_eq};

use crate::fault::NameFault;
use crate::met::Met;
use vd_base::{Kind, Span};

/// The first argument of another kind than its parameter.
fn other_argument(kinds: &[Kind], parameters: &[Kind]) -> Option<Met>
    ensures { result ≡ argument_met 0 kinds.now parameters.now }
{
    let mut left = parameters;
    for (place, kind) in kinds.iter().enumerate() {
        match left.split_first() {
            None => return None,
            Some((parameter, rest)) => {
                if kind == parameter {
                    left = rest;
                } else {
                    return Some(Met::Argument(place + 1, *kind));
                }
            }
        }
    }
    None
}

/// Whether arguments of these kinds fit parameters of those, of which there are as many.
#[tactic(auto, using(crate::proofs::KindLists::kinds_fit))]
pub(crate) fn check_arguments(
    at: Span,
    kinds: &[Kind],
    parameters: &[Kind],
) -> Result<(), NameFault>
    requires { length kinds.now ≡ length parameters.now }
    ensures same { OnOk result (kinds_eq kinds.now parameters.now ≡ true) }
    ensures differ { OnErr result (kinds_eq kinds.now parameters.now ≡ false) }
    ensures fault { IfErr result (λ fault. faults.bare fault ≡ faults.Kind at) }
    ensures cause { IfErr result (λ fault. faults.carried fault ≡ if_met (argument_met 0 kinds.now parameters.now)) }
{
    match other_argument(kinds, parameters) {
        None => Ok(()),
        Some(met) => Err(NameFault::Kind(at, met)),
    }
}
