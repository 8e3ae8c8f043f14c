//! What the commands `labels`, `certify`, `choose` and `compile` say where they end well, in the words of labels, costs and
//! codes; nothing is computed.

ghost use Rattle.vd_cmd_laws.specs.Laws.{ChoicesTell, CompiledTell, LabelsTell, ProofsTell};

/// Where the plan of `labels` ends well, it prints the least labelling of the source; where that of `certify` does, the least
/// cost of the valid lists of protocols, or that there are none; where that of `choose` does, the choice of protocols with
/// its cost, and it stores a certificate of which `certify` prints that cost; and where that of `compile` does, the same
/// choice, and it stores each host's part of the joint code at it.
pub fn answers_tell()
    ensures labels { LabelsTell }
    ensures proofs { ProofsTell }
    ensures choices { ChoicesTell }
    ensures compiled { CompiledTell }
{}
