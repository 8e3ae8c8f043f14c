//! What holds of calls, of statements and of whole programs. Each function's clauses are laws.

ghost use Rattle.vd_projection.specs.Ranges.{CodeIsInRange, CodeHasShortPackets};
ghost use Rattle.vd_projection.specs.Sizes.{ClearCallsFit, SpreadingFits, SumCallsFit, CircuitCallsFit, ConversionToBitsFits, ConversionToSumsFits, CommittingFits, RevealingFits};
ghost use Rattle.vd_projection.specs.Statements.{StatementsMakeFew, CodeIsShort};

/// The code that each host has of a well-made program, at protocols over the program's hosts, can be loaded: its registers, its
/// packets and its open blocks are within the ranges of host code. No packet is empty, and none has more than nine words.
pub fn code_is_in_range()
    ensures range { CodeIsInRange }
    ensures packets { CodeHasShortPackets }
{}

/// The calls of hosts that hold a word in clear take few registers, and so does a word that goes from copies to other copies.
pub fn clear_calls_fit()
    ensures calls { ClearCallsFit }
    ensures spreading { SpreadingFits }
{}

/// The calls of two hosts that share words take few registers, whether their parts are added or joined by exclusive or.
pub fn shared_calls_fit()
    ensures sums { SumCallsFit }
    ensures circuits { CircuitCallsFit }
{}

/// The conversions between the two ways of sharing take few registers.
pub fn conversions_fit()
    ensures to_bits { ConversionToBitsFits }
    ensures to_sums { ConversionToSumsFits }
{}

/// A commitment and its opening take few registers, and their packets have at most nine words.
pub fn commitments_fit()
    ensures committing { CommittingFits }
    ensures revealing { RevealingFits }
{}

/// Each statement of a well-made program, at protocols over the program's hosts, makes at most 1,024 instructions for each host and
/// takes at most 2,048 of its registers, and the cells of an array besides. What its blocks hold is not counted with it: they have
/// statements of their own. So the code of a host has at most 1,024 instructions for each statement.
pub fn statements_are_short()
    ensures statements { StatementsMakeFew }
    ensures code { CodeIsShort }
{}
