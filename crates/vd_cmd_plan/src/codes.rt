//! What the number with which the process ends says, and the numbers in the line of a status.

ghost use Rattle.std.specs.Prelude.{◌≡◌};
ghost use Rattle.vd_cmd_plan.specs.Lines.{code_of};
ghost use Rattle.vd_cmd_plan.specs.LinesRead.{NumbersInOrder};
ghost use Rattle.vd_cmd_plan.specs.Words.{CodesAreListed, CodesTellWords, ZeroIsEnded};
ghost use Rattle.vd_cmd_plan.specs.declared.status.Status.TheVariants.{Ended};

/// The number is 0 where the command was carried out and only there, and tells any two kinds of statuses apart. It is the place
/// of the status's word in one list.
pub fn codes_tell_statuses()
    ensures zero { code_of Ended ≡ 0 }
    ensures ended { ZeroIsEnded }
    ensures words { CodesTellWords }
    ensures listed { CodesAreListed }
{}

/// Where the line of a status has two numbers a person reads them in this order.
pub fn numbers_are_in_order()
    ensures { NumbersInOrder }
{}
