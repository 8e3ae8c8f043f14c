//! A child program as its turns need it.

ghost use Rattle.std.specs.Prelude.{◌≡◌, ℕ, Bool, false, List, Option, OnOk, IfOk, IfSome};
ghost use Rattle.vd_edge_processes.specs.Lines.{GivesNext};
ghost use Rattle.vd_edge_processes.specs.Turns.{StillLeft};

use crate::next::Next;
use vd_base::CallFault;

/// A child program whose output is read without waiting.
pub(crate) trait Player {
    /// The bytes that are left of its output, where they are known.
    ghost left: { Self → Option (List ℕ) };

    /// Whether its output cannot be read.
    ghost broken: { Self → Bool };

    /// It ended with this number.
    ghost ended: { Self → ℕ → Type 0 };

    /// Takes what it has written since, and says whether that was anything. Where its output cannot be read, none of its lines is given
    /// any more.
    fn turn(&mut self) -> Result<bool, CallFault>
        ensures { OnOk result (StillLeft (broken self.old) (broken self.new) (left self.old) (left self.new)) };

    /// What there is of its next line.
    fn next(&mut self) -> Result<Next, CallFault>
        ensures gives { IfOk result (GivesNext (left self.old) (left self.new)) }
        ensures readable { OnOk result (broken self.old ≡ false) }
        ensures same { broken self.new ≡ broken self.old };

    /// Whether its output has ended.
    fn is_over(&self) -> bool;

    /// The number with which it ended, if that is known by now and is a fault.
    fn failure(&mut self) -> Option<u32>
        ensures left { StillLeft (broken self.old) (broken self.new) (left self.old) (left self.new) }
        ensures ended { IfSome result (ended self.new) };
}
