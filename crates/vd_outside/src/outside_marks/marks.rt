ghost use Rattle.std.specs.Prelude.{◌≡◌};
ghost use Rattle.vd_outside.specs.Marks.{Claims, Draws, Looks, MarksView, Releases};

use vd_base::{Bytes, CallFault};

/// A call that was asked of marks, with the place of its mark.
#[derive(Drop)]
pub enum MarksCall {
    Draw,
    Claim(Bytes),
    Look(Bytes),
    Release(Bytes),
}

/// Names that are taken once, in the folders of files, and random bytes.
pub trait Marks {
    /// What they tell, and the count of their faults.
    ghost view: { Self → MarksView };

    /// How often they have failed. The count never falls, and stands still at its type's end.
    fn faults(&self) -> u64
        ensures { result ≡ (view self.now).faults };

    /// 32 bytes that nobody can foresee.
    fn draw(&mut self) -> Result<[u8; 32], CallFault>
        ensures { Draws (view self.old) (view self.new) result };

    /// Takes a name in the folder of a file, with these bytes, if it is free, and says whether it was: of any two that try, one gets it.
    /// What is taken stays as it is, whatever comes of the call.
    fn claim(&mut self, beside: &str, name: &[u8], bytes: &[u8]) -> Result<bool, CallFault>
        ensures { Claims beside.now name.now bytes.now (view self.old) (view self.new) result };

    /// Whether a name in the folder of a file is taken. Nothing is taken or made free by it.
    fn is_taken(&mut self, beside: &str, name: &[u8]) -> Result<bool, CallFault>
        ensures { Looks beside.now name.now (view self.old) (view self.new) result };

    /// Makes a name in the folder of a file free again. Where that is not done it is a fault, also for want of memory.
    fn release(&mut self, beside: &str, name: &[u8]) -> Result<(), CallFault>
        ensures { Releases beside.now name.now (view self.old) (view self.new) result };
}
