ghost use Rattle.std.specs.Prelude.{◌≡◌};
ghost use Rattle.vd_rewrite.specs.Rewriting.{marked};

use vd_base::SlotId;

/// Whether a slot is marked; one without a mark is not.
pub fn is_marked(marks: &[bool], slot: SlotId) -> bool
    ensures { result ≡ marked marks.now slot }
{
    marks.get(usize::from(slot.0)).copied().unwrap_or(false)
}
