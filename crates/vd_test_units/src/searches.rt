//! The search and the checker on a small tree.

ghost use Rattle.std.specs.Prelude.{◌≡◌, ◌<◌, IfOk, length};

use crate::tree::Words;
use std::alloc::{AllocError, Global};
use std::test::Fail;
use vd_base::Items;
use vd_bound::{Proved, check_marks};
use vd_search::{Answer, search};
use vd_search_tree::Mark;

/// Three bits.
fn three_bits(alloc: Global) -> Result<Words, AllocError>
    ensures { IfOk result (λ made. made.depth ≡ 0) }
{
    let room = vec![in alloc; 0u32, 0, 0]?;
    Ok(Words::new(room))
}

/// The marks of a found list of cost 0.
fn found_marks(alloc: Global) -> Result<Option<Items<Mark>>, AllocError> {
    let mut words = three_bits(alloc)?;
    match search(alloc, &mut words, 10) {
        Ok(Answer::Found(_, 0, marks)) => Ok(Some(marks)),
        _ => Ok(None),
    }
}

/// Whether marks show that the least cost is 0.
fn show_least(alloc: Global, marks: &[Mark]) -> Result<bool, AllocError>
    requires { length marks.now < 4294967296 }
{
    let mut words = three_bits(alloc)?;
    match check_marks(alloc, &mut words, Some(0), marks) {
        Ok(Proved::Least(_, cost)) => Ok(cost == 0),
        _ => Ok(false),
    }
}

#[test]
fn the_first_list_is_found(rt: HostRuntime) -> Result<(), Fail> {
    let marks = found_marks(rt.alloc())?.ok_or("no list of cost 0")?;
    assert!(rt; marks.as_slice().len() == 7);
    assert!(rt; show_least(rt.alloc(), marks.as_slice())?);
    Ok(())
}
