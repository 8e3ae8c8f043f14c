//! The call that starts a child.

ghost use Rattle.std.specs.Prelude.{◌≡◌, IfOk};

use std::alloc::{AllocError, Global};
use vd_base::{Text, Texts};
use vd_outside::SpawnerCall;

/// A copy of these texts.
fn copy_of(alloc: Global, texts: &Texts) -> Result<Texts, AllocError>
    ensures { IfOk result (λ copy. copy ≡ texts.now) }
{
    let mut copy = Texts::new(alloc);
    for text in texts.as_slice() {
        copy.push(text.as_str())?;
    }
    Ok(copy)
}

/// The call that starts a program with these words.
pub(crate) fn start_call(
    alloc: Global,
    program: &str,
    words: &Texts,
) -> Result<SpawnerCall, AllocError>
    ensures { IfOk result (λ call. call ≡ SpawnerCall.Start program.now words.now) }
{
    let program = Text::copy_of(alloc, program)?;
    let words = copy_of(alloc, words)?;
    Ok(SpawnerCall::Start(program, words))
}
