//! What the server says, as text.

ghost use Rattle.std.specs.Prelude.{◌≡◌, Some, IfOk, string_bytes};
ghost use Rattle.serde_json.specs.Read.{read};
ghost use Rattle.vd_lsp_messages.specs.Said as said;

use crate::kinds::Outgoing;
use crate::values::value_of;
use std::alloc::{AllocError, Global};

/// The text of what the server says, which reads back as that.
#[tactic(auto, using(crate::proofs::Shallow::is_shallow))]
pub fn text_of(alloc: Global, outgoing: &Outgoing) -> Result<String, AllocError>
    ensures { IfOk result (λ text. read (string_bytes text) ≡ Some (said.data_of outgoing.now)) }
{
    let value = value_of(alloc, outgoing)?;
    value.to_string(alloc)
}
