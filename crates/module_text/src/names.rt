//! Names as texts.
ghost use Rattle.std.specs.Prelude.{◌≡◌, true, IfOk};
ghost use Rattle.module_text.specs.Names.{is_identifier, is_reference};

use base_texts::{Memory, Text};
use std::alloc::Global;

/// Returns the text of an identifier.
#[tactic(auto, using(crate::proofs::Ascii::identifier_utf8))]
pub fn identifier_text(alloc: Global, bytes: &[u8]) -> Result<Text, Memory>
    requires { is_identifier bytes.now ≡ true }
    ensures { IfOk result (λ text. text ≡ bytes.now) }
{
    Text::from_utf8(alloc, bytes)
}

/// Returns the text of a reference.
#[tactic(auto, using(crate::proofs::Ascii::reference_utf8))]
pub fn reference_text(alloc: Global, bytes: &[u8]) -> Result<Text, Memory>
    requires { is_reference bytes.now ≡ true }
    ensures { IfOk result (λ text. text ≡ bytes.now) }
{
    Text::from_utf8(alloc, bytes)
}
