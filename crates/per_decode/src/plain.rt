//! The rules of texts. Texts of visible ASCII characters follow the rules of most types, so their characters need not be
//! distinguished.
ghost use Rattle.std.specs.Prelude.{◌≡◌, ◌↔◌, IsTrue};
ghost use Rattle.std.specs.List.{list_all};
ghost use Rattle.base_trees.specs.Rose.{label_of};
ghost use Rattle.asn_types.specs.Modules.{AreWellFormed};
ghost use Rattle.asn_values.specs.Values.{IsTextOf, OwnAt};
ghost use Rattle.simple_types.specs.declared.labels.ValueLabel.TheVariants as value;
ghost use Rattle.per_decode.specs.Private.Visible.{is_visible};
ghost use Rattle.per_decode.specs.Private.Bodies.{IsText, text_leaf};

use asn_types::{Form, Module, TypeLabel};
use base_texts::{Text, is_treated};
use base_trees::Tree;
use simple_types::{Class, has_characters, is_at_most};

#[inline(always)]
fn are_visible(bytes: &[u8]) -> bool
    ensures { result ≡ list_all is_visible bytes.now }
{
    bytes.iter().all(|byte| matches!(*byte, b'!'..=b'~'))
}

// Returns whether a text has only visible ASCII characters, and is within the size of a type of any characters (`Class::Any`).
#[tactic(auto, using(crate::proofs::Visible::plain_utf8, crate::proofs::Visible::plain_characters, crate::proofs::Visible::plain_treated))]
#[inline(always)]
fn is_plain_text(label: &TypeLabel, bytes: &[u8]) -> bool
    ensures { IsTrue result → IsTextOf label.now.form label.now.marks (value.Utf8 bytes.now) }
{
    match &label.form {
        Form::Utf8 {
            min,
            max,
            class: Class::Any,
        } => { are_visible(bytes) && *min as usize <= bytes.len() && is_at_most(bytes.len(), *max) }
        _ => false,
    }
}

/// Returns whether these bytes are such a text, which follows the rules of a type that is not a reference. Other texts may follow
/// them, too.
#[inline(always)]
pub(crate) fn is_plain(module: &Module, found: &Tree<TypeLabel>, bytes: &[u8]) -> bool
    requires { AreWellFormed module.now found.now }
    ensures { IsTrue result → OwnAt module.now (label_of found.now) found.now (text_leaf bytes.now) }
{
    let label = found.label();
    match &label.form {
        Form::Utf8 { .. } => is_plain_text(label, bytes),
        _ => false,
    }
}

/// Returns whether a text follows the rules of a type of texts, which is not a reference.
pub(crate) fn keeps_rules(module: &Module, found: &Tree<TypeLabel>, text: &Text) -> bool
    requires well_formed { AreWellFormed module.now found.now }
    requires text { IsText (label_of found.now).form }
    ensures { IsTrue result ↔ OwnAt module.now (label_of found.now) found.now (text_leaf text.now) }
{
    let label = found.label();
    match &label.form {
        Form::Utf8 { min, max, class } => {
            has_characters(*min, *max, *class, text.as_str())
                && is_treated(label.marks.white_space(), text)
        }
        _ => unreachable!(),
    }
}
