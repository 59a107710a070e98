//! The rule of a node, and the default or fixed value of a part.
ghost use Rattle.std.specs.Prelude.{◌≡◌, ◌↔◌, ◌⊎◌, IfOk, IfErr, OnOk, IsTrue};
ghost use Rattle.base_trees.specs.Rose.{Rose, label_of};
ghost use Rattle.base_flat_trees.specs.Zips.{added};
ghost use Rattle.simple_types.specs.declared.labels.ValueLabel.{ValueLabel};
ghost use Rattle.asn_types.specs.Modules.{AreWellFormed};
ghost use Rattle.asn_values.specs.Values.{Kept, Own, OwnAt};
ghost use Rattle.der_fields.specs.FieldsReading.{stop_at};
ghost use Rattle.der_fields.specs.Reading as reading;
ghost use Rattle.der_fields.specs.Reading.{leaf_of};
ghost use Rattle.der_decode.specs.Private.Bodies.{HasNoKids};
ghost use Rattle.der_decode.specs.Private.Places.{IsPlace};

use crate::faults::DerEnd;
use crate::places::{Part, Place};
use asn_types::{Form, Module, TypeLabel};
use asn_values::{kept, own};
use base_flat_trees::{Builder, Flat, Node};
use base_texts::{Memory, is_treated};
use base_trees::Tree;
use der_fields::{Stop, Why};
use per_fields::is_standard;
use simple_types::{ValueLabel, has_characters};

/// Returns whether every value of a type, which is not a reference, follows the rules of its first node. Only a SEQUENCE OF has
/// LIST, only a CHOICE USE-UNION, and only a SEQUENCE EMBED-VALUES and USE-ORDER.
pub(crate) fn has_no_rules(module: &Module, found: &Tree<TypeLabel>) -> bool
    requires { AreWellFormed module.now found.now }
    ensures { IsTrue result → (v : Rose ValueLabel) → OwnAt module.now (label_of found.now) found.now v }
{
    let label = found.label();
    match &label.form {
        Form::Utf8 { .. } => false,
        Form::Sequence { .. } => !label.marks.has_embed_values() && !label.marks.has_use_order(),
        Form::Choice { .. } => !label.marks.has_use_union(),
        Form::SequenceOf { .. } => !label.marks.has_list(),
        _ => true,
    }
}

/// Returns whether a value without children follows the rules of a type, which is not a reference. Only texts have rules.
pub(crate) fn leaf_keeps(module: &Module, found: &Tree<TypeLabel>, value: &ValueLabel) -> bool
    requires well_formed { AreWellFormed module.now found.now }
    requires leaf { HasNoKids (label_of found.now).form }
    ensures { IsTrue result ↔ OwnAt module.now (label_of found.now) found.now (leaf_of value.now) }
{
    let label = found.label();
    match &label.form {
        Form::Utf8 { min, max, class } => match value {
            ValueLabel::Utf8(text) => {
                has_characters(*min, *max, *class, text.as_str())
                    && is_treated(label.marks.white_space(), text)
            }
            _ => true,
        },
        _ => true,
    }
}

/// Appends a value that was read from an octet on, if it follows the rules of its node.
pub(crate) fn owned(
    place: &Place<'_>,
    value: Flat<ValueLabel>,
    begin: u64,
    values: &mut Builder<ValueLabel>,
) -> Result<(), DerEnd>
    requires place { IsPlace 65 place.now }
    ensures pushed { OnOk result (values.new ≡ added value values.old) }
    ensures ok { OnOk result (Own place.now.module.now place.now.node.now value) }
    ensures err { IfErr result (λ fault. (fault ≡ DerEnd.Memory) ⊎ ((fault ≡ DerEnd.Stopped (stop_at begin Why.NotAValue)) × (Own place.now.module.now place.now.node.now value → ⊥))) }
{
    if own(place.alloc, place.module, place.node, &value.root())? {
        values.append(value.into_trees())?;
        Ok(())
    } else {
        Err(DerEnd::Stopped(Stop {
            at: begin,
            why: Why::NotAValue,
        }))
    }
}

// Returns why a component may not be present with this value.
fn unkept_why(part: &Part<'_>, value: &Node<'_, ValueLabel>) -> Result<Why, Memory>
    requires place { IsPlace 65 part.now.place }
    ensures { IfOk result (λ why. why ≡ reading.unkept_why part.now.place.module.now part.now.component.now part.now.place.node.now value.now) }
{
    if part.component.optional {
        let place = &part.place;
        if is_standard(place.alloc, place.module, part.component, place.node, value)? {
            return Ok(Why::DefaultWritten);
        }
    }
    Ok(Why::NotAValue)
}

/// Appends the value of a component, which was read from an octet on, if the component's default or fixed value allows it (clause 11.5).
pub(crate) fn unless_standard(
    part: &Part<'_>,
    value: Flat<ValueLabel>,
    begin: u64,
    values: &mut Builder<ValueLabel>,
) -> Result<(), DerEnd>
    requires place { IsPlace 65 part.now.place }
    ensures pushed { OnOk result (values.new ≡ added value values.old) }
    ensures ok { OnOk result (Kept part.now.place.module.now part.now.component.now part.now.place.node.now value) }
    ensures err { IfErr result (λ fault. (fault ≡ DerEnd.Memory) ⊎ ((fault ≡ DerEnd.Stopped (stop_at begin (reading.unkept_why part.now.place.module.now part.now.component.now part.now.place.node.now value))) × (Kept part.now.place.module.now part.now.component.now part.now.place.node.now value → ⊥))) }
{
    let Place {
        alloc,
        module,
        node,
        ..
    } = part.place;
    if kept(alloc, module, part.component, node, &value.root())? {
        values.append(value.into_trees())?;
        Ok(())
    } else {
        let why = unkept_why(part, &value.root())?;
        Err(DerEnd::Stopped(Stop { at: begin, why }))
    }
}
