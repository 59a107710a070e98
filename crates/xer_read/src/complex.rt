//! The value of an element that has a complex type or may be nil, except its child elements.
ghost use Rattle.std.specs.Prelude.{◌≡◌, ◌<◌, ◌≤◌, ◌∷◌, [], true, false, length, ℕ, List, Option, All, OnOk, MatchOption, MatchResult};
ghost use Rattle.base_trees.specs.Rose.{Rose, roses_of, none};
ghost use Rattle.base_flat_trees.specs.Zips.{Zip, opened, added};
ghost use Rattle.simple_types.specs.declared.labels.ValueLabel.{ValueLabel};
ghost use Rattle.simple_types.specs.Seen.{space_of};
ghost use Rattle.simple_types.specs.Space.{Space};
ghost use Rattle.simple_types.specs.Sound.{Sound};
ghost use Rattle.xml_read.specs.Sound.{are_sound};
ghost use Rattle.xer_read.specs.Private.Given.{IsReadAs};
ghost use Rattle.schema_components.specs.SetParts.{parts_of};
ghost use Rattle.validity_rules.specs.Asked as asked;
ghost use Rattle.validity_rules.specs.Faults.{FirstKid, why_kid};
ghost use Rattle.validity_check.specs.Answers.{Tells, TextFault};
ghost use Rattle.validity_check.specs.Told.{inside_told, told};
ghost use Rattle.value_builder.specs.Built.{Stands, Puts, flagged, with_parts};
ghost use Rattle.value_contents.specs.Made.{Child};
ghost use Rattle.xer_read.specs.Private.Slots.{Keeps, part_flags, part_values, order_value};
ghost use Rattle.xer_read.specs.Private.Keeping.{strings_put};
ghost use Rattle.xer_read.specs.Private.Contents.{is_plain_at, in_any_order, OrderMade, NothingMade, IsNilFilled, Begins, IsGathered, ComplexPut};
ghost use Rattle.xer_read.specs.Private.Opened.{IsOpened};
ghost use Rattle.xer_read.specs.Private.Putting.{PartsPut};

use crate::attributes::put_attributes;
use crate::gathering::Gathered;
use crate::orders::any_order;
use crate::strings::put_texts;
use crate::texts::put_text;
use crate::walk::Element;
use base_texts::Memory;
use schema_components::TypeOf;
use simple_types::{Flags, Simple, ValueLabel};
use std::alloc::Global;
use validity_check::{CheckError, Inside, PlannedSet, check_empty, check_no_content};
use validity_rules::InvalidWhy;
use value_builder::ValueBuilder;
use xml_items::ItemKids;

/// Returns the type whose value is the element's, if the element has a simple type and can't be nil.
pub(crate) fn plain_type<'a>(set: &PlannedSet, decl: u32, inside: Inside<'a>) -> Option<&'a Simple>
    requires { decl < length set.now.elements }
    ensures { MatchOption result
        ((space : Space) → inside_told inside.entry ≡ asked.simple space → is_plain_at set.now decl ≡ false)
        (λ simple. (inside.entry ≡ Inside.Simple simple) × (is_plain_at set.now decl ≡ true)) }
{
    match inside {
        Inside::Nothing => None,
        Inside::Children { .. } => None,
        Inside::Simple(simple) => {
            let element = set.element(decl);
            match element.kind {
                TypeOf::Complex(_) => None,
                TypeOf::Simple(_) => { if element.nillable { None } else { Some(simple) } }
            }
        }
    }
}

pub(crate) fn no_components() -> ValueLabel
    ensures { result ≡ ValueLabel.Sequence [] }
{
    ValueLabel::Sequence {
        present: Flags::none(),
    }
}

// Appends the numbers as a SEQUENCE OF ENUMERATED.
fn put_numbers(numbers: &[u32], values: &mut ValueBuilder) -> Result<(), Memory>
    ensures { OnOk result (Puts (added (order_value numbers.now)) values.old values.new) }
{
    values.open(ValueLabel::SequenceOf)?;
    'numbers: for number in numbers {
        values.leaf(ValueLabel::Enum(*number))?;
    }
    values.close();
    Ok(())
}

// Appends the part for the order of child elements, or no part if they come in the order of the content model.
fn put_order(inside: Inside<'_>, numbers: &[u32], values: &mut ValueBuilder) -> Result<(), Memory>
    ensures { OnOk result (PartsPut (OrderMade (in_any_order (inside_told inside.entry)) numbers.now) values.old values.new) }
{
    match any_order(inside) {
        None => Ok(()),
        Some(_) => {
            values.part(true)?;
            put_numbers(numbers, values)
        }
    }
}

/// Opens a SEQUENCE and appends the parts for texts, for the order of child elements of an all, and for attributes.
pub(crate) fn begin_complex(
    alloc: Global,
    element: &Element,
    nil: bool,
    numbers: &[u32],
    values: &mut ValueBuilder,
) -> Result<(), Memory>
    requires opened { IsOpened element.now }
    ensures { OnOk result (Begins (told (parts_of element.now.set.now) element.now.declared) element.now.attributes.now (strings_put nil (roses_of element.now.parent.kids)) numbers.now values.old values.new) }
{
    let declared = element.declared;
    values.open(no_components())?;
    put_texts(alloc, declared.inside, nil, &element.parent.kids, values)?;
    put_order(declared.inside, numbers, values)?;
    put_attributes(
        alloc,
        element.set,
        &declared.uses,
        element.attributes,
        values,
    )
}

// Appends the part for an empty content if the element may be nil, and else nothing.
fn put_nothing(nillable: bool, values: &mut ValueBuilder) -> Result<(), Memory>
    ensures { OnOk result (PartsPut (NothingMade nillable) values.old values.new) }
{
    if nillable {
        values.part(true)?;
        values.leaf(no_components())
    } else {
        Ok(())
    }
}

/// Appends one part, a SEQUENCE, and leaves it open.
pub(crate) fn begin_part(values: &mut ValueBuilder) -> Result<(), Memory>
    ensures { OnOk result (Puts (λ z. opened (ValueLabel.Sequence []) (flagged true z)) values.old values.new) }
{
    values.part(true)?;
    values.open(no_components())
}

/// Checks that an element with an empty content model is empty.
pub(crate) fn walk_nothing(
    nillable: bool,
    kids: &ItemKids<'_>,
    values: &mut ValueBuilder,
) -> Result<(), CheckError>
    ensures { MatchResult result
        (λ _. (roses_of kids.now ≡ none) × PartsPut (NothingMade nillable) values.old values.new)
        (Tells (FirstKid (roses_of kids.now) why_kid)) }
{
    check_no_content(kids.again())?;
    put_nothing(nillable, values)?;
    Ok(())
}

/// Reads an element with only a text, and appends its value as a part.
pub(crate) fn walk_text(
    simple: &Simple,
    at: u64,
    kids: &ItemKids<'_>,
    values: &mut ValueBuilder,
) -> Result<(), CheckError>
    requires simple { Sound (space_of simple.now) }
    requires sound { are_sound (roses_of kids.now) ≡ true }
    ensures { MatchResult result
        (λ _. (v : Rose ValueLabel) × IsReadAs (space_of simple.now) (roses_of kids.now) v × Puts (with_parts (true ∷ []) (v ∷ [])) values.old values.new)
        (Tells (TextFault (space_of simple.now) (roses_of kids.now) at)) }
{
    values.part(true)?;
    put_text(simple, at, kids, values)
}

// Appends the value of an element that is nil, and so has no children.
fn put_nil(alloc: Global, element: &Element, values: &mut ValueBuilder) -> Result<(), Memory>
    requires opened { IsOpened element.now }
    ensures { OnOk result ((v : Rose ValueLabel) × IsNilFilled (told (parts_of element.now.set.now) element.now.declared) element.now.attributes.now v × Puts (added v) values.old values.new) }
{
    begin_complex(alloc, element, true, &[], values)?;
    values.part(false)?;
    values.close();
    Ok(())
}

/// Checks that an element that is nil has no children, and appends its value.
pub(crate) fn walk_nil(
    alloc: Global,
    element: &Element,
    values: &mut ValueBuilder,
) -> Result<(), CheckError>
    requires opened { IsOpened element.now }
    ensures { MatchResult result
        (λ _. (roses_of element.now.parent.kids ≡ none) × ((v : Rose ValueLabel) × IsNilFilled (told (parts_of element.now.set.now) element.now.declared) element.now.attributes.now v × Puts (added v) values.old values.new))
        (Tells (FirstKid (roses_of element.now.parent.kids) (λ _. InvalidWhy.NilWithContent))) }
{
    check_empty(element.parent.kids.again())?;
    put_nil(alloc, element, values)?;
    Ok(())
}

// Appends the parts for the child elements of an all. They are within one part if the element may be nil.
fn put_gathered(nillable: bool, gathered: Gathered, values: &mut ValueBuilder) -> Result<(), Memory>
    requires most { gathered.most ≡ values.old.most }
    requires outside { 1 ≤ values.old.most → gathered.outside ≤ values.old.nodes }
    requires keeps { (numbers : List ℕ) × (children : List (Option Child)) × Keeps gathered numbers children }
    requires stands { (z : Zip ValueLabel) × Stands values.old z }
    ensures { OnOk result ((numbers : List ℕ) (children : List (Option Child)) → Keeps gathered numbers children
        → Puts (with_parts (part_flags nillable children) (part_values nillable children)) values.old values.new) }
{
    if !nillable {
        return gathered.put_parts(values);
    }
    begin_part(values)?;
    gathered.put_parts(values)?;
    values.close();
    Ok(())
}

/// Appends the value of an element whose child elements came in any order and are gathered.
pub(crate) fn put_any_order(
    alloc: Global,
    element: &Element,
    gathered: Gathered,
    values: &mut ValueBuilder,
) -> Result<(), Memory>
    requires opened { IsOpened element.now }
    requires most { gathered.most ≡ values.old.most }
    requires outside { gathered.outside ≡ values.old.nodes }
    requires gathered { IsGathered element.now.set.now (inside_told element.now.declared.inside) (roses_of element.now.parent.kids) gathered }
    requires stands { (z : Zip ValueLabel) × Stands values.old z }
    ensures limit { OnOk result (values.new.most ≡ values.old.most) }
    ensures put { OnOk result ((z : Zip ValueLabel) → Stands values.old z
        → ComplexPut element.now.set.now (told (parts_of element.now.set.now) element.now.declared) element.now.attributes.now (roses_of element.now.parent.kids) z values.new) }
{
    let numbers = gathered.numbers();
    begin_complex(alloc, element, false, numbers, values)?;
    put_gathered(element.declared.nillable, gathered, values)?;
    values.close();
    Ok(())
}
