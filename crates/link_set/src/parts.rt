//! The parts of the set of several documents.
ghost use Rattle.std.specs.Prelude.{◌≡◌, length, map, IfOk};
ghost use Rattle.std.specs.List.{All};
ghost use Rattle.simple_types.specs.Seen.{space_of};
ghost use Rattle.simple_types.specs.Sound.{Sound};
ghost use Rattle.schema_components.specs.declared.components.SimpleDef.{SimpleDef as SimpleDefOf};
ghost use Rattle.schema_components.specs.Documents.{doc_of};
ghost use Rattle.link_simple.specs.Answering.{AreSound};
ghost use Rattle.link_set.specs.Builtins as builtins_told;
ghost use Rattle.link_set.specs.Few.{AreFew};
ghost use Rattle.link_set.specs.Sets as told;
ghost use Rattle.link_set.specs.Private.Told.{listed_by, told_by};
ghost use Rattle.link_set.specs.Parts.{parts_made, HasWholeModel};
ghost use Rattle.link_set.specs.Written.{lists_of};

use crate::builtins::used_builtins;
use crate::elements::AttributeNames;
use crate::listing::Listed;
use crate::simples::simples;
use crate::spelling::{spelled_attributes, spelled_complexes};
use crate::tables::{ComponentNumbers, count};
use base_texts::Memory;
use schema_components::{ComplexDef, ElementDecl, GlobalAttribute, RawDoc, SimpleDef};
use simple_types::{Builtin, Simple};
use std::alloc::Global;

/// The components of a set, each kind in the order of its numbers; the first `globals` elements are the global ones.
#[derive(Drop)]
pub struct SetParts {
    pub elements: Vec<ElementDecl>,
    pub globals: u32,
    pub simples: Vec<SimpleDef>,
    pub complexes: Vec<ComplexDef>,
    pub attributes: Vec<GlobalAttribute>,
}

/// The components of a set without its simple types, with the texts of default and fixed values as written.
#[derive(Drop)]
struct Declarations {
    elements: Vec<ElementDecl>,
    globals: u32,
    complexes: Vec<ComplexDef>,
    attributes: Vec<GlobalAttribute>,
}

// Returns the complex types, if these are the global attributes.
fn complexes<'a>(
    alloc: Global,
    docs: &'a [RawDoc],
    listed: &Listed<'a>,
    numbers: &ComponentNumbers<'a>,
    attributes: &[GlobalAttribute],
) -> Result<Vec<ComplexDef>, Memory>
    requires { attributes.now ≡ told.attributes (told_by numbers.now) (listed_by listed.now).attributes }
    ensures numbered { IfOk result (λ made. made.items ≡ told.complexes (told_by numbers.now) (map doc_of docs.now) (listed_by listed.now)) }
    ensures whole { IfOk result (λ made. All HasWholeModel made.items) }
{
    let names = AttributeNames::of(alloc, &listed.attributes, attributes)?;
    numbers.complexes(alloc, &names, docs, &listed.types.complexes)
}

fn declared<'a>(
    alloc: Global,
    docs: &'a [RawDoc],
    listed: &Listed<'a>,
    numbers: &ComponentNumbers<'a>,
) -> Result<Declarations, Memory>
    requires { AreFew (listed_by listed.now) }
    ensures numbered { IfOk result (λ made. (made.elements.items ≡ told.elements (told_by numbers.now) (listed_by listed.now))
        × (made.globals ≡ length (listed_by listed.now).globals)
        × (made.complexes.items ≡ told.complexes (told_by numbers.now) (map doc_of docs.now) (listed_by listed.now))
        × (made.attributes.items ≡ told.attributes (told_by numbers.now) (listed_by listed.now).attributes)) }
    ensures whole { IfOk result (λ made. All HasWholeModel made.complexes.items) }
{
    let globals = count(listed.elements.globals.len());
    let elements = numbers.elements(alloc, listed)?;
    let attributes = numbers.attributes(alloc, &listed.attributes)?;
    let complexes = complexes(alloc, docs, listed, numbers, &attributes)?;
    Ok(Declarations {
        elements,
        globals,
        complexes,
        attributes,
    })
}

// Returns the set of these components, with default and fixed values in canonical spelling.
fn spelled(
    alloc: Global,
    simples: Vec<SimpleDef>,
    declarations: Declarations,
) -> Result<SetParts, Memory>
    requires sound { All (λ (t : SimpleDefOf). Sound (space_of t.space)) simples.items }
    requires whole { All HasWholeModel declarations.complexes.items }
    ensures spelled { IfOk result (λ made. (made.elements ≡ declarations.elements) × (made.globals ≡ declarations.globals)
        × (made.simples ≡ simples)
        × (made.complexes.items ≡ map (told.spelled_complex (told.named_spaces simples.items)) declarations.complexes.items)
        × (made.attributes.items ≡ map (told.spelled_attribute (told.named_spaces simples.items)) declarations.attributes.items)) }
    ensures whole { IfOk result (λ made. All HasWholeModel made.complexes.items) }
{
    let attributes = spelled_attributes(alloc, &simples, declarations.attributes)?;
    let complexes = spelled_complexes(alloc, &simples, declarations.complexes)?;
    Ok(SetParts {
        elements: declarations.elements,
        globals: declarations.globals,
        simples,
        complexes,
        attributes,
    })
}

/// Returns the parts of the set of the documents, which have few components, and whose simple types have these spaces in the
/// order of `link_names::simple_types`. The time grows as n log n with the number of components.
pub fn set_parts(alloc: Global, docs: &[RawDoc], spaces: Vec<Simple>) -> Result<SetParts, Memory>
    requires few { AreFew (lists_of (map doc_of docs.now)) }
    requires sound { AreSound spaces.items }
    ensures set { IfOk result (λ made. parts_made made ≡ told.set_of (map doc_of docs.now) (map space_of spaces.items)) }
    ensures whole { IfOk result (λ made. All HasWholeModel made.complexes.items) }
{
    let listed = Listed::of(alloc, docs)?;
    let used = used_builtins(alloc, &listed)?;
    let numbers = ComponentNumbers::of(alloc, &listed, &used)?;
    let declarations = declared(alloc, docs, &listed, &numbers)?;
    let simples = simples(alloc, docs, spaces, &used)?;
    spelled(alloc, simples, declarations)
}
