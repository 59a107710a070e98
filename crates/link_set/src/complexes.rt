//! Complex types, with the numbers of the components that they name.
ghost use Rattle.std.specs.Prelude.{◌≡◌, Some, map, IfOk, IfSome, if◌then◌else◌};
ghost use Rattle.std.specs.List.{All};
ghost use Rattle.std.specs.Option.{option_map};
ghost use Rattle.base_trees.specs.Rose.{Allowed};
ghost use Rattle.content_models.specs.Kids.{MayHave};
ghost use Rattle.simple_types.specs.declared.standards.Standard.TheVariants.{Free};
ghost use Rattle.schema_components.specs.Components.{model_of};
ghost use Rattle.schema_components.specs.Documents.{doc_of};
ghost use Rattle.schema_components.specs.Seen.{base_of, use_of, uses_in};
ghost use Rattle.link_complex.specs.Seen.{definition_of, definitions_of};
ghost use Rattle.link_set.specs.Ordered.{in_order};
ghost use Rattle.link_set.specs.Parts.{HasWholeModel};
ghost use Rattle.link_set.specs.Sets as told;
ghost use Rattle.link_set.specs.Private.Told.{found_in, told_by};

use crate::elements::AttributeNames;
use crate::tables::ComponentNumbers;
use base_texts::{Memory, Name};
use base_trees::{Tree, Whole};
use content_models::{Particle, ParticleKind, ParticleLabel};
use link_complex::ComplexType;
use schema_components::{
    AttributeUse, ComplexDef, Content, GlobalAttribute, RawBase, RawContent, RawDoc, RawUse, Uses,
};
use simple_types::Standard;
use std::alloc::Global;

fn uses_by_name(mut uses: Vec<AttributeUse>) -> Result<Vec<AttributeUse>, Memory>
    ensures { IfOk result (λ sorted. sorted.items ≡ in_order told.use_before uses.items) }
{
    uses.sort_by(|a, b| a.name.cmp(&b.name))?;
    Ok(uses)
}

/// Returns a copy of the name, if there is one.
pub(crate) fn name_copy(alloc: Global, name: Option<&Name>) -> Result<Option<Name>, Memory>
    ensures { IfOk result (λ copy. copy ≡ option_map (λ a. a.now) name.entry) }
{
    match name {
        Some(name) => {
            let copy = name.copy(alloc)?;
            Ok(Some(copy))
        }
        None => Ok(None),
    }
}

fn simple_of(found: Option<&GlobalAttribute>) -> u32
    ensures { result ≡ told.simple_of_found (option_map (λ g. g.now) found.entry) }
{
    match found {
        Some(attribute) => attribute.simple,
        None => 0,
    }
}

fn standard_of(alloc: Global, found: Option<&GlobalAttribute>) -> Result<Standard, Memory>
    ensures { IfOk result (λ standard. standard ≡ told.standard_of_found (option_map (λ g. g.now) found.entry)) }
{
    match found {
        Some(attribute) => attribute.standard.copy(alloc),
        None => Ok(Standard::Free),
    }
}

fn named_standard<'a>(
    alloc: Global,
    globals: &AttributeNames<'a, '_>,
    attribute: &'a RawUse,
) -> Result<Standard, Memory>
    ensures { IfOk result (λ standard. standard ≡ (if (use_of attribute.now).reference then told.standard_of_found (found_in globals.now attribute.now.name) else Free)) }
{
    if !attribute.reference {
        return Ok(Standard::Free);
    }
    standard_of(alloc, globals.first(&attribute.name))
}

// Returns its own value constraint, or else that of the attribute that it names.
fn own_or_named<'a>(
    alloc: Global,
    globals: &AttributeNames<'a, '_>,
    attribute: &'a RawUse,
) -> Result<Standard, Memory>
    ensures { IfOk result (λ standard. standard ≡ told.own_or attribute.now.standard
        (if (use_of attribute.now).reference then told.standard_of_found (found_in globals.now attribute.now.name) else Free)) }
{
    match &attribute.standard {
        Standard::Free => named_standard(alloc, globals, attribute),
        Standard::Default(_) | Standard::Fixed(_) => attribute.standard.copy(alloc),
    }
}

fn unless_required(required: bool, standard: Standard) -> Standard
    ensures { result ≡ told.unless_required required standard }
{
    match standard {
        Standard::Default(text) => {
            if required {
                Standard::Free
            } else {
                Standard::Default(text)
            }
        }
        Standard::Free => Standard::Free,
        Standard::Fixed(text) => Standard::Fixed(text),
    }
}

fn standard_of_use<'a>(
    alloc: Global,
    globals: &AttributeNames<'a, '_>,
    attribute: &'a RawUse,
) -> Result<Standard, Memory>
    ensures { IfOk result (λ standard. standard ≡ told.standard_of_use (found_in globals.now) (use_of attribute.now)) }
{
    let standard = own_or_named(alloc, globals, attribute)?;
    Ok(unless_required(attribute.required, standard))
}

impl<'a> ComponentNumbers<'a> {
    fn type_of_use(&self, file: u32, kind: &'a Option<RawBase>) -> u32
        ensures { result ≡ told.type_of_use (told_by self.now) file (option_map base_of kind.now) }
    {
        match kind {
            Some(base) => self.simple_of_base(file, base),
            None => 0,
        }
    }

    fn simple_of_use(
        &self,
        globals: &AttributeNames<'a, '_>,
        file: u32,
        attribute: &'a RawUse,
    ) -> u32
        ensures { result ≡ told.simple_of_use (told_by self.now) (found_in globals.now) file (use_of attribute.now) }
    {
        if attribute.reference {
            return simple_of(globals.first(&attribute.name));
        }
        self.type_of_use(file, &attribute.kind)
    }

    fn attribute_use(
        &self,
        alloc: Global,
        globals: &AttributeNames<'a, '_>,
        file: u32,
        attribute: &'a RawUse,
    ) -> Result<AttributeUse, Memory>
        ensures { IfOk result (λ made. made ≡ told.attribute_use (told_by self.now) (found_in globals.now) file (use_of attribute.now)) }
    {
        let name = attribute.name.copy(alloc)?;
        let standard = standard_of_use(alloc, globals, attribute)?;
        Ok(AttributeUse {
            name,
            simple: self.simple_of_use(globals, file, attribute),
            required: attribute.required,
            standard,
        })
    }

    fn attribute_uses(
        &self,
        alloc: Global,
        globals: &AttributeNames<'a, '_>,
        file: u32,
        attributes: &'a [RawUse],
    ) -> Result<Vec<AttributeUse>, Memory>
        ensures { IfOk result (λ made. made.items ≡ map (told.attribute_use (told_by self.now) (found_in globals.now) file) (uses_in attributes.now)) }
    {
        let mut made = Vec::new(alloc);
        'uses: for attribute in attributes {
            let one = self.attribute_use(alloc, globals, file, attribute)?;
            made.push(one)?;
        }
        Ok(made)
    }

    fn uses(
        &self,
        alloc: Global,
        globals: &AttributeNames<'a, '_>,
        complex: ComplexType<'a>,
    ) -> Result<Uses, Memory>
        ensures { IfOk result (λ made. made ≡ told.uses (told_by self.now) (found_in globals.now) (definition_of complex.entry)) }
    {
        let file = complex.place.file;
        let made = self.attribute_uses(alloc, globals, file, complex.body.uses.items())?;
        let sorted = uses_by_name(made)?;
        Ok(Uses::of(sorted))
    }

    fn numbered_kind(
        &self,
        alloc: Global,
        docs: &'a [RawDoc],
        file: u32,
        kind: &ParticleKind,
    ) -> Result<ParticleKind, Memory>
        ensures { IfOk result (λ made. made ≡ told.numbered_kind (told.number_of_declaration (told_by self.now) (map doc_of docs.now) file) kind.now) }
    {
        match kind {
            ParticleKind::Element { decl, name } => {
                let name = name.copy(alloc)?;
                Ok(ParticleKind::Element {
                    decl: self.number_of_declaration(docs, file, *decl),
                    name,
                })
            }
            ParticleKind::Sequence => Ok(ParticleKind::Sequence),
            ParticleKind::Choice => Ok(ParticleKind::Choice),
            ParticleKind::All => Ok(ParticleKind::All),
        }
    }

    fn numbered_label(
        &self,
        alloc: Global,
        docs: &'a [RawDoc],
        file: u32,
        label: &ParticleLabel,
    ) -> Result<ParticleLabel, Memory>
        ensures { IfOk result (λ made. made ≡ told.numbered_label (told.number_of_declaration (told_by self.now) (map doc_of docs.now) file) label.now) }
    {
        let kind = self.numbered_kind(alloc, docs, file, &label.kind)?;
        Ok(ParticleLabel {
            kind,
            min: label.min,
            max: label.max,
            file: label.file,
            at: label.at,
        })
    }

    fn numbered(
        &self,
        alloc: Global,
        docs: &'a [RawDoc],
        file: u32,
        tree: &Tree<ParticleLabel>,
    ) -> Result<Tree<ParticleLabel>, Memory>
        ensures { IfOk result (λ made. made ≡ told.numbered (told.number_of_declaration (told_by self.now) (map doc_of docs.now) file) tree.now) }
    {
        let label = self.numbered_label(alloc, docs, file, tree.label())?;
        let kids = tree.kids();
        let mut made = Vec::new(alloc);
        'kids: for kid in kids {
            let one = self.numbered(alloc, docs, file, kid)?;
            made.push(one)?;
        }
        Ok(Tree::join(label, made))
    }

    fn model(
        &self,
        alloc: Global,
        docs: &'a [RawDoc],
        file: u32,
        model: &Particle,
    ) -> Result<Particle, Memory>
        ensures numbered { IfOk result (λ made. made ≡ told.numbered (told.number_of_declaration (told_by self.now) (map doc_of docs.now) file) model.now) }
        ensures whole { IfOk result (λ made. Allowed MayHave made) }
    {
        let tree = self.numbered(alloc, docs, file, model.root())?;
        Ok(Whole::of(tree))
    }

    fn content(
        &self,
        alloc: Global,
        docs: &'a [RawDoc],
        file: u32,
        content: &'a RawContent,
    ) -> Result<Content, Memory>
        ensures numbered { IfOk result (λ made. made ≡ told.content_of (told_by self.now) (told.number_of_declaration (told_by self.now) (map doc_of docs.now) file) content.now) }
        ensures whole { IfOk result (λ made. IfSome (model_of made) (Allowed MayHave)) }
    {
        match content {
            RawContent::Empty => Ok(Content::Empty),
            RawContent::Simple { base, .. } => Ok(Content::Simple(self.simple_of_reference(base))),
            RawContent::ElementOnly(model) => {
                let made = self.model(alloc, docs, file, model)?;
                Ok(Content::ElementOnly(made))
            }
            RawContent::Mixed(model) => {
                let made = self.model(alloc, docs, file, model)?;
                Ok(Content::Mixed(made))
            }
        }
    }

    fn complex(
        &self,
        alloc: Global,
        globals: &AttributeNames<'a, '_>,
        docs: &'a [RawDoc],
        complex: ComplexType<'a>,
    ) -> Result<ComplexDef, Memory>
        ensures numbered { IfOk result (λ made. made ≡ told.complex (told_by self.now) (found_in globals.now) (map doc_of docs.now) (definition_of complex.entry)) }
        ensures whole { IfOk result HasWholeModel }
    {
        let name = name_copy(alloc, complex.name)?;
        let uses = self.uses(alloc, globals, complex)?;
        let content = self.content(alloc, docs, complex.place.file, &complex.body.content)?;
        Ok(ComplexDef {
            name,
            uses,
            content,
        })
    }

    /// Returns the complex types, if the global attributes are these, with the texts of default and fixed values as written.
    pub(crate) fn complexes(
        &self,
        alloc: Global,
        globals: &AttributeNames<'a, '_>,
        docs: &'a [RawDoc],
        complexes: &[ComplexType<'a>],
    ) -> Result<Vec<ComplexDef>, Memory>
        ensures numbered { IfOk result (λ made. made.items ≡ map (told.complex (told_by self.now) (found_in globals.now) (map doc_of docs.now)) (definitions_of complexes.now)) }
        ensures whole { IfOk result (λ made. All HasWholeModel made.items) }
    {
        let mut made = Vec::new(alloc);
        'complexes: for complex in complexes {
            let one = self.complex(alloc, globals, docs, *complex)?;
            made.push(one)?;
        }
        Ok(made)
    }
}
