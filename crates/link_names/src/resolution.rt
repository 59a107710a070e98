//! Finds the references that name nothing, or the wrong kind of component.
ghost use Rattle.std.specs.Prelude.{◌≡◌, map, IfOk};
ghost use Rattle.std.specs.List.{filter_map};
ghost use Rattle.base_texts.specs.declared.texts.Name.{Name};
ghost use Rattle.schema_components.specs.Documents.{doc_of};
ghost use Rattle.link_names.specs.WalkSeen.{parts_of};
ghost use Rattle.link_names.specs.Globals.{globals_among, is_there};
ghost use Rattle.link_names.specs.declared.global_names.NameKind.TheVariants as kind;
ghost use Rattle.link_names.specs.Private.Mentioned.{mentions_of};
ghost use Rattle.link_names.specs.Order.{IsFirstOf};
ghost use Rattle.link_names.specs.Resolution as resolution;
ghost use Rattle.link_names.specs.Resolution.{names_among, wrong, fault_of, unresolved};
ghost use Rattle.link_names.specs.Seen.{globals_of};
ghost use Rattle.link_names.specs.Private.Tables.{holds};
ghost use Rattle.link_names.specs.Private.NameTables.{told_by, Agree};

use crate::faults::{LinkWhy, LinkingFault, earlier};
use crate::global_names::{NameKind, NamedPart, globals_among};
use crate::name_tables::{NameTable, TypeNames};
use crate::parts::Part;
use crate::references::{Mention, Need, mentions};
use crate::walk::all_parts;
use base_texts::{Memory, Name};
use schema_components::RawDoc;
use std::alloc::Global;
use std::collections::BTreeSet;

fn names_of<'a>(alloc: Global, globals: &[NamedPart<'a>]) -> Result<BTreeSet<&'a Name>, Memory>
    ensures { IfOk result (λ names. (a : Name) → holds names a ≡ is_there (globals_of globals.now) a) }
{
    let mut names = BTreeSet::new(alloc);
    'globals: for global in globals {
        names.insert(global.name)?;
    }
    Ok(names)
}

fn names_among<'a>(
    alloc: Global,
    kind: NameKind,
    parts: &[Part<'a>],
) -> Result<BTreeSet<&'a Name>, Memory>
    ensures { IfOk result (λ names. (a : Name) → holds names a ≡ is_there (globals_among kind (parts_of parts.now)) a) }
{
    let globals = globals_among(alloc, kind, parts)?;
    names_of(alloc, &globals)
}

fn types_among<'a>(alloc: Global, parts: &[Part<'a>]) -> Result<TypeNames<'a>, Memory>
    ensures { IfOk result (λ names. (a : Name) → (holds names.all a ≡ is_there (globals_among kind.Type (parts_of parts.now)) a)
        × (holds names.complexes a ≡ is_there (globals_among kind.ComplexType (parts_of parts.now)) a)) }
{
    let all = names_among(alloc, NameKind::Type, parts)?;
    let complexes = names_among(alloc, NameKind::ComplexType, parts)?;
    Ok(TypeNames { all, complexes })
}

fn name_table<'a>(alloc: Global, parts: &[Part<'a>]) -> Result<NameTable<'a>, Memory>
    ensures { IfOk result (λ table. Agree (told_by table) (names_among (parts_of parts.now))) }
{
    let elements = names_among(alloc, NameKind::Element, parts)?;
    let attributes = names_among(alloc, NameKind::Attribute, parts)?;
    let types = types_among(alloc, parts)?;
    Ok(NameTable {
        elements,
        attributes,
        types,
    })
}

fn unless_there(there: bool) -> Option<LinkWhy>
    ensures { result ≡ resolution.unless_there there }
{
    if there {
        return None;
    }
    Some(LinkWhy::Unresolved)
}

impl<'a> NameTable<'a> {
    // Returns what is wrong with a reference, if anything is.
    fn wrong(&self, need: Need, name: &'a Name) -> Option<LinkWhy>
        ensures { result ≡ wrong (told_by self.now) need name.now }
    {
        match need {
            Need::Element => unless_there(self.elements.contains(&name)),
            Need::Attribute => unless_there(self.attributes.contains(&name)),
            Need::Type => unless_there(self.types.all.contains(&name)),
            Need::Simple => {
                if self.types.complexes.contains(&name) {
                    return Some(LinkWhy::ComplexBase);
                }
                unless_there(self.types.all.contains(&name))
            }
        }
    }

    // Returns the first fault among those of the references.
    fn first_wrong(&self, mentions: &[Mention<'a>]) -> Option<LinkingFault>
        ensures { IsFirstOf (filter_map (fault_of (told_by self.now)) (mentions_of mentions.now)) result }
    {
        let mut found = None;
        'mentions: for mention in mentions {
            if let Some(why) = self.wrong(mention.need, mention.name) {
                let fault = LinkingFault {
                    place: mention.place,
                    why,
                };
                found = earlier(found, fault);
            }
        }
        found
    }
}

/// Returns the first reference that names nothing, or names a complex type where a simple one is needed. The time grows as n log
/// n with the number of names, whatever they are.
pub fn first_unresolved(alloc: Global, docs: &[RawDoc]) -> Result<Option<LinkingFault>, Memory>
    ensures { IfOk result (λ found. IsFirstOf (unresolved (map doc_of docs.now)) found) }
{
    let parts = all_parts(alloc, docs)?;
    let parts = parts.as_slice();
    let table = name_table(alloc, parts)?;
    let mentions = mentions(alloc, parts)?;
    Ok(table.first_wrong(&mentions))
}
