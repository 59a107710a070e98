//! Global components of one name.
ghost use Rattle.std.specs.Prelude.{◌≡◌, ◌++◌, List, map, IfOk};
ghost use Rattle.base_texts.specs.declared.texts.Name.{Name};
ghost use Rattle.schema_components.specs.Documents.{doc_of};
ghost use Rattle.link_names.specs.WalkSeen.{parts_of};
ghost use Rattle.link_names.specs.declared.faults.LinkingFault.{LinkingFault};
ghost use Rattle.link_names.specs.declared.faults.LinkWhy.TheVariants.{Duplicate};
ghost use Rattle.link_names.specs.Globals.{duplicates, globals_among, repeated};
ghost use Rattle.link_names.specs.Order.{IsFirstOf};
ghost use Rattle.link_names.specs.Seen.{globals_of};
ghost use Rattle.link_names.specs.Private.Tables.{place_in, first_place, lesser, stands_before};

use crate::faults::{LinkWhy, LinkingFault, earlier};
use crate::global_names::{NameKind, NamedPart, globals_among};
use crate::parts::Part;
use crate::places::Place;
use crate::walk::all_parts;
use base_texts::{Memory, Name};
use schema_components::RawDoc;
use std::alloc::Global;
use std::collections::BTreeMap;

// Returns the lesser of the place and that which the table has for the name.
fn lesser<'a>(table: &BTreeMap<&'a Name, Place>, name: &'a Name, place: Place) -> Place
    ensures { result ≡ lesser place (place_in table.now name.now) }
{
    match table.get(&name) {
        Some(other) if other.is_before(place) => *other,
        _ => place,
    }
}

// Returns the place of the first component of each name.
fn first_places<'a>(
    alloc: Global,
    globals: &[NamedPart<'a>],
) -> Result<BTreeMap<&'a Name, Place>, Memory>
    ensures { IfOk result (λ places. (a : Name) → place_in places a ≡ first_place (globals_of globals.now) a) }
{
    let mut places = BTreeMap::new(alloc);
    let mut i = globals.len();
    'last_first: while i > 0 {
        i -= 1;
        let global = globals[i];
        let place = lesser(&places, global.name, global.place);
        places.insert(global.name, place)?;
    }
    Ok(places)
}

// Returns whether a component of the name precedes this one.
fn is_repeated<'a>(places: &BTreeMap<&'a Name, Place>, global: NamedPart<'a>) -> bool
    ensures { result ≡ stands_before (place_in places.now global.entry.name.now) global.entry.place }
{
    match places.get(&global.name) {
        Some(first) => first.is_before(global.place),
        None => false,
    }
}

/// Returns the first fault, for this reason, of what was found before and of the components that another one of the same name
/// precedes. The time grows as n log n with their number.
pub fn first_repeated<'a>(
    alloc: Global,
    globals: &[NamedPart<'a>],
    why: LinkWhy,
    found: Option<LinkingFault>,
) -> Result<Option<LinkingFault>, Memory>
    ensures { (fs : List LinkingFault) → IsFirstOf fs found → IfOk result (λ first. IsFirstOf (fs ++ repeated why (globals_of globals.now)) first) }
{
    let places = first_places(alloc, globals)?;
    let mut first = found;
    'globals: for global in globals {
        if is_repeated(&places, *global) {
            let fault = LinkingFault {
                place: global.place,
                why,
            };
            first = earlier(first, fault);
        }
    }
    Ok(first)
}

fn first_of_kind(
    alloc: Global,
    kind: NameKind,
    parts: &[Part<'_>],
    found: Option<LinkingFault>,
) -> Result<Option<LinkingFault>, Memory>
    ensures { (fs : List LinkingFault) → IsFirstOf fs found → IfOk result (λ first. IsFirstOf (fs ++ repeated Duplicate (globals_among kind (parts_of parts.now))) first) }
{
    let globals = globals_among(alloc, kind, parts)?;
    first_repeated(alloc, &globals, LinkWhy::Duplicate, found)
}

/// Returns the first global element, attribute or type whose name an earlier one of its kind has. Simple and complex types are
/// one kind. The time grows as n log n with their number, whatever their names are.
pub fn first_duplicate(alloc: Global, docs: &[RawDoc]) -> Result<Option<LinkingFault>, Memory>
    ensures { IfOk result (λ found. IsFirstOf (duplicates (map doc_of docs.now)) found) }
{
    let parts = all_parts(alloc, docs)?;
    let parts = parts.as_slice();
    let found = first_of_kind(alloc, NameKind::Element, parts, None)?;
    let found = first_of_kind(alloc, NameKind::Attribute, parts, found)?;
    first_of_kind(alloc, NameKind::Type, parts, found)
}
