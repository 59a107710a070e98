//! The global components of several documents, each kind in one list.
ghost use Rattle.std.specs.Prelude.{◌≡◌, ◌++◌, IfOk, OnOk};
ghost use Rattle.link_names.specs.WalkSeen.{name_of, what_of, part_of, parts_of};
ghost use Rattle.link_names.specs.Globals as told;
ghost use Rattle.link_names.specs.Seen.{globals_of};

use crate::parts::{Part, What};
use crate::places::Place;
use base_texts::{Memory, Name};
use std::alloc::Global;

/// The kinds of global components whose names are looked up together.
#[derive(Clone, Copy)]
pub(crate) enum NameKind {
    Element,
    Attribute,
    /// Simple and complex types.
    Type,
    ComplexType,
}

/// A component with its name and its place.
#[derive(Clone, Copy)]
pub struct NamedPart<'a> {
    /// Its expanded name.
    pub name: &'a Name,
    /// The place of its element.
    pub place: Place,
}

// Returns the name of a part, if it is a global component of the kind.
fn name_in<'a>(kind: NameKind, what: What<'a>) -> Option<&'a Name>
    ensures { name_of result ≡ told.name_in kind (what_of what.entry) }
{
    match kind {
        NameKind::Element => match what {
            What::GlobalElement(element) => Some(&element.name),
            _ => None,
        },
        NameKind::Attribute => match what {
            What::GlobalAttribute(attribute) => Some(&attribute.name),
            _ => None,
        },
        NameKind::Type => match what {
            What::SimpleDefinition { name, .. } => name,
            What::ComplexDefinition { name, .. } => name,
            _ => None,
        },
        NameKind::ComplexType => match what {
            What::ComplexDefinition { name, .. } => name,
            _ => None,
        },
    }
}

fn push_part<'a>(kind: NameKind, part: Part<'a>, out: &mut Vec<NamedPart<'a>>) -> Result<(), Memory>
    ensures { OnOk result (globals_of out.new.items ≡ globals_of out.old.items ++ told.of_part kind (part_of part.entry)) }
{
    if let Some(name) = name_in(kind, part.what) {
        out.push(NamedPart {
            name,
            place: Place {
                file: part.file,
                at: part.at,
            },
        })?;
    }
    Ok(())
}

/// Returns the global components of the kind among these parts.
pub(crate) fn globals_among<'a>(
    alloc: Global,
    kind: NameKind,
    parts: &[Part<'a>],
) -> Result<Vec<NamedPart<'a>>, Memory>
    ensures { IfOk result (λ found. globals_of found.items ≡ told.globals_among kind (parts_of parts.now)) }
{
    let mut found = Vec::new(alloc);
    'parts: for part in parts {
        push_part(kind, *part, &mut found)?;
    }
    Ok(found)
}
