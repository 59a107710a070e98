//! The limits on schema documents.
ghost use Rattle.std.specs.Prelude.{◌≡◌};
ghost use Rattle.schema_faults.specs.Limits as limit;

use base_texts::Text;
use base_trees::Tree;
use schema_syntax::{ChildSet, ElementRole, child_count, is_large, value_of};
use xml_read::ItemLabel;

/// The greatest number of nested groups in one content model.
const MOST_LEVELS: u32 = 16;

const MOST_PARTICLES: usize = 500;

const MOST_ATTRIBUTES: usize = 400;

const MOST_ENUMERATIONS: usize = 10_000;

// Returns whether the value of the attribute of this name is a number of 2^32 or more.
fn has_large(name: &str, own: &[(Text, Text)]) -> bool
    ensures { result ≡ limit.has_large name.now own.now }
{
    match value_of(name, own) {
        Some(value) => is_large(value.bytes()),
        None => false,
    }
}

// Returns whether there are too many levels or children. `level` groups of the same content model are around it.
fn is_too_large(role: ElementRole, level: u32, kids: &[Tree<ItemLabel>]) -> bool
    ensures { result ≡ limit.is_too_large role level kids.now }
{
    match role {
        ElementRole::Sequence | ElementRole::Choice | ElementRole::All => {
            MOST_LEVELS <= level || MOST_PARTICLES < child_count(ChildSet::TakenParticles, kids)
        }
        ElementRole::GlobalComplexType | ElementRole::InnerComplexType | ElementRole::Extension => {
            MOST_ATTRIBUTES < child_count(ChildSet::Attributes, kids)
        }
        ElementRole::Restriction => MOST_ENUMERATIONS < child_count(ChildSet::Enumerations, kids),
        _ => false,
    }
}

/// Returns whether it is over a limit. `level` groups of the same content model are around it.
pub fn is_over_limit(
    role: ElementRole,
    level: u32,
    own: &[(Text, Text)],
    kids: &[Tree<ItemLabel>],
) -> bool
    ensures { result ≡ limit.is_over_limit role level own.now kids.now }
{
    has_large("minOccurs", own) || has_large("maxOccurs", own) || is_too_large(role, level, kids)
}

/// Returns the number of groups of the same content model around the children of an element with `level` groups around it. 17
/// means that number or a greater one.
pub fn level_inside(role: ElementRole, level: u32) -> u32
    ensures { result ≡ limit.level_inside role level }
{
    match role {
        ElementRole::Sequence | ElementRole::Choice | ElementRole::All => {
            if level < 17 { level + 1 } else { 17 }
        }
        ElementRole::GlobalComplexType | ElementRole::InnerComplexType => 0,
        _ => level,
    }
}
