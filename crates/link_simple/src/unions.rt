//! Unions of parts.
ghost use Rattle.std.specs.Prelude.{◌≡◌, ◌<◌, IfOk, Some, length};
ghost use Rattle.simple_facets.specs.Making.{AreEachSound, lent_spaces};
ghost use Rattle.link_simple.specs.Making.{IsUnion};
ghost use Rattle.link_simple.specs.Private.Parts.{seen_all};
ghost use Rattle.link_simple.specs.Private.Leaving.{LeftBy};

use crate::leaving::Left;
use crate::parts::Part;
use base_texts::Memory;
use link_names::LinkWhy;
use simple_facets::{UnionError, union_of_lent};
use simple_types::Simple;
use std::alloc::Global;

// Returns the types of the parts as references.
fn lent_parts<'p>(alloc: Global, parts: &'p [Part<'_>]) -> Result<Vec<&'p Simple>, Memory>
    ensures { IfOk result (λ lent. lent_spaces lent.items ≡ seen_all parts.now) }
{
    let mut lent = Vec::new(alloc);
    'parts: for part in parts {
        lent.push(part.simple())?;
    }
    Ok(lent)
}

/// Returns the union of the parts, if it is within the limits of a union.
pub(crate) fn union(alloc: Global, parts: &[Part<'_>]) -> Result<Left, Memory>
    requires sound { AreEachSound (seen_all parts.now) }
    requires some { 0 < length parts.now }
    ensures { IfOk result (LeftBy (IsUnion (Some (seen_all parts.now)))) }
{
    let members = lent_parts(alloc, parts)?;
    match union_of_lent(alloc, members.as_slice()) {
        Ok(simple) => Ok(Left::Made(simple)),
        Err(UnionError::Limit) => Ok(Left::Refused(LinkWhy::Limit)),
        Err(UnionError::Memory) => Err(Memory),
    }
}
