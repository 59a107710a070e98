//! The fixed value and the absence that follow the type of a component.
ghost use Rattle.std.specs.Prelude.{◌≤◌, length};
ghost use Rattle.module_parse.specs.Reads.{Reads, Stays, Moves};
ghost use Rattle.module_parse.specs.Readers.{fixed_absence_at};
ghost use Rattle.module_grammar.specs.ValueReading.{default_at, absence_at};
ghost use Rattle.module_grammar.specs.TypeReading.{ending_at};

use crate::bounds::fixed;
use crate::steps::{again, literal, nothing};
use crate::values::value;
use base_trees::Tree;
use module_grammar::{Reach, Stop};
use module_text::{Absence, PlainOctets, PlainValueLabel};
use std::alloc::Global;

fn default(
    alloc: Global,
    depth: u32,
    bytes: &[u8],
    from: Reach,
) -> Result<(Tree<PlainValueLabel>, Reach), Stop>
    requires { from.at ≤ length bytes.now }
    ensures value { Reads (default_at depth) bytes.now from result }
    ensures within { Moves (length bytes.now) from result }
{
    let next = literal(b" DEFAULT ", bytes, from)?;
    value(alloc, depth, bytes, next)
}

// Reads the absence of a component that has a fixed value.
fn fixed_absence(
    alloc: Global,
    depth: u32,
    bytes: &[u8],
    from: Reach,
) -> Result<(Absence, Reach), Stop>
    requires { from.at ≤ length bytes.now }
    ensures value { Reads (fixed_absence_at depth) bytes.now from result }
    ensures within { Stays (length bytes.now) from result }
{
    match default(alloc, depth, bytes, from) {
        Ok((value, next)) => Ok((Absence::Default { value }, next)),
        Err(stop) => {
            let end = again(from, stop)?;
            Ok((Absence::Never, nothing(end)))
        }
    }
}

// Reads the absence of a component. OPTIONAL appears only without a fixed value.
fn absence(
    alloc: Global,
    depth: u32,
    octets: &Option<PlainOctets>,
    bytes: &[u8],
    from: Reach,
) -> Result<(Absence, Reach), Stop>
    requires { from.at ≤ length bytes.now }
    ensures value { Reads (absence_at depth octets.now) bytes.now from result }
    ensures within { Stays (length bytes.now) from result }
{
    if octets.is_some() {
        return fixed_absence(alloc, depth, bytes, from);
    }
    let other = match literal(b" OPTIONAL", bytes, from) {
        Ok(next) => return Ok((Absence::Optional, next)),
        Err(stop) => again(from, stop)?,
    };
    fixed_absence(alloc, depth, bytes, other)
}

/// Reads a fixed value and the absence. At most `most` values are nested.
pub fn ending(
    alloc: Global,
    most: u32,
    bytes: &[u8],
    from: Reach,
) -> Result<((Option<PlainOctets>, Absence), Reach), Stop>
    requires { from.at ≤ length bytes.now }
    ensures value { Reads (ending_at most) bytes.now from result }
    ensures within { Stays (length bytes.now) from result }
{
    let (octets, behind) = fixed(alloc, bytes, from)?;
    let (absence, next) = absence(alloc, most, &octets, bytes, behind)?;
    Ok(((octets, absence), next))
}
