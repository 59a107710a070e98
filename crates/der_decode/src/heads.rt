//! What precedes the contents of a node, and whether one node more is allowed.
ghost use Rattle.std.specs.Prelude.{◌≡◌, ◌<◌, ◌≤◌, true, false, IfOk, IfErr, OnOk, length};
ghost use Rattle.der_fields.specs.Encoding.{identifier};
ghost use Rattle.der_fields.specs.Reading as reading;
ghost use Rattle.der_decode.specs.declared.faults.DerEnd.TheVariants as faults;
ghost use Rattle.der_decode.specs.Private.Showing.{ShowsHead};

use crate::faults::DerEnd;
use crate::fields::{Window, sized};
use crate::identifiers::{begins_so, identifier_size};
use asn_types::Form;
use base_codecs::Spot;
use der_fields::{Stop, Why};

/// The greatest nesting depth of elements.
const MOST_DEEP: u32 = 64;

/// The greatest number of nodes of a value.
const MOST_NODES: u32 = 1_048_576;

/// Returns the stop if what is here is not one of the expected parts, or if there is nothing.
pub(crate) fn unexpected(octets: &[u8], spot: Spot) -> Stop
    ensures { result ≡ reading.unexpected octets.now spot }
{
    let why = if spot.at < octets.len() as u64 {
        Why::Tag
    } else {
        Why::Missing
    };
    Stop { at: spot.at, why }
}

/// Returns an error if one node more is not allowed here, at nesting depth `depth`.
pub(crate) fn enter(depth: u32, spot: Spot) -> Result<(), Stop>
    ensures ok { OnOk result (reading.is_over depth spot ≡ false) }
    ensures few { OnOk result ((depth ≤ 64) × (spot.nodes < 1048576)) }
    ensures err { IfErr result (λ stop. (reading.is_over depth spot ≡ true) × (stop ≡ reading.over depth spot)) }
{
    if depth > MOST_DEEP {
        return Err(Stop {
            at: spot.at,
            why: Why::TooDeep,
        });
    }
    if spot.nodes >= MOST_NODES {
        return Err(Stop {
            at: spot.at,
            why: Why::TooMany,
        });
    }
    Ok(())
}

/// Reads the identifier and the length of a node with an identifier. Returns where its contents are.
pub(crate) fn head(
    octets: &[u8],
    spot: Spot,
    depth: u32,
    tag: Option<u32>,
    form: &Form,
) -> Result<Window, DerEnd>
    requires inside { spot.at ≤ length octets.now }
    ensures inside { IfOk result (λ w. (spot.at < w.at) × (w.at ≤ w.end) × (w.end ≤ length octets.now)) }
    ensures few { OnOk result ((depth ≤ 64) × (spot.nodes < 1048576)) }
    ensures gives { ShowsHead result depth (identifier tag form.now) octets.now spot }
{
    if !begins_so(octets, spot.at, tag, form) {
        return Err(DerEnd::Stopped(Stop {
            at: spot.at,
            why: Why::Tag,
        }));
    }
    enter(depth, spot)?;
    let behind = Spot {
        at: spot.at + identifier_size(tag, form),
        nodes: spot.nodes + 1,
    };
    let window = sized(octets, behind)?;
    Ok(window)
}
