//! Decodes a value from octets.
ghost use Rattle.std.specs.Prelude.{◌≡◌, ◌<◌, ℕ, IfOk, length, slice_index};
ghost use Rattle.asn_types.specs.Modules.{IsModule};
ghost use Rattle.asn_types.specs.Refs.{IsOf};
ghost use Rattle.asn_values.specs.Values.{In};
ghost use Rattle.der_fields.specs.Reading.{root_at, start};
ghost use Rattle.der_decode.specs.Answers.{Says};
ghost use Rattle.der_decode.specs.Private.Showing.{Shows, error_of};

use crate::decoded::Decoded;
use crate::errors::DecodeError;
use crate::faults::DerEnd;
use crate::nodes::node;
use crate::places::{Input, Place};
use asn_types::{Module, TypeLabel, resolve};
use base_codecs::Spot;
use base_flat_trees::{Builder, Flat, Whole};
use base_trees::Tree;
use der_fields::{Stop, Why};
use simple_types::ValueLabel;
use std::alloc::Global;

// Makes it known that octets are below 256, as their type implies.
fn see_octets(octets: &[u8])
    ensures { (k : ℕ) → slice_index octets.now k < 256 }
{}

// Reads the root of a value. Returns the spot after it, too.
fn root(
    alloc: Global,
    module: &Module,
    body: &Tree<TypeLabel>,
    octets: &[u8],
) -> Result<(Flat<ValueLabel>, Spot), DerEnd>
    requires known { IsModule module.now }
    requires of { IsOf module.now body.now }
    ensures gives { Shows (λ read. (read.0, read.1)) result (root_at module.now body.now octets.now start) }
{
    if octets.is_empty() {
        return Err(DerEnd::Stopped(Stop {
            at: 0,
            why: Why::Short,
        }));
    }
    let mut values = Builder::new(alloc);
    let place = Place {
        alloc,
        module,
        depth: 1,
        tag: None,
        node: body,
        found: resolve(module, body),
    };
    let spot = Spot { at: 0, nodes: 0 };
    let behind = node(Input { octets, spot }, &place, &mut values)?;
    Ok((values.finish_one(), behind))
}

// Returns the error that the caller gets for a fault.
fn told(fault: DerEnd) -> DecodeError
    ensures { result ≡ error_of fault }
{
    match fault {
        DerEnd::Stopped(stop) => DecodeError::Bad {
            at: stop.at,
            why: stop.why,
        },
        DerEnd::Memory => DecodeError::Memory,
    }
}

/// Decodes a value of the type of the assignment with this number. The octets must begin with its encoding (X.690, DER). Returns
/// the value and the number of octets of that encoding.
///
/// The time is linear in the octets, except for parts and alternatives that are not there: each of them costs one comparison.
///
/// # Errors
///
/// `Bad` gives the first fault of the octets.
pub fn decode_der(
    alloc: Global,
    module: &Module,
    t: u32,
    octets: &[u8],
) -> Result<Decoded, DecodeError>
    requires assigned { t < length module.now }
    ensures value { IfOk result (λ found. In module.now t found.value) }
    ensures answer { Says module.now t octets.now result }
{
    // Calling one of the module's readers makes its invariant known.
    let _ = module.count();
    see_octets(octets);
    let body = module.assignment(t).body.root();
    match root(alloc, module, body, octets) {
        Ok(read) => Ok(Decoded {
            octets: read.1.at,
            value: Whole::of(read.0),
        }),
        Err(fault) => Err(told(fault)),
    }
}
