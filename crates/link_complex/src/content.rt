//! Finds content models that can't be read without lookahead.
ghost use Rattle.std.specs.Prelude.{map, IfOk, Some};
ghost use Rattle.schema_components.specs.Documents.{doc_of};
ghost use Rattle.link_names.specs.Order.{IsFirstSuch};
ghost use Rattle.link_complex.specs.ComplexTypes.{model_of};
ghost use Rattle.link_complex.specs.Content.{BreaksIn, IsUnclear};

use crate::definitions::complex_types;
use base_texts::Memory;
use content_models::{Particle, first_breach};
use link_names::{LinkWhy, LinkingFault, Place, first_of};
use schema_components::{RawContent, RawDoc};
use std::alloc::Global;

// Returns the first particle of a content model that breaks a rule.
fn first_in_model(alloc: Global, model: &Particle) -> Result<Option<LinkingFault>, Memory>
    ensures { IfOk result (λ found. IsFirstSuch (BreaksIn (Some model.now)) found) }
{
    let found = first_breach(alloc, model)?;
    match found {
        Some(breach) => Ok(Some(LinkingFault {
            place: Place {
                file: breach.file,
                at: breach.at,
            },
            why: LinkWhy::NotClear,
        })),
        None => Ok(None),
    }
}

fn first_in_content(alloc: Global, content: &RawContent) -> Result<Option<LinkingFault>, Memory>
    ensures { IfOk result (λ found. IsFirstSuch (BreaksIn (model_of content.now)) found) }
{
    match content {
        RawContent::Empty => Ok(None),
        RawContent::Simple { .. } => Ok(None),
        RawContent::ElementOnly(model) => first_in_model(alloc, model),
        RawContent::Mixed(model) => first_in_model(alloc, model),
    }
}

/// Returns the first particle that breaks a rule of clear content models. The time grows as n log n with the number n of
/// particles, whatever their names are.
pub fn first_unclear(alloc: Global, docs: &[RawDoc]) -> Result<Option<LinkingFault>, Memory>
    ensures { IfOk result (λ found. IsFirstSuch (IsUnclear (map doc_of docs.now)) found) }
{
    let complexes = complex_types(alloc, docs)?;
    let mut found = None;
    'complexes: for complex in &complexes {
        let here = first_in_content(alloc, &complex.body.content)?;
        found = first_of(found, here);
    }
    Ok(found)
}
