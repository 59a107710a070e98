//! Links several schema documents into one set.
ghost use Rattle.std.specs.Prelude.{◌≡◌, ◌≤◌, ◌∷◌, [], IsTrue, length, map, IfOk};
ghost use Rattle.simple_types.specs.Seen.{space_of};
ghost use Rattle.schema_components.specs.Documents.{doc_of};
ghost use Rattle.link_names.specs.SimpleTypes.{simple_types};
ghost use Rattle.link_simple.specs.Answering.{made_of, AreSound};
ghost use Rattle.link_simple.specs.Making.{IsMaking};
ghost use Rattle.link_schemas.specs.Answering.{AnswersPasses};
ghost use Rattle.link_set.specs.Sets.{parts_of, set_of};
ghost use Rattle.link_schemas.specs.Passes.{Making, Valuing, Comparing, Clearing, ArePassed, passes_of_names, passes};
ghost use Rattle.link_schemas.specs.Sets.{AreNumbered, AnswersSpaces, Links};

use crate::passes::{LinkError, check_content, check_names, check_standards, make_simple_types};
use base_texts::Memory;
use link_set::set_parts;
use schema_components::{RawDoc, SchemaSet};
use simple_types::Simple;
use std::alloc::Global;

// Runs the passes after the making of simple types.
fn checked(alloc: Global, docs: &[RawDoc], simples: &[Simple]) -> Result<(), LinkError>
    requires passed { ArePassed (map doc_of docs.now) passes_of_names }
    requires made { IsMaking (simple_types (map doc_of docs.now)) (made_of simples.now) }
    requires sound { AreSound simples.now }
    ensures { AnswersPasses (map doc_of docs.now) (Valuing ∷ Comparing ∷ Clearing ∷ []) result }
{
    check_standards(alloc, docs, simples)?;
    check_content(alloc, docs)
}

// Runs the passes from the making of simple types on.
fn made(alloc: Global, docs: &[RawDoc]) -> Result<Vec<Simple>, LinkError>
    requires { ArePassed (map doc_of docs.now) passes_of_names }
    ensures { AnswersSpaces (map doc_of docs.now) (Making ∷ Valuing ∷ Comparing ∷ Clearing ∷ []) result }
{
    let simples = make_simple_types(alloc, docs)?;
    checked(alloc, docs, &simples)?;
    Ok(simples)
}

// Runs all passes.
fn passed(alloc: Global, docs: &[RawDoc]) -> Result<Vec<Simple>, LinkError>
    ensures { AnswersSpaces (map doc_of docs.now) passes result }
{
    check_names(alloc, docs)?;
    made(alloc, docs)
}

// Returns the set of the documents, which is consistent because no pass has a fault.
fn assembled(alloc: Global, docs: &[RawDoc], spaces: Vec<Simple>) -> Result<SchemaSet, Memory>
    requires numbered { AreNumbered (map doc_of docs.now) }
    requires passed { ArePassed (map doc_of docs.now) passes }
    requires all { length spaces.items ≡ length (simple_types (map doc_of docs.now)) }
    requires sound { AreSound spaces.items }
    ensures { IfOk result (λ set. parts_of set ≡ set_of (map doc_of docs.now) (map space_of spaces.items)) }
{
    let parts = set_parts(alloc, docs, spaces)?;
    Ok(SchemaSet::of(
        parts.elements,
        parts.globals,
        parts.simples,
        parts.complexes,
        parts.attributes,
    ))
}

/// Returns whether the documents have the file numbers 1, 2 and so on, in their order, as `link` requires.
pub fn are_numbered(docs: &[RawDoc]) -> bool
    ensures only { IsTrue result → AreNumbered (map doc_of docs.now) }
    ensures all { AreNumbered (map doc_of docs.now) → IsTrue result }
{
    'docs: for n in 0..docs.len() {
        if docs[n].file() as usize != n + 1 {
            return false;
        }
    }
    true
}

/// Returns the documents as one set, in which each name is resolved, or the first fault that the passes show. There are at most
/// 64 documents, and their file numbers are 1, 2 and so on. The time grows as n log n with the size of the documents, in addition
/// to what `link_simple::made` states of restricting and `link_names::first_circular` of cycles. The set is proved to be
/// consistent, without any test at run time.
pub fn link(alloc: Global, docs: &[RawDoc]) -> Result<SchemaSet, LinkError>
    requires few { length docs.now ≤ 64 }
    requires numbered { AreNumbered (map doc_of docs.now) }
    ensures { Links (map doc_of docs.now) result }
{
    let spaces = passed(alloc, docs)?;
    let set = assembled(alloc, docs, spaces)?;
    Ok(set)
}
