//! The items of a document, from a source or lent.
ghost use Rattle.std.specs.Prelude.{◌≤◌, Some, OnOk, IfErr};
ghost use Rattle.std.specs.Io.KnownBytes.{IsAtEnd};
ghost use Rattle.transcode_words.specs.Answers.{Answers, NoMemory};
ghost use Rattle.transcode_core.specs.Due.{ItemsIn};
ghost use Rattle.transcode_core.specs.Causes.{OneRead, IsOfInput};

use crate::files::{LIMIT, read_input, read_input_items, read_shared_items};
use base_texts::Source;
use std::alloc::Global;
use transcode_words::Outcome;
use xml_read::Items;

/// The items of the document in the input.
pub fn read_items<S: Source>(alloc: Global, input: &mut S) -> Result<Items, Outcome>
    ensures due { Answers (λ items. items) (ItemsIn (S.left input.old)) (OneRead (S.faults input.old) (S.faults input.new)) result }
    ensures end { OnOk result (IsAtEnd (S.left input.new)) }
    ensures stage { IfErr result IsOfInput }
    ensures later { S.faults input.old ≤ S.faults input.new }
{
    let bytes = read_input(alloc, input)?;
    read_shared_items(alloc, bytes)
}

/// The items of the document that these bytes are: they are read where they lie.
pub fn lent_items(alloc: Global, document: &[u8]) -> Result<Items, Outcome>
    ensures due { Answers (λ items. items) (ItemsIn (Some document.now)) NoMemory result }
    ensures stage { IfErr result IsOfInput }
{
    if document.len() as u64 > LIMIT {
        return Err(Outcome::TooLong { file: 0 });
    }
    read_input_items(alloc, document)
}
