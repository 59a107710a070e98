//! Whether a document is valid for the root of a set.
ghost use Rattle.std.specs.Prelude.{◌+◌, ◌*◌, ◌≤◌, [], OnOk, IfErr, Ok};
ghost use Rattle.std.specs.Io.KnownBytes.{IsAtEnd};
ghost use Rattle.schema_components.specs.SetParts.{parts_of};
ghost use Rattle.xml_items.specs.Counts.{element_count};
ghost use Rattle.transcode_words.specs.Order.{Give, Then};
ghost use Rattle.transcode_words.specs.Answers.{Answers, NoMemory};
ghost use Rattle.transcode_core.specs.Private.Seen.{opened_seen};
ghost use Rattle.transcode_core.specs.Steps.{Judged};
ghost use Rattle.transcode_core.specs.Due.{ItemsIn, Checked};
ghost use Rattle.transcode_core.specs.Causes.{OneRead, StepsUpTo, IsOfInput, StepsFrom};

use crate::documents::read_items;
use crate::opened::Opened;
use base_texts::{Source, Steps};
use std::alloc::Global;
use std::sync::ledger::Ledger;
use transcode_words::Outcome;
use validity_check::CheckError;
use xer_read::check_items;
use xml_read::Items;

/// Whether the document is valid for the root: it has no bytes to write.
pub fn judge<L: Ledger>(
    alloc: Global,
    opened: &Opened,
    items: &Items,
    steps: &mut Steps<L>,
) -> Result<Vec<u8>, Outcome>
    ensures due { Answers (λ bytes. bytes.items) (Then (Judged (parts_of opened.now.set) opened.now.root items.now) (λ _. Give [])) NoMemory result }
    ensures stage { IfErr result IsOfInput }
    ensures most { steps.new ≤ steps.old + 144 * element_count items.now }
    ensures later { steps.old ≤ steps.new }
    ensures least { OnOk result (steps.old + element_count items.now ≤ steps.new + 1) }
{
    // What each linked set keeps is known once one of its readers was called.
    let _ = opened.set.element_count();
    match check_items(alloc, &opened.set, opened.root, items, steps) {
        Ok(()) => Ok(Vec::new(alloc)),
        Err(CheckError::Invalid { at, why }) => Err(Outcome::Invalid { at, why }),
        Err(CheckError::Memory) => Err(Outcome::OutOfMemory),
    }
}

/// Whether the document in the input is. Only the set is looked at: it has no map yet.
pub fn check_input<S: Source, L: Ledger>(
    alloc: Global,
    opened: &Opened,
    input: &mut S,
    steps: &mut Steps<L>,
) -> Result<Vec<u8>, Outcome>
    ensures due { Answers (λ bytes. bytes.items) (Checked (opened_seen opened.now) (S.left input.old)) (OneRead (S.faults input.old) (S.faults input.new)) result }
    ensures end { OnOk result (IsAtEnd (S.left input.new)) }
    ensures stage { IfErr result IsOfInput }
    ensures later { S.faults input.old ≤ S.faults input.new }
    ensures few { StepsUpTo (λ items. ItemsIn (S.left input.old) (Ok items)) steps.old steps.new }
    ensures many { OnOk result (StepsFrom (λ items. ItemsIn (S.left input.old) (Ok items)) steps.old steps.new) }
{
    let items = read_items(alloc, input)?;
    judge(alloc, opened, &items, steps)
}
