//! The schema files, one after another.
ghost use Rattle.std.specs.Prelude.{◌≡◌, ◌≤◌, length, map};
ghost use Rattle.schema_components.specs.Documents.{doc_of};
ghost use Rattle.base_texts.specs.Entries.{IsNext, after_next};
ghost use Rattle.transcode_core.specs.Agendas.{Begins, LoadsFirst};
ghost use Rattle.transcode_core.specs.Steps.{SchemaIn, Schema, Schemas};
ghost use Rattle.transcode_words.specs.Answers.{Answers, NoMemory};
ghost use Rattle.transcode_core.specs.Causes.{OneLoad, SomeLoad};

use crate::files::{load_file, read_components, read_schema_items};
use base_texts::{Library, Text};
use schema_components::RawDoc;
use std::alloc::Global;
use transcode_words::Outcome;

// The components of the schema document in the bytes. Its items are dropped.
fn read_file(alloc: Global, file: u32, bytes: &[u8]) -> Result<RawDoc, Outcome>
    requires { length bytes.now ≤ 16777216 }
    ensures { Answers doc_of (SchemaIn file bytes.now) NoMemory result }
{
    let items = read_schema_items(alloc, file, bytes)?;
    read_components(alloc, file, &items)
}

// Loads a schema file and reads it.
fn load_schema<F: Library>(
    alloc: Global,
    files: &mut F,
    file: u32,
    name: &Text,
) -> Result<RawDoc, Outcome>
    requires { IsNext (F.agenda files.old) name.now }
    ensures due { Answers doc_of (Schema (F.entries files.old) file name.now)
        (OneLoad (F.faults files.old) (F.faults files.new) (F.is_sure files.old) (F.entries files.old) file name.now) result }
    ensures files { (F.entries files.new ≡ F.entries files.old) × (F.is_sure files.new ≡ F.is_sure files.old) }
    ensures rest { F.agenda files.new ≡ after_next (F.agenda files.old) }
    ensures later { F.faults files.old ≤ F.faults files.new }
{
    let bytes = load_file(alloc, files, file, name)?;
    read_file(alloc, file, &bytes)
}

/// Loads the schema files in their order, each as often as its name is given, and reads them. Returns the components of each.
pub fn load_schemas<F: Library>(
    alloc: Global,
    files: &mut F,
    names: &[Text],
) -> Result<Vec<RawDoc>, Outcome>
    requires few { length names.now ≤ 64 }
    requires named { Begins (F.agenda files.old) names.now }
    ensures due { Answers (λ documents. map doc_of documents.items) (Schemas (F.entries files.old) 1 names.now)
        (SomeLoad (F.faults files.old) (F.faults files.new) (F.is_sure files.old) (F.entries files.old) names.now) result }
    ensures files { (F.entries files.new ≡ F.entries files.old) × (F.is_sure files.new ≡ F.is_sure files.old) }
    ensures named { LoadsFirst names.now (F.agenda files.old) (F.agenda files.new) }
    ensures later { F.faults files.old ≤ F.faults files.new }
{
    let mut documents = Vec::new(alloc);
    for (i, name) in names.iter().enumerate() {
        let document = load_schema(alloc, files, i as u32 + 1, name)?;
        if documents.push(document).is_err() {
            return Err(Outcome::OutOfMemory);
        }
    }
    Ok(documents)
}
