//! Loading files and reading the input, with their limit, and the reasons for which they fail.
ghost use Rattle.std.specs.Prelude.{◌≡◌, ◌≤◌, length, IfOk, IfErr, OnOk};
ghost use Rattle.xml_read.specs.Tokens.{tokens, Ascend};
ghost use Rattle.schema_components.specs.Documents.{doc_of};
ghost use Rattle.schema_read.specs.Raw.{raw_of};
ghost use Rattle.transcode_words.specs.Order.{Give, Then};
ghost use Rattle.std.specs.Io.KnownBytes.{IsAtEnd};
ghost use Rattle.base_texts.specs.Entries.{IsNext, after_next};
ghost use Rattle.transcode_core.specs.Steps.{Loaded, Input, Read, Faultless};
ghost use Rattle.transcode_words.specs.Answers.{Answers, NoMemory};
ghost use Rattle.transcode_core.specs.Causes.{OneLoad, OneRead, IsOfInput};

use base_texts::{Library, LoadError, ReadError, Source, Text, read_all};
use schema_components::RawDoc;
use schema_read::{SchemaError, read_schema};
use std::alloc::Global;
use transcode_words::Outcome;
use xml_read::{DocError, Document, Items, read_document, read_shared};

/// The greatest length of a file, and of the input, in bytes.
pub const LIMIT: u64 = 16_777_216;

/// The contents of a file.
pub fn load_file<F: Library>(
    alloc: Global,
    files: &mut F,
    file: u32,
    name: &Text,
) -> Result<Vec<u8>, Outcome>
    requires { IsNext (F.agenda files.old) name.now }
    ensures due { Answers (λ bytes. bytes.items) (Loaded (F.entries files.old) file name.now)
        (OneLoad (F.faults files.old) (F.faults files.new) (F.is_sure files.old) (F.entries files.old) file name.now) result }
    ensures most { IfOk result (λ bytes. length bytes.items ≤ 16777216) }
    ensures files { (F.entries files.new ≡ F.entries files.old) × (F.is_sure files.new ≡ F.is_sure files.old) }
    ensures rest { F.agenda files.new ≡ after_next (F.agenda files.old) }
    ensures later { F.faults files.old ≤ F.faults files.new }
{
    match files.load(alloc, name, LIMIT) {
        Ok(bytes) => Ok(bytes),
        Err(LoadError::Failed) => Err(Outcome::LoadFault { file }),
        Err(LoadError::TooLong) => Err(Outcome::TooLong { file }),
        Err(LoadError::Memory) => Err(Outcome::OutOfMemory),
    }
}

/// All of the input.
pub fn read_input<S: Source>(alloc: Global, input: &mut S) -> Result<Vec<u8>, Outcome>
    ensures due { Answers (λ bytes. bytes.items) (Input (S.left input.old)) (OneRead (S.faults input.old) (S.faults input.new)) result }
    ensures most { IfOk result (λ bytes. length bytes.items ≤ 16777216) }
    ensures end { OnOk result (IsAtEnd (S.left input.new)) }
    ensures stage { IfErr result IsOfInput }
    ensures later { S.faults input.old ≤ S.faults input.new }
{
    match read_all(alloc, input, LIMIT) {
        Ok(bytes) => Ok(bytes),
        Err(ReadError::Failed) => Err(Outcome::ReadFault),
        Err(ReadError::TooLong) => Err(Outcome::TooLong { file: 0 }),
        Err(ReadError::Memory) => Err(Outcome::OutOfMemory),
    }
}

/// The items of a schema file.
pub fn read_schema_items(alloc: Global, file: u32, bytes: &[u8]) -> Result<Items, Outcome>
    requires { length bytes.now ≤ 16777216 }
    ensures due { Answers (λ items. items) (Read (λ at why. Outcome.SchemaSyntax file at why) bytes.now) NoMemory result }
    ensures places { IfOk result (λ items. Ascend 0 16777216 (tokens items)) }
{
    match read_document(alloc, bytes) {
        Ok(items) => Ok(items),
        Err(DocError::Syntax { at, why }) => Err(Outcome::SchemaSyntax { file, at, why }),
        Err(DocError::Memory) => Err(Outcome::OutOfMemory),
    }
}

/// The components of a schema document, which is this file.
pub fn read_components(alloc: Global, file: u32, items: &Items) -> Result<RawDoc, Outcome>
    requires { Ascend 0 16777216 (tokens items.now) }
    ensures { Answers doc_of (Then (Faultless file items.now) (λ _. Give (raw_of file items.now))) NoMemory result }
{
    match read_schema(alloc, items, file) {
        Ok(document) => Ok(document),
        Err(SchemaError::Shown { at, why }) => Err(Outcome::SchemaFault { file, at, why }),
        Err(SchemaError::Memory) => Err(Outcome::OutOfMemory),
    }
}

/// The items of the input.
pub fn read_input_items(alloc: Global, bytes: &[u8]) -> Result<Items, Outcome>
    requires { length bytes.now ≤ 16777216 }
    ensures due { Answers (λ items. items) (Read (λ at why. Outcome.DocSyntax at why) bytes.now) NoMemory result }
    ensures stage { IfErr result IsOfInput }
{
    match read_document(alloc, bytes) {
        Ok(items) => Ok(items),
        Err(DocError::Syntax { at, why }) => Err(Outcome::DocSyntax { at, why }),
        Err(DocError::Memory) => Err(Outcome::OutOfMemory),
    }
}

/// The items of the input, which share its bytes.
pub fn read_shared_items(alloc: Global, bytes: Vec<u8>) -> Result<Items, Outcome>
    requires { length bytes.items ≤ 16777216 }
    ensures due { Answers (λ items. items) (Read (λ at why. Outcome.DocSyntax at why) bytes.items) NoMemory result }
    ensures stage { IfErr result IsOfInput }
{
    let Ok(document) = Document::of(bytes) else {
        return Err(Outcome::OutOfMemory);
    };
    match read_shared(alloc, &document) {
        Ok(items) => Ok(items),
        Err(DocError::Syntax { at, why }) => Err(Outcome::DocSyntax { at, why }),
        Err(DocError::Memory) => Err(Outcome::OutOfMemory),
    }
}
