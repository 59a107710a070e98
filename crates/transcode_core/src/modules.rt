//! A printed module in a file, and its summary.
ghost use Rattle.std.specs.Prelude.{◌≡◌, ◌∷◌, [], ◌≤◌, length};
ghost use Rattle.module_read.specs.Summary as back;
ghost use Rattle.transcode_words.specs.Order.{Give, Then};
ghost use Rattle.transcode_words.specs.Answers.{Answers, NoMemory};
ghost use Rattle.transcode_core.specs.Agendas.{Begins, LoadsFirst};
ghost use Rattle.transcode_core.specs.Steps.{ModuleIn};
ghost use Rattle.transcode_core.specs.Due.{ShownBack};
ghost use Rattle.transcode_core.specs.Causes.{SomeLoad};

use crate::files::load_file;
use asn_types::Module;
use base_texts::{Library, Text};
use module_read::{ModuleError, read_module, summary};
use std::alloc::Global;
use transcode_words::Outcome;

// Returns the module of which these bytes are the print.
fn module_in(alloc: Global, bytes: &[u8]) -> Result<Module, Outcome>
    requires { length bytes.now ≤ 16777216 }
    ensures { Answers (λ M. M) (ModuleIn bytes.now) NoMemory result }
{
    match read_module(alloc, bytes) {
        Ok(found) => Ok(found),
        Err(ModuleError::Bad { at, why }) => Err(Outcome::ModuleFault { at, why }),
        Err(ModuleError::Memory) => Err(Outcome::OutOfMemory),
    }
}

fn tell(alloc: Global, found: &Module) -> Result<Vec<u8>, Outcome>
    ensures { Answers (λ text. text.items) (Give (back.summary found.now)) NoMemory result }
{
    match summary(alloc, found) {
        Ok(text) => Ok(text),
        Err(_) => Err(Outcome::OutOfMemory),
    }
}

fn tell_of(alloc: Global, bytes: &[u8]) -> Result<Vec<u8>, Outcome>
    requires { length bytes.now ≤ 16777216 }
    ensures { Answers (λ text. text.items) (Then (ModuleIn bytes.now) (λ M. Give (back.summary M))) NoMemory result }
{
    let found = module_in(alloc, bytes)?;
    tell(alloc, &found)
}

/// Returns the result of `show-back` for this file.
pub fn show_back<F: Library>(alloc: Global, files: &mut F, name: &Text) -> Result<Vec<u8>, Outcome>
    requires { Begins (F.agenda files.old) (name.now ∷ []) }
    ensures due { Answers (λ bytes. bytes.items) (ShownBack (F.entries files.old) name.now)
        (SomeLoad (F.faults files.old) (F.faults files.new) (F.is_sure files.old) (F.entries files.old) (name.now ∷ [])) result }
    ensures files { (F.entries files.new ≡ F.entries files.old) × (F.is_sure files.new ≡ F.is_sure files.old) }
    ensures named { LoadsFirst (name.now ∷ []) (F.agenda files.old) (F.agenda files.new) }
    ensures later { F.faults files.old ≤ F.faults files.new }
{
    let bytes = load_file(alloc, files, 1, name)?;
    tell_of(alloc, &bytes)
}
