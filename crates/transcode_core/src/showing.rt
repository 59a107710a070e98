//! The module of a set, in each form.
ghost use Rattle.std.specs.Prelude.{◌≡◌, ◌≤◌, ◌++◌, List, codes, length, take};
ghost use Rattle.std.specs.List.{flat_map};
ghost use Rattle.sha2.specs.Sha256.{sha256};
ghost use Rattle.asn_types.specs.declared.modules.Assignment.{Assignment};
ghost use Rattle.module_print.specs.Names.{IsNotation};
ghost use Rattle.module_print.specs.Plain.{plain};
ghost use Rattle.module_print.specs.Printed.{printed as printed_module};
ghost use Rattle.schema_components.specs.SetParts.{parts_of};
ghost use Rattle.transcode_words.specs.Answers.{Answers, NoMemory};
ghost use Rattle.transcode_words.specs.Order.{Give, Then};
ghost use Rattle.transcode_core.specs.Agendas.{Begins, LoadsFirst};
ghost use Rattle.transcode_core.specs.Digits.{both_digits};
ghost use Rattle.transcode_core.specs.Due.{SetIn};
ghost use Rattle.transcode_core.specs.Causes.{SomeLoad};
ghost use Rattle.transcode_core.specs.Requests.Due.{Mapped, shown};

use crate::opening::read_set;
use crate::stamps::{stamp_line, stamp_of};
use asn_types::Module;
use base_texts::{Library, Text};
use map_assignments::map_set;
use map_printable::{maps_are_notation, see_fixed_octets};
use module_print::{plain_module, print_module};
use schema_components::SchemaSet;
use std::alloc::Global;
use transcode_words::Outcome;
use transcode_words::asked::Form;

// Returns the stamp of the printed module as a line.
fn stamp_text(alloc: Global, printed: &[u8]) -> Result<Vec<u8>, Outcome>
    ensures { Answers (λ bytes. bytes.items) (Give (flat_map both_digits (take 8 (sha256 printed.now)) ++ codes "\n")) NoMemory result }
{
    match stamp_line(alloc, stamp_of(printed)) {
        Ok(line) => Ok(line),
        Err(_) => Err(Outcome::OutOfMemory),
    }
}

// Returns the printed module without its encoding instructions.
fn plain_text(alloc: Global, printed: &[u8]) -> Result<Vec<u8>, Outcome>
    ensures { (made : List Assignment) → printed.now ≡ printed_module made → IsNotation made → Answers (λ bytes. bytes.items) (Give (plain made)) NoMemory result }
{
    match plain_module(alloc, printed) {
        Ok(text) => Ok(text),
        Err(_) => Err(Outcome::OutOfMemory),
    }
}

// Returns the module in this form.
fn show_module(alloc: Global, form: Form, module: &Module) -> Result<Vec<u8>, Outcome>
    requires { IsNotation module.now }
    ensures { Answers (λ bytes. bytes.items) (Give (shown form module.now)) NoMemory result }
{
    let Ok(text) = print_module(alloc, module) else {
        return Err(Outcome::OutOfMemory);
    };
    match form {
        Form::Notation => Ok(text),
        Form::Stamp => stamp_text(alloc, &text),
        Form::Plain => plain_text(alloc, &text),
    }
}

// Returns the module of the set in this form.
fn show_set(alloc: Global, form: Form, set: &SchemaSet) -> Result<Vec<u8>, Outcome>
    ensures { Answers (λ bytes. bytes.items) (Then (Mapped (parts_of set.now)) (λ made. Give (shown form made))) NoMemory result }
{
    // Calling one of the set's readers makes its invariant known.
    let _ = set.element_count();
    maps_are_notation();
    match map_set(alloc, set) {
        Ok(module) => {
            see_fixed_octets(&module);
            show_module(alloc, form, &module)
        }
        Err(_) => Err(Outcome::OutOfMemory),
    }
}

/// Returns the module of the set of these files in this form.
pub fn show_files<F: Library>(
    alloc: Global,
    form: Form,
    library: &mut F,
    names: &[Text],
) -> Result<Vec<u8>, Outcome>
    requires few { length names.now ≤ 64 }
    requires named { Begins (F.agenda library.old) names.now }
    ensures due { Answers (λ bytes. bytes.items) (Then (SetIn (F.entries library.old) names.now) (λ parts. Then (Mapped parts) (λ made. Give (shown form made))))
        (SomeLoad (F.faults library.old) (F.faults library.new) (F.is_sure library.old) (F.entries library.old) names.now) result }
    ensures files { (F.entries library.new ≡ F.entries library.old) × (F.is_sure library.new ≡ F.is_sure library.old) }
    ensures named { LoadsFirst names.now (F.agenda library.old) (F.agenda library.new) }
    ensures later { F.faults library.old ≤ F.faults library.new }
{
    let set = read_set(alloc, library, names)?;
    show_set(alloc, form, &set)
}
