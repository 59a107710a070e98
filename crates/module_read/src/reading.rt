//! Reading bytes back to the module whose print they are.
ghost use Rattle.std.specs.Prelude.{◌≡◌, ◌≤◌, [], IfOk, IsUtf8, MatchResult, length};
ghost use Rattle.module_text.specs.Grammar.{IsTextOf};
ghost use Rattle.module_text.specs.Texts.{text_of};
ghost use Rattle.module_text.specs.Faults.{faults};
ghost use Rattle.module_text.specs.ReadBack.{Answers, IsErrorOf};
ghost use Rattle.module_read.specs.Tells.{Tells};

use crate::modules::make;
use asn_types::Module;
use module_check::first_fault;
use module_laws::{least_is_first, no_fault_is_printable};
use module_parse::{Finding, parse};
use module_text::{ModuleError, ModuleWhy, PlainAssignment};
use std::alloc::Global;

// Returns the module that a text without a fault states.
fn module_made(alloc: Global, assignments: &[PlainAssignment]) -> Result<Module, ModuleError>
    requires utf8 { IsUtf8 (text_of assignments.now) }
    requires short { length (text_of assignments.now) ≤ 16777216 }
    requires text { IsTextOf (text_of assignments.now) assignments.now }
    requires faultless { faults assignments.now ≡ [] }
    ensures { MatchResult result (Tells (text_of assignments.now)) (IsErrorOf (text_of assignments.now)) }
{
    no_fault_is_printable();
    let made = make(alloc, assignments)?;
    Ok(Module::of(made))
}

// Returns the module that the text of these assignments states, or its first fault.
fn module_of(alloc: Global, assignments: &[PlainAssignment]) -> Result<Module, ModuleError>
    requires utf8 { IsUtf8 (text_of assignments.now) }
    requires short { length (text_of assignments.now) ≤ 16777216 }
    requires text { IsTextOf (text_of assignments.now) assignments.now }
    ensures { MatchResult result (Tells (text_of assignments.now)) (IsErrorOf (text_of assignments.now)) }
{
    least_is_first();
    let found = first_fault(alloc, assignments)?;
    match found {
        Some(fault) => Err(ModuleError::Bad {
            at: fault.at,
            why: fault.why,
        }),
        None => module_made(alloc, assignments),
    }
}

fn read_utf8(alloc: Global, bytes: &[u8]) -> Result<Module, ModuleError>
    requires utf8 { IsUtf8 bytes.now }
    requires short { length bytes.now ≤ 16777216 }
    ensures { MatchResult result (Tells bytes.now) (IsErrorOf bytes.now) }
{
    let found = parse(alloc, bytes)?;
    match found {
        Finding::Module { assignments } => module_of(alloc, &assignments),
        Finding::Syntax { at } => Err(ModuleError::Bad {
            at: at as u64,
            why: ModuleWhy::Syntax,
        }),
        Finding::TooDeep { at } => Err(ModuleError::Bad {
            at: at as u64,
            why: ModuleWhy::TooDeep,
        }),
    }
}

/// Returns the module whose print these bytes are, if it is printable, or else the first fault of the bytes. There are at most 16
/// MiB of them. `Memory` means that an allocation failed.
pub fn read_module(alloc: Global, bytes: &[u8]) -> Result<Module, ModuleError>
    requires { length bytes.now ≤ 16777216 }
    ensures answers { Answers bytes.now result }
    ensures told { IfOk result (Tells bytes.now) }
{
    if let Err(fault) = simdutf8::compat::from_utf8(bytes) {
        return Err(ModuleError::Bad {
            at: fault.valid_up_to() as u64,
            why: ModuleWhy::NotUtf8,
        });
    }
    read_utf8(alloc, bytes)
}
