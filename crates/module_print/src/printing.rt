//! The complete text of a module.
ghost use Rattle.std.specs.Prelude.{◌≡◌, ◌++◌, OnOk, IfOk};
ghost use Rattle.asn_types.specs.Modules.{AreWellFormed};
ghost use Rattle.module_print.specs.Printed.{printed_assignment, printed};

use crate::types::write_type;
use asn_types::{Assignment, Module};
use base_texts::Memory;
use std::alloc::Global;

const OPENING: &[u8] = b"Schema-Set DEFINITIONS XER INSTRUCTIONS AUTOMATIC TAGS ::= BEGIN\n";

const CLOSING: &[u8] =
    b"ENCODING-CONTROL XER\n    GLOBAL-DEFAULTS MODIFIED-ENCODINGS\n    GLOBAL-DEFAULTS CONTROL-NAMESPACE \"http://www.w3.org/2001/XMLSchema-instance\" PREFIX \"xsi\"\nEND\n";

// Appends an assignment, on lines of its own.
fn write_assignment(
    out: &mut Vec<u8>,
    module: &Module,
    assignment: &Assignment,
) -> Result<(), Memory>
    requires { AreWellFormed module.now assignment.now.body }
    ensures { OnOk result (out.new.items ≡ out.old.items ++ printed_assignment module.now assignment.now) }
{
    let Assignment {
        reference,
        marks,
        body,
    } = assignment;
    out.extend_from_slice(reference.bytes())?;
    out.extend_from_slice(b" ::= ")?;
    write_type(out, module, 0, reference, marks, body.root())?;
    out.push(b'\n')?;
    Ok(())
}

/// Returns the text of the module in UTF-8. The time is linear in the length of the text.
pub fn print_module(alloc: Global, module: &Module) -> Result<Vec<u8>, Memory>
    ensures { IfOk result (λ text. text.items ≡ printed module.now) }
{
    // Calling one of the module's readers makes its invariant known.
    let _ = module.count();
    let assignments = module.assignments();
    let mut out = Vec::from_slice(alloc, OPENING)?;
    'assignments: for assignment in assignments {
        write_assignment(&mut out, module, assignment)?;
    }
    out.extend_from_slice(CLOSING)?;
    Ok(out)
}
